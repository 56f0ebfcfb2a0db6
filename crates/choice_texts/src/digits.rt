// The bits that hexadecimal digits stand for.

ghost use Rattle.std.specs.Prelude.{◌≡◌, ◌++◌, ◌<◌, IfOk, OnOk};
ghost use Rattle.std.specs.Option.{MatchOption};
ghost use Rattle.choice_texts.specs.Digits.{bits_of, IsDigit, IsNoDigit, HaveBits, HaveNoBits};

use sc_base::OutOfMemory;
use std::alloc::Global;

// The number of a hexadecimal digit; none of another byte.
#[tactic(auto, using(crate::proofs::Hexadecimal::digit_cases))]
fn number_of(byte: u8) -> Option<u8>
    ensures { MatchOption result (IsNoDigit byte) (IsDigit byte) }
{
    if byte < b'0' {
        return None;
    }
    if byte <= b'9' {
        return Some(byte - b'0');
    }
    if byte < b'a' {
        return None;
    }
    if byte <= b'f' {
        return Some(byte - b'a' + 10);
    }
    None
}

// Puts the four bits of a number.
#[tactic(auto, unfolding(crate::specs::Digits::bits_of))]
fn put_bits(bits: &mut Vec<bool>, number: u8) -> Result<(), OutOfMemory>
    ensures { OnOk result (bits.new.items ≡ bits.old.items ++ bits_of number) }
{
    bits.push(number >= 8)?;
    bits.push(number % 8 >= 4)?;
    bits.push(number % 4 >= 2)?;
    bits.push(number % 2 == 1)?;
    Ok(())
}

/// The bits of hexadecimal digits, four a digit; none where some byte is no digit.
pub(crate) fn bits_of_digits(alloc: Global, digits: &[u8]) -> Result<Option<Vec<bool>>, OutOfMemory>
    ensures { IfOk result (λ found. MatchOption found (HaveNoBits digits.now) (λ bits. HaveBits digits.now bits.items)) }
{
    let mut bits = Vec::new(alloc);
    for digit in digits {
        match number_of(*digit) {
            Some(number) => put_bits(&mut bits, number)?,
            None => return Ok(None),
        }
    }
    Ok(Some(bits))
}
