// The choice of a given length that digits spell.

ghost use Rattle.std.specs.Prelude.{◌≡◌, ◌≢◌, ◌≤◌, not, IfOk, drop, option_map};
ghost use Rattle.std.specs.List.{list_all};
ghost use Rattle.std.specs.Option.{MatchOption};
ghost use Rattle.choice_texts.specs.Choices.{choice_spelled, IsSpelled, NoneIsSpelled};

use crate::digits::bits_of_digits;
use sc_base::OutOfMemory;
use sc_world::the_first_choice;
use std::alloc::Global;

// Whether no bit is set from a place on.
fn is_blank(bits: &[bool], from: usize) -> bool
    ensures { result ≡ list_all not (drop from bits.now) }
{
    for at in from..bits.len() {
        if bits[at] {
            return false;
        }
    }
    true
}

// The choice of so many bits, at least one, that digits spell.
fn read_bits(alloc: Global, digits: &[u8], bits: usize) -> Result<Option<Vec<bool>>, OutOfMemory>
    requires some { bits ≢ 0 }
    ensures { IfOk result (λ found. MatchOption found (NoneIsSpelled bits digits.now) (λ choice. IsSpelled bits digits.now choice.items)) }
{
    if digits.len() != (bits - 1) / 4 + 1 {
        return Ok(None);
    }
    let Some(mut choice) = bits_of_digits(alloc, digits)? else {
        return Ok(None);
    };
    if !is_blank(choice.as_slice(), bits) {
        return Ok(None);
    }
    choice.truncate(bits);
    Ok(Some(choice))
}

// The choice of so many bits that digits spell.
#[tactic(auto, using(crate::proofs::Choices::none_found, crate::proofs::Choices::none_missed))]
fn read(alloc: Global, digits: &[u8], bits: u32) -> Result<Option<Vec<bool>>, OutOfMemory>
    ensures { IfOk result (λ found. MatchOption found (NoneIsSpelled bits digits.now) (λ choice. IsSpelled bits digits.now choice.items)) }
{
    if bits > 0 {
        return read_bits(alloc, digits, bits as usize);
    }
    if digits == b"none".as_slice() {
        Ok(Some(Vec::new(alloc)))
    } else {
        Ok(None)
    }
}

/// The choice of so many bits that digits spell as a report prints it; none where no choice of that length is spelled
/// so. The time is linear in the digits.
///
/// # Errors
///
/// `OutOfMemory` where memory is refused.
pub fn read_choice(
    alloc: Global,
    digits: &[u8],
    bits: u32,
) -> Result<Option<Vec<bool>>, OutOfMemory>
    ensures answers { IfOk result (λ found. MatchOption found (NoneIsSpelled bits digits.now) (λ choice. IsSpelled bits digits.now choice.items)) }
    ensures defined { IfOk result (λ found. option_map (λ choice. choice.items) found ≡ choice_spelled bits digits.now) }
{
    the_first_choice();
    read(alloc, digits, bits)
}
