//! Conversions to another width: the low bits of a word, or copies of its sign bit or of false above it.
ghost use Rattle.std.specs.Prelude.{◌≡◌, ℕ, ◌<◌, ◌≤◌, ◌%◌, ◌^◌, ◌&&◌, length, IfOk};
ghost use Rattle.bit_net.specs.Runs.{Gives};
ghost use Rattle.bit_words.specs.Number.{number, top, converted};
ghost use Rattle.bit_words.specs.Parts.{first};
ghost use Rattle.bit_words.specs.Spells.{Spells};

use crate::bits;
use bit_net::{Gate, Net, OutOfMemory};

/// What stands above the high bit of a word: a copy of its sign bit, or false.
#[tactic(auto, using(crate::proofs::NumberLemmas::bound_laws, crate::proofs::MoveLemmas::first_law))]
fn bit_above(net: &Net, a: &[Gate], signed: bool) -> Gate
    requires some { 0 < length a.now }
    requires a { top a.now ≤ length net.now }
    ensures { Gives net.now result.at (λ choice v. signed && v (first a.now)) }
{
    if signed { a[0] } else { net.constant(false) }
}

/// The word of `width` bits that a conversion makes of a signed or unsigned word.
#[tactic(auto, using(crate::proofs::NumberLemmas::bound_laws))]
pub fn converted_to(
    net: &Net,
    a: &[Gate],
    signed: bool,
    width: usize,
) -> Result<Vec<Gate>, OutOfMemory>
    requires some { 0 < length a.now }
    requires a { top a.now ≤ length net.now }
    ensures { IfOk result (λ r. Spells net.now r.items width (λ v. converted signed (length a.now) width (number v a.now))) }
{
    if width <= a.len() {
        let bits = Vec::from_slice(net.alloc(), &a[a.len() - width..])?;
        return Ok(bits);
    }
    let above = bit_above(net, a, signed);
    let mut bits = bits::repeated(net, above, width - a.len())?;
    bits.extend_from_slice(a)?;
    Ok(bits)
}
