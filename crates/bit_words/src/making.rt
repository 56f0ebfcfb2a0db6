//! Words that are made of a gate or of a number: they make no gate.
ghost use Rattle.std.specs.Prelude.{◌≡◌, ℕ, ◌-◌, ◌%◌, ◌^◌, ◌<◌, ◌≤◌, nat_eq, length, IfOk, IsTrue, ◌↔◌};
ghost use Rattle.bit_net.specs.Runs.{Grown, Gives};
ghost use Rattle.bit_words.specs.Number.{bit, number, top};
ghost use Rattle.bit_words.specs.Spells.{Spells};

use crate::bits;
use bit_net::{Gate, Net, OutOfMemory};

/// The word of `width` bits whose lowest bit is the gate and whose others are false.
pub fn gate_word(net: &Net, gate: Gate, width: usize) -> Result<Vec<Gate>, OutOfMemory>
    requires some { 0 < width }
    requires gate { gate.at < length net.now }
    ensures { IfOk result (λ r. Spells net.now r.items width (λ v. bit (v gate.at))) }
{
    let no = net.constant(false);
    let mut bits = bits::repeated(net, no, width - 1)?;
    bits.push(gate)?;
    Ok(bits)
}

/// The word of the low `width` bits of a number.
#[tactic(auto, using(crate::proofs::NumberLemmas::bound_laws))]
pub fn number_word(net: &Net, n: u64, width: usize) -> Result<Vec<Gate>, OutOfMemory>
    ensures { IfOk result (λ r. Spells net.now r.items width (λ v. n % 2 ^ width)) }
{
    let mut bits = Vec::new(net.alloc());
    let mut rest = n;
    for _place in 0..width {
        let bit = net.constant(rest % 2 == 1);
        bits.push(bit)?;
        rest /= 2;
    }
    bits.reverse();
    Ok(bits)
}

/// Whether a number fits this many bits.
fn fits(n: u64, width: usize) -> bool
    ensures { IsTrue result ↔ (n < 2 ^ width) }
{
    if width >= 64 {
        return true;
    }
    n >> width == 0
}

/// Holds where the word spells this number. A number that does not fit its width is never spelt.
pub fn is_number(net: &mut Net, a: &[Gate], n: u64) -> Result<Gate, OutOfMemory>
    requires { top a.now ≤ length net.old }
    ensures grown { Grown net.old net.new }
    ensures ok { IfOk result (λ r. Gives net.new r.at (λ choice v. nat_eq (number v a.now) n)) }
{
    if !fits(n, a.len()) {
        return Ok(net.constant(false));
    }
    let bits = number_word(net, n, a.len())?;
    let same = bits::equal(net, a, &bits)?;
    Ok(same)
}
