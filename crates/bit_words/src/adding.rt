//! Sums and differences by ripple carry, from the low bit up.
ghost use Rattle.std.specs.Prelude.{◌≡◌, ℕ, ◌+◌, ◌-◌, ◌*◌, ◌%◌, ◌^◌, ◌<◌, ◌≤◌, if◌then◌else◌, length, IfOk};
ghost use Rattle.bit_net.specs.Runs.{Grown};
ghost use Rattle.bit_words.specs.Number.{bit, number, top};
ghost use Rattle.bit_words.specs.Parts.{IsBitSum, IsSum, IsDifference};
ghost use Rattle.bit_words.specs.Spells.{Spells};

use crate::bits;
use bit_net::{Gate, Net, OutOfMemory};

/// One bit of a sum, and what it carries to the next.
#[derive(Clone, Copy)]
struct BitSum {
    sum: Gate,
    carry: Gate,
}

/// A word of the width of its two operands, and the carry out of its high bit.
#[derive(Drop)]
pub struct Sum {
    pub bits: Vec<Gate>,
    pub carry: Gate,
}

/// The full adder.
fn full_adder(net: &mut Net, a: Gate, b: Gate, c: Gate) -> Result<BitSum, OutOfMemory>
    requires a { a.at < length net.old }
    requires b { b.at < length net.old }
    requires c { c.at < length net.old }
    ensures grown { Grown net.old net.new }
    ensures ok { IfOk result (λ r. IsBitSum net.new r.sum.at r.carry.at a.at b.at c.at) }
{
    let differ = net.xor(a, b)?;
    let sum = net.xor(differ, c)?;
    let carry = net.mux(differ, c, a)?;
    Ok(BitSum { sum, carry })
}

/// The sum of two words of one width and of the bit `first`.
#[tactic(auto, using(crate::proofs::NumberLemmas::bound_laws))]
pub fn sum_of(net: &mut Net, a: &[Gate], b: &[Gate], first: Gate) -> Result<Sum, OutOfMemory>
    requires same { length a.now ≡ length b.now }
    requires a { top a.now ≤ length net.old }
    requires b { top b.now ≤ length net.old }
    requires first { first.at < length net.old }
    ensures grown { Grown net.old net.new }
    ensures ok { IfOk result (λ r. IsSum net.new r.bits.items r.carry.at a.now b.now first.at) }
{
    let mut bits = Vec::new(net.alloc());
    let mut carry = first;
    for i in 0..a.len() {
        let at = a.len() - 1 - i;
        let next = full_adder(net, a[at], b[at], carry)?;
        bits.push(next.sum)?;
        carry = next.carry;
    }
    bits.reverse();
    Ok(Sum { bits, carry })
}

/// The difference of two words of one width; its carry holds where nothing is borrowed.
pub fn difference_of(net: &mut Net, a: &[Gate], b: &[Gate]) -> Result<Sum, OutOfMemory>
    requires same { length a.now ≡ length b.now }
    requires a { top a.now ≤ length net.old }
    requires b { top b.now ≤ length net.old }
    ensures grown { Grown net.old net.new }
    ensures ok { IfOk result (λ r. IsDifference net.new r.bits.items r.carry.at a.now b.now) }
{
    let yes = net.constant(true);
    let inverse = bits::flipped(net, b, yes)?;
    sum_of(net, a, &inverse, yes)
}

/// The word with its number taken from 2 to its width where `when` holds, else the word itself.
pub fn negated(net: &mut Net, a: &[Gate], when: Gate) -> Result<Vec<Gate>, OutOfMemory>
    requires a { top a.now ≤ length net.old }
    requires when { when.at < length net.old }
    ensures grown { Grown net.old net.new }
    ensures ok { IfOk result (λ r. Spells net.new r.items (length a.now)
        (λ v. if v when.at then (2 ^ length a.now - number v a.now) % 2 ^ length a.now else number v a.now)) }
{
    let none = bits::repeated(net, net.constant(false), a.len())?;
    let turned = bits::flipped(net, a, when)?;
    let sum = sum_of(net, &turned, &none, when)?;
    Ok(sum.bits)
}

/// The sum of two words of one width, the second of which counts only where `when` holds.
pub fn add_where(
    net: &mut Net,
    a: &[Gate],
    b: &[Gate],
    when: Gate,
) -> Result<Vec<Gate>, OutOfMemory>
    requires same { length a.now ≡ length b.now }
    requires a { top a.now ≤ length net.old }
    requires b { top b.now ≤ length net.old }
    requires when { when.at < length net.old }
    ensures grown { Grown net.old net.new }
    ensures ok { IfOk result (λ r. Spells net.new r.items (length a.now)
        (λ v. (number v a.now + (if v when.at then number v b.now else 0)) % 2 ^ length a.now)) }
{
    let no = net.constant(false);
    let none = bits::repeated(net, no, b.len())?;
    let counted = bits::select(net, when, b, &none)?;
    let sum = sum_of(net, a, &counted, no)?;
    Ok(sum.bits)
}
