//! Restoring division, and the quotient and remainder of signed words by their magnitudes.
ghost use Rattle.std.specs.Prelude.{◌≡◌, ℕ, ◌<◌, ◌≤◌, length, IfOk};
ghost use Rattle.bit_net.specs.Runs.{Grown};
ghost use Rattle.bit_words.specs.Number.{number, top, signed_quotient, signed_remainder};
ghost use Rattle.bit_words.specs.Parts.{IsDivideStep, IsDivision, IsDivisionOfMagnitudes};
ghost use Rattle.bit_words.specs.Spells.{Spells};

use crate::{adding, bits};
use bit_net::{Gate, Net, OutOfMemory};

/// A quotient and what is left.
#[derive(Drop)]
pub struct Division {
    pub quotient: Vec<Gate>,
    pub rest: Vec<Gate>,
}

/// One bit of a quotient, and what is left then.
#[derive(Drop)]
struct DivideStep {
    bit: Gate,
    rest: Vec<Gate>,
}

/// What is left so far with one bit more behind it: takes the divisor away where it goes into that and `divides` holds.
#[tactic(auto, using(crate::proofs::NumberLemmas::bound_laws))]
fn divide_step(
    net: &mut Net,
    rest: &[Gate],
    bit: Gate,
    divisor: &[Gate],
    divides: Gate,
) -> Result<DivideStep, OutOfMemory>
    requires same { length rest.now ≡ length divisor.now }
    requires rest { top rest.now ≤ length net.old }
    requires bit { bit.at < length net.old }
    requires divisor { top divisor.now ≤ length net.old }
    requires divides { divides.at < length net.old }
    ensures grown { Grown net.old net.new }
    ensures ok { IfOk result (λ r. IsDivideStep net.new r.bit.at r.rest.items rest.now bit.at divisor.now divides.at) }
{
    let mut longer = Vec::from_slice(net.alloc(), rest)?;
    longer.push(bit)?;
    let mut wide = vec![in net.alloc(); net.constant(false)]?;
    wide.extend_from_slice(divisor)?;
    let difference = adding::difference_of(net, &longer, &wide)?;
    let goes = net.and(difference.carry, divides)?;
    let rest = bits::select(net, goes, &difference.bits[1..], &longer[1..])?;
    Ok(DivideStep { bit: goes, rest })
}

/// The quotient and the remainder of two words of one width; for a zero divisor 0 and the dividend.
#[tactic(auto, using(crate::proofs::NumberLemmas::bound_laws))]
pub fn divide(net: &mut Net, a: &[Gate], divisor: &[Gate]) -> Result<Division, OutOfMemory>
    requires same { length a.now ≡ length divisor.now }
    requires a { top a.now ≤ length net.old }
    requires divisor { top divisor.now ≤ length net.old }
    ensures grown { Grown net.old net.new }
    ensures ok { IfOk result (λ r. IsDivision net.new r.quotient.items r.rest.items a.now divisor.now) }
{
    let mut rest = bits::repeated(net, net.constant(false), divisor.len())?;
    let divides = bits::nonzero(net, divisor)?;
    let mut quotient = Vec::new(net.alloc());
    for i in 0..a.len() {
        let step = divide_step(net, &rest, a[i], divisor, divides)?;
        quotient.push(step.bit)?;
        rest = step.rest;
    }
    Ok(Division { quotient, rest })
}

/// The quotient and the remainder of the magnitudes of two signed words.
#[tactic(auto, using(crate::proofs::NumberLemmas::bound_laws))]
fn divide_magnitudes(net: &mut Net, a: &[Gate], b: &[Gate]) -> Result<Division, OutOfMemory>
    requires some { 0 < length a.now }
    requires same { length a.now ≡ length b.now }
    requires a { top a.now ≤ length net.old }
    requires b { top b.now ≤ length net.old }
    ensures grown { Grown net.old net.new }
    ensures ok { IfOk result (λ r. IsDivisionOfMagnitudes net.new r.quotient.items r.rest.items a.now b.now) }
{
    let dividend = adding::negated(net, a, a[0])?;
    let divisor = adding::negated(net, b, b[0])?;
    divide(net, &dividend, &divisor)
}

/// The quotient of two signed words, rounded toward zero; 0 for a zero divisor.
#[tactic(auto, using(crate::proofs::NumberLemmas::bound_laws))]
pub fn quotient_signed(net: &mut Net, a: &[Gate], b: &[Gate]) -> Result<Vec<Gate>, OutOfMemory>
    requires some { 0 < length a.now }
    requires same { length a.now ≡ length b.now }
    requires a { top a.now ≤ length net.old }
    requires b { top b.now ≤ length net.old }
    ensures grown { Grown net.old net.new }
    ensures ok { IfOk result (λ r. Spells net.new r.items (length a.now) (λ v. signed_quotient (length a.now) (number v a.now) (number v b.now))) }
{
    let minus = net.xor(a[0], b[0])?;
    let division = divide_magnitudes(net, a, b)?;
    adding::negated(net, &division.quotient, minus)
}

/// The remainder that goes with that quotient, with the sign of the dividend; the dividend for a zero divisor.
#[tactic(auto, using(crate::proofs::NumberLemmas::bound_laws))]
pub fn remainder_signed(net: &mut Net, a: &[Gate], b: &[Gate]) -> Result<Vec<Gate>, OutOfMemory>
    requires some { 0 < length a.now }
    requires same { length a.now ≡ length b.now }
    requires a { top a.now ≤ length net.old }
    requires b { top b.now ≤ length net.old }
    ensures grown { Grown net.old net.new }
    ensures ok { IfOk result (λ r. Spells net.new r.items (length a.now) (λ v. signed_remainder (length a.now) (number v a.now) (number v b.now))) }
{
    let division = divide_magnitudes(net, a, b)?;
    adding::negated(net, &division.rest, a[0])
}
