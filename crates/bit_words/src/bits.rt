//! Circuits that go over the bits of words one by one: inverting, choosing, bitwise operators, tests.
ghost use Rattle.std.specs.Prelude.{◌≡◌, ℕ, ◌+◌, ◌-◌, ◌^◌, ◌<◌, ◌≤◌, not, ◌&&◌, if◌then◌else◌};
ghost use Rattle.std.specs.Prelude.{nat_eq, nat_lt, int_lt, length, IfOk};
ghost use Rattle.bit_net.specs.Value.{xor};
ghost use Rattle.bit_net.specs.Runs.{Grown, Gives};
ghost use Rattle.bit_words.specs.Number.{number, top, signed};
ghost use Rattle.bit_words.specs.Parts.{bit_of, number_of};
ghost use Rattle.bit_words.specs.Spells.{Spells};

use bit_net::{Gate, Net, OutOfMemory};

/// The bitwise operators.
#[derive(Clone, Copy)]
pub enum Bitwise {
    And,
    Or,
    Xor,
}

/// `count` copies of a gate.
#[tactic(auto, using(crate::proofs::NumberLemmas::bound_laws, crate::proofs::NumberLemmas::number_replicate))]
pub fn repeated(net: &Net, gate: Gate, count: usize) -> Result<Vec<Gate>, OutOfMemory>
    requires { gate.at < length net.now }
    ensures { IfOk result (λ r. Spells net.now r.items count (λ v. if v gate.at then 2 ^ count - 1 else 0)) }
{
    let bits = vec![in net.alloc(); gate; count]?;
    Ok(bits)
}

/// The word with every bit inverted where `by` holds, else the word itself.
#[tactic(auto, using(crate::proofs::NumberLemmas::bound_laws))]
pub fn flipped(net: &mut Net, a: &[Gate], by: Gate) -> Result<Vec<Gate>, OutOfMemory>
    requires a { top a.now ≤ length net.old }
    requires by { by.at < length net.old }
    ensures grown { Grown net.old net.new }
    ensures ok { IfOk result (λ r. Spells net.new r.items (length a.now)
        (λ v. if v by.at then 2 ^ length a.now - 1 - number v a.now else number v a.now)) }
{
    let mut bits = Vec::new(net.alloc());
    for i in 0..a.len() {
        let bit = net.xor(a[i], by)?;
        bits.push(bit)?;
    }
    Ok(bits)
}

/// The word `a` where `c` holds, else the word `b`.
#[tactic(auto, using(crate::proofs::NumberLemmas::bound_laws))]
pub fn select(net: &mut Net, c: Gate, a: &[Gate], b: &[Gate]) -> Result<Vec<Gate>, OutOfMemory>
    requires same { length a.now ≡ length b.now }
    requires c { c.at < length net.old }
    requires a { top a.now ≤ length net.old }
    requires b { top b.now ≤ length net.old }
    ensures grown { Grown net.old net.new }
    ensures ok { IfOk result (λ r. Spells net.new r.items (length a.now) (λ v. if v c.at then number v a.now else number v b.now)) }
{
    let mut bits = Vec::new(net.alloc());
    for i in 0..a.len() {
        let bit = net.mux(c, a[i], b[i])?;
        bits.push(bit)?;
    }
    Ok(bits)
}

/// A bitwise operator on two gates.
pub fn apply(net: &mut Net, operator: Bitwise, a: Gate, b: Gate) -> Result<Gate, OutOfMemory>
    requires a { a.at < length net.old }
    requires b { b.at < length net.old }
    ensures grown { Grown net.old net.new }
    ensures ok { IfOk result (λ r. Gives net.new r.at (λ choice v. bit_of operator (v a.at) (v b.at))) }
{
    match operator {
        Bitwise::And => net.and(a, b),
        Bitwise::Or => net.or(a, b),
        Bitwise::Xor => net.xor(a, b),
    }
}

/// A bitwise operator on two words (C11 6.5.10 to 6.5.12).
#[tactic(auto, using(crate::proofs::NumberLemmas::bound_laws))]
pub fn combine(
    net: &mut Net,
    operator: Bitwise,
    a: &[Gate],
    b: &[Gate],
) -> Result<Vec<Gate>, OutOfMemory>
    requires same { length a.now ≡ length b.now }
    requires a { top a.now ≤ length net.old }
    requires b { top b.now ≤ length net.old }
    ensures grown { Grown net.old net.new }
    ensures ok { IfOk result (λ r. Spells net.new r.items (length a.now) (λ v. number_of operator (number v a.now) (number v b.now))) }
{
    let mut bits = Vec::new(net.alloc());
    for i in 0..a.len() {
        let bit = apply(net, operator, a[i], b[i])?;
        bits.push(bit)?;
    }
    Ok(bits)
}

/// Holds where `all` holds and the two gates are equal.
fn and_equal(net: &mut Net, all: Gate, a: Gate, b: Gate) -> Result<Gate, OutOfMemory>
    requires all { all.at < length net.old }
    requires a { a.at < length net.old }
    requires b { b.at < length net.old }
    ensures grown { Grown net.old net.new }
    ensures ok { IfOk result (λ r. Gives net.new r.at (λ choice v. v all.at && not (xor (v a.at) (v b.at)))) }
{
    let differ = net.xor(a, b)?;
    let same = net.not(differ)?;
    net.and(all, same)
}

/// Holds where the word is not zero: where some bit of it holds.
#[tactic(auto, using(crate::proofs::NumberLemmas::bound_laws))]
pub fn nonzero(net: &mut Net, a: &[Gate]) -> Result<Gate, OutOfMemory>
    requires { top a.now ≤ length net.old }
    ensures grown { Grown net.old net.new }
    ensures ok { IfOk result (λ r. Gives net.new r.at (λ choice v. not (nat_eq (number v a.now) 0))) }
{
    let mut some = net.constant(false);
    for i in 0..a.len() {
        let more = net.or(some, a[i])?;
        some = more;
    }
    Ok(some)
}

/// Holds where the word is zero.
pub fn zero(net: &mut Net, a: &[Gate]) -> Result<Gate, OutOfMemory>
    requires { top a.now ≤ length net.old }
    ensures grown { Grown net.old net.new }
    ensures ok { IfOk result (λ r. Gives net.new r.at (λ choice v. nat_eq (number v a.now) 0)) }
{
    let some = nonzero(net, a)?;
    net.not(some)
}

/// Holds where the two words are equal.
#[tactic(auto, using(crate::proofs::NumberLemmas::bound_laws))]
pub fn equal(net: &mut Net, a: &[Gate], b: &[Gate]) -> Result<Gate, OutOfMemory>
    requires same { length a.now ≡ length b.now }
    requires a { top a.now ≤ length net.old }
    requires b { top b.now ≤ length net.old }
    ensures grown { Grown net.old net.new }
    ensures ok { IfOk result (λ r. Gives net.new r.at (λ choice v. nat_eq (number v a.now) (number v b.now))) }
{
    let mut all = net.constant(true);
    for i in 0..a.len() {
        let more = and_equal(net, all, a[i], b[i])?;
        all = more;
    }
    Ok(all)
}

/// Where the two gates differ, the second; else `less`: one bit more of a comparison.
pub fn less_bit(net: &mut Net, a: Gate, b: Gate, less: Gate) -> Result<Gate, OutOfMemory>
    requires a { a.at < length net.old }
    requires b { b.at < length net.old }
    requires less { less.at < length net.old }
    ensures grown { Grown net.old net.new }
    ensures ok { IfOk result (λ r. Gives net.new r.at (λ choice v. if xor (v a.at) (v b.at) then v b.at else v less.at)) }
{
    let differ = net.xor(a, b)?;
    net.mux(differ, b, less)
}

/// Holds where the number of `a` is below that of `b`.
#[tactic(auto, using(crate::proofs::NumberLemmas::bound_laws))]
pub fn less(net: &mut Net, a: &[Gate], b: &[Gate]) -> Result<Gate, OutOfMemory>
    requires same { length a.now ≡ length b.now }
    requires a { top a.now ≤ length net.old }
    requires b { top b.now ≤ length net.old }
    ensures grown { Grown net.old net.new }
    ensures ok { IfOk result (λ r. Gives net.new r.at (λ choice v. nat_lt (number v a.now) (number v b.now))) }
{
    let mut less = net.constant(false);
    for i in 0..a.len() {
        let at = a.len() - 1 - i;
        let more = less_bit(net, a[at], b[at], less)?;
        less = more;
    }
    Ok(less)
}

/// Holds where the signed number of `a` is below that of `b`: the sign bits decide, the other way round, and else the bits below.
#[tactic(auto, using(crate::proofs::NumberLemmas::bound_laws))]
pub fn less_signed(net: &mut Net, a: &[Gate], b: &[Gate]) -> Result<Gate, OutOfMemory>
    requires some { 0 < length a.now }
    requires same { length a.now ≡ length b.now }
    requires a { top a.now ≤ length net.old }
    requires b { top b.now ≤ length net.old }
    ensures grown { Grown net.old net.new }
    ensures ok { IfOk result (λ r. Gives net.new r.at
        (λ choice v. int_lt (signed (length a.now) (number v a.now)) (signed (length a.now) (number v b.now)))) }
{
    let below = less(net, &a[1..], &b[1..])?;
    less_bit(net, b[0], a[0], below)
}
