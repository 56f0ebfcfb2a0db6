//! What operators make of two numbers of one width (C11 6.5.5 to 6.5.14), and which numbers they take.

ghost use Rattle.std.specs.Prelude.{◌≡◌, ℕ, ◌<◌, ◌≤◌, ◌%◌, ◌-◌, ◌^◌, ◌&&◌, ◌||◌, not, false, true, nat_eq, nat_lt, length, IfOk};
ghost use Rattle.bit_net.specs.Runs.{Gives, Grown};
ghost use Rattle.bit_words.specs.Number.{number, top};
ghost use Rattle.bit_words.specs.Spells.{Spells};
ghost use Rattle.sc_tree.specs.declared.op.BinaryOp.TheVariants as kind;
ghost use Rattle.sc_typed.specs.Arith.{divides, is_less};
ghost use Rattle.gate_values.specs.Operators.{IsComputed, IsTaken, IsTested, holds, is_shift, is_test};

use crate::words::{ones, width};
use bit_net::{Gate, Net, OutOfMemory};
use bit_words::{
    Word, add, and_words, constant, convert, div_s, div_u, equal, is_zero, less_s, less_u, mul,
    of_gate, or_words, rem_s, rem_u, shl, shr_s, shr_u, sub, xor_words,
};
use sc_tree::op::BinaryOp;

/// Holds where the operator takes the two numbers: a division is one, and a shift count is below the width of what is
/// shifted. A count may be of another width.
#[tactic(auto, using(crate::proofs::Taking::taken_gate))]
pub fn taken(
    net: &mut Net,
    op: BinaryOp,
    signed: bool,
    a: &Word,
    b: &Word,
) -> Result<Gate, OutOfMemory>
    requires some { 0 < length a.now.bits.items }
    requires small { length a.now.bits.items ≤ 64 }
    requires counts { 0 < length b.now.bits.items }
    requires count { length b.now.bits.items ≤ 64 }
    requires same { is_shift op ≡ false → length a.now.bits.items ≡ length b.now.bits.items }
    requires a { top a.now.bits.items ≤ length net.old }
    requires b { top b.now.bits.items ≤ length net.old }
    ensures grown { Grown net.old net.new }
    ensures ok { IfOk result (λ r. IsTaken net.new op signed a.now.bits.items b.now.bits.items r.at) }
{
    match op {
        BinaryOp::Div => is_division(net, signed, a, b),
        BinaryOp::Rem => is_division(net, signed, a, b),
        BinaryOp::ShiftLeft => is_count(net, a.bits.len(), b),
        BinaryOp::ShiftRight => is_count(net, a.bits.len(), b),
        BinaryOp::Mul
        | BinaryOp::Add
        | BinaryOp::Sub
        | BinaryOp::Less
        | BinaryOp::Greater
        | BinaryOp::LessEqual
        | BinaryOp::GreaterEqual
        | BinaryOp::Equal
        | BinaryOp::NotEqual
        | BinaryOp::BitAnd
        | BinaryOp::BitXor
        | BinaryOp::BitOr
        | BinaryOp::And
        | BinaryOp::Or => Ok(net.constant(true)),
    }
}

// 2 to that number.
fn power(bits: u32) -> u64
    requires { bits < 64 }
    ensures { result ≡ 2 ^ bits }
{
    1u64 << bits
}

// The least signed number.
#[tactic(auto, using(crate::proofs::Taking::least_word))]
fn least(net: &Net, width: usize) -> Result<Word, OutOfMemory>
    requires some { 0 < width }
    requires small { width ≤ 64 }
    ensures { IfOk result (λ r. Spells net.now r.bits.items width (λ v. 2 ^ (width - 1))) }
{
    let made = constant(net, power(width as u32 - 1), width)?;
    Ok(made)
}

// Holds where the division of two numbers is one: not by 0, and not of the least signed number by -1.
#[tactic(auto, using(crate::proofs::Taking::division_gate))]
fn is_division(net: &mut Net, signed: bool, a: &Word, b: &Word) -> Result<Gate, OutOfMemory>
    requires some { 0 < length a.now.bits.items }
    requires small { length a.now.bits.items ≤ 64 }
    requires same { length a.now.bits.items ≡ length b.now.bits.items }
    requires a { top a.now.bits.items ≤ length net.old }
    requires b { top b.now.bits.items ≤ length net.old }
    ensures grown { Grown net.old net.new }
    ensures div { IfOk result (λ r. IsTaken net.new kind.Div signed a.now.bits.items b.now.bits.items r.at) }
    ensures rem { IfOk result (λ r. IsTaken net.new kind.Rem signed a.now.bits.items b.now.bits.items r.at) }
{
    if signed {
        let divides = divides_signed(net, a, b)?;
        Ok(divides)
    } else {
        let divides = some(net, b)?;
        Ok(divides)
    }
}

// Holds where a signed division of two numbers is one.
fn divides_signed(net: &mut Net, a: &Word, b: &Word) -> Result<Gate, OutOfMemory>
    requires some { 0 < length a.now.bits.items }
    requires small { length a.now.bits.items ≤ 64 }
    requires same { length a.now.bits.items ≡ length b.now.bits.items }
    requires a { top a.now.bits.items ≤ length net.old }
    requires b { top b.now.bits.items ≤ length net.old }
    ensures grown { Grown net.old net.new }
    ensures ok { IfOk result (λ r. Gives net.new r.at (λ choice v. divides (length a.now.bits.items) true (number v a.now.bits.items) (number v b.now.bits.items))) }
{
    let over = passes(net, a, b)?;
    let fits = net.not(over)?;
    let some = some(net, b)?;
    let divides = net.and(some, fits)?;
    Ok(divides)
}

// Holds where the quotient of two signed numbers passes the greatest one: of the least one and -1.
fn passes(net: &mut Net, a: &Word, b: &Word) -> Result<Gate, OutOfMemory>
    requires some { 0 < length a.now.bits.items }
    requires small { length a.now.bits.items ≤ 64 }
    requires same { length a.now.bits.items ≡ length b.now.bits.items }
    requires a { top a.now.bits.items ≤ length net.old }
    requires b { top b.now.bits.items ≤ length net.old }
    ensures grown { Grown net.old net.new }
    ensures ok { IfOk result (λ r. Gives net.new r.at (λ choice v. nat_eq (number v a.now.bits.items) (2 ^ (length a.now.bits.items - 1))
        && nat_eq (number v b.now.bits.items) (2 ^ length a.now.bits.items - 1))) }
{
    let n = width(a);
    let least = least(net, n)?;
    let all = ones(net, n)?;
    let of_least = equal(net, a, &least)?;
    let by_all = equal(net, b, &all)?;
    let both = net.and(of_least, by_all)?;
    Ok(both)
}

// Holds where a number is below a width.
#[tactic(auto, using(crate::proofs::Taking::count_gate))]
fn is_count(net: &mut Net, width: usize, b: &Word) -> Result<Gate, OutOfMemory>
    requires width { width ≤ 64 }
    requires some { 0 < length b.now.bits.items }
    requires small { length b.now.bits.items ≤ 64 }
    requires b { top b.now.bits.items ≤ length net.old }
    ensures grown { Grown net.old net.new }
    ensures ok { IfOk result (λ r. Gives net.new r.at (λ choice v. nat_lt (number v b.now.bits.items) width)) }
{
    let wide = convert(net, b, false, 64)?;
    let bound = constant(net, width as u64, 64)?;
    let low = less_u(net, &wide, &bound)?;
    Ok(low)
}

/// What the operator makes of two numbers of one width that it takes, as a number of that many bits: of the width of the
/// operands, or the truth of a test.
#[tactic(auto, using(crate::proofs::Computing::test_word, crate::proofs::Computing::of_width))]
pub fn computed(
    net: &mut Net,
    op: BinaryOp,
    signed: bool,
    bits: u32,
    a: &Word,
    b: &Word,
) -> Result<Word, OutOfMemory>
    requires some { 0 < length a.now.bits.items }
    requires small { length a.now.bits.items ≤ 64 }
    requires same { length a.now.bits.items ≡ length b.now.bits.items }
    requires bits { 0 < bits }
    requires keeps { is_test op ≡ false → bits ≡ length a.now.bits.items }
    requires a { top a.now.bits.items ≤ length net.old }
    requires b { top b.now.bits.items ≤ length net.old }
    ensures grown { Grown net.old net.new }
    ensures ok { IfOk result (λ r. IsComputed net.new op signed bits a.now.bits.items b.now.bits.items r.bits.items) }
{
    if is_test(op) {
        let test = tested(net, op, signed, a, b)?;
        let made = of_gate(net, test, bits as usize)?;
        Ok(made)
    } else {
        let made = arithmetic(net, op, signed, a, b)?;
        Ok(made)
    }
}

// Whether the operator gives the truth of a test.
fn is_test(op: BinaryOp) -> bool
    ensures { result ≡ is_test op }
{
    match op {
        BinaryOp::Less
        | BinaryOp::Greater
        | BinaryOp::LessEqual
        | BinaryOp::GreaterEqual
        | BinaryOp::Equal
        | BinaryOp::NotEqual
        | BinaryOp::And
        | BinaryOp::Or => true,
        BinaryOp::Mul
        | BinaryOp::Div
        | BinaryOp::Rem
        | BinaryOp::Add
        | BinaryOp::Sub
        | BinaryOp::ShiftLeft
        | BinaryOp::ShiftRight
        | BinaryOp::BitAnd
        | BinaryOp::BitXor
        | BinaryOp::BitOr => false,
    }
}

// What an operator that gives no truth makes of two numbers that it takes.
#[tactic(auto, using(crate::proofs::Computing::made_words))]
fn arithmetic(
    net: &mut Net,
    op: BinaryOp,
    signed: bool,
    a: &Word,
    b: &Word,
) -> Result<Word, OutOfMemory>
    requires op { is_test op ≡ false }
    requires some { 0 < length a.now.bits.items }
    requires small { length a.now.bits.items ≤ 64 }
    requires same { length a.now.bits.items ≡ length b.now.bits.items }
    requires a { top a.now.bits.items ≤ length net.old }
    requires b { top b.now.bits.items ≤ length net.old }
    ensures grown { Grown net.old net.new }
    ensures ok { IfOk result (λ r. IsComputed net.new op signed (length a.now.bits.items) a.now.bits.items b.now.bits.items r.bits.items) }
{
    match op {
        BinaryOp::Div => quotient(net, signed, a, b),
        BinaryOp::Rem => remainder(net, signed, a, b),
        BinaryOp::ShiftRight => shifted_right(net, signed, a, b),
        BinaryOp::Mul => {
            let made = mul(net, a, b)?;
            Ok(made)
        }
        BinaryOp::Add => {
            let made = add(net, a, b)?;
            Ok(made)
        }
        BinaryOp::Sub => {
            let made = sub(net, a, b)?;
            Ok(made)
        }
        BinaryOp::ShiftLeft => {
            let made = shl(net, a, b)?;
            Ok(made)
        }
        BinaryOp::BitAnd => {
            let made = and_words(net, a, b)?;
            Ok(made)
        }
        BinaryOp::BitXor => {
            let made = xor_words(net, a, b)?;
            Ok(made)
        }
        BinaryOp::BitOr => {
            let made = or_words(net, a, b)?;
            Ok(made)
        }
        BinaryOp::Less
        | BinaryOp::Greater
        | BinaryOp::LessEqual
        | BinaryOp::GreaterEqual
        | BinaryOp::Equal
        | BinaryOp::NotEqual
        | BinaryOp::And
        | BinaryOp::Or => {
            let made = a.try_clone(net)?;
            Ok(made)
        }
    }
}

// The quotient of two numbers, rounded toward zero.
#[tactic(auto, using(crate::proofs::Computing::quotient_word))]
fn quotient(net: &mut Net, signed: bool, a: &Word, b: &Word) -> Result<Word, OutOfMemory>
    requires some { 0 < length a.now.bits.items }
    requires same { length a.now.bits.items ≡ length b.now.bits.items }
    requires a { top a.now.bits.items ≤ length net.old }
    requires b { top b.now.bits.items ≤ length net.old }
    ensures grown { Grown net.old net.new }
    ensures ok { IfOk result (λ r. IsComputed net.new kind.Div signed (length a.now.bits.items) a.now.bits.items b.now.bits.items r.bits.items) }
{
    if signed {
        let made = div_s(net, a, b)?;
        Ok(made)
    } else {
        let made = div_u(net, a, b)?;
        Ok(made)
    }
}

// The remainder of two numbers, with the sign of the left one.
#[tactic(auto, using(crate::proofs::Computing::remainder_word))]
fn remainder(net: &mut Net, signed: bool, a: &Word, b: &Word) -> Result<Word, OutOfMemory>
    requires some { 0 < length a.now.bits.items }
    requires same { length a.now.bits.items ≡ length b.now.bits.items }
    requires a { top a.now.bits.items ≤ length net.old }
    requires b { top b.now.bits.items ≤ length net.old }
    ensures grown { Grown net.old net.new }
    ensures ok { IfOk result (λ r. IsComputed net.new kind.Rem signed (length a.now.bits.items) a.now.bits.items b.now.bits.items r.bits.items) }
{
    if signed {
        let made = rem_s(net, a, b)?;
        Ok(made)
    } else {
        let made = rem_u(net, a, b)?;
        Ok(made)
    }
}

// A number moved to lower places, with copies of its sign bit above it where it is signed.
#[tactic(auto, using(crate::proofs::Computing::shifted_word))]
fn shifted_right(net: &mut Net, signed: bool, a: &Word, b: &Word) -> Result<Word, OutOfMemory>
    requires some { 0 < length a.now.bits.items }
    requires small { length a.now.bits.items ≤ 64 }
    requires same { length a.now.bits.items ≡ length b.now.bits.items }
    requires a { top a.now.bits.items ≤ length net.old }
    requires b { top b.now.bits.items ≤ length net.old }
    ensures grown { Grown net.old net.new }
    ensures ok { IfOk result (λ r. IsComputed net.new kind.ShiftRight signed (length a.now.bits.items) a.now.bits.items b.now.bits.items r.bits.items) }
{
    if signed {
        let made = shr_s(net, a, b)?;
        Ok(made)
    } else {
        let made = shr_u(net, a, b)?;
        Ok(made)
    }
}

// Holds where the left number is below the right one.
#[tactic(auto, using(crate::proofs::Computing::less_gate))]
fn less(net: &mut Net, signed: bool, a: &Word, b: &Word) -> Result<Gate, OutOfMemory>
    requires some { 0 < length a.now.bits.items }
    requires same { length a.now.bits.items ≡ length b.now.bits.items }
    requires a { top a.now.bits.items ≤ length net.old }
    requires b { top b.now.bits.items ≤ length net.old }
    ensures grown { Grown net.old net.new }
    ensures ok { IfOk result (λ r. Gives net.new r.at (λ choice v. is_less (length a.now.bits.items) signed (number v a.now.bits.items) (number v b.now.bits.items))) }
{
    if signed {
        let low = less_s(net, a, b)?;
        Ok(low)
    } else {
        let low = less_u(net, a, b)?;
        Ok(low)
    }
}

// Holds where the left number is not below the right one.
fn not_less(net: &mut Net, signed: bool, a: &Word, b: &Word) -> Result<Gate, OutOfMemory>
    requires some { 0 < length a.now.bits.items }
    requires same { length a.now.bits.items ≡ length b.now.bits.items }
    requires a { top a.now.bits.items ≤ length net.old }
    requires b { top b.now.bits.items ≤ length net.old }
    ensures grown { Grown net.old net.new }
    ensures ok { IfOk result (λ r. Gives net.new r.at (λ choice v. not (is_less (length a.now.bits.items) signed (number v a.now.bits.items) (number v b.now.bits.items)))) }
{
    let low = less(net, signed, a, b)?;
    let not_low = net.not(low)?;
    Ok(not_low)
}

// Holds where the two numbers are not equal.
fn not_equal(net: &mut Net, a: &Word, b: &Word) -> Result<Gate, OutOfMemory>
    requires same { length a.now.bits.items ≡ length b.now.bits.items }
    requires a { top a.now.bits.items ≤ length net.old }
    requires b { top b.now.bits.items ≤ length net.old }
    ensures grown { Grown net.old net.new }
    ensures ok { IfOk result (λ r. Gives net.new r.at (λ choice v. not (nat_eq (number v a.now.bits.items) (number v b.now.bits.items)))) }
{
    let same = equal(net, a, b)?;
    let differ = net.not(same)?;
    Ok(differ)
}

// Holds where the number is not 0.
fn some(net: &mut Net, a: &Word) -> Result<Gate, OutOfMemory>
    requires a { top a.now.bits.items ≤ length net.old }
    ensures grown { Grown net.old net.new }
    ensures ok { IfOk result (λ r. Gives net.new r.at (λ choice v. not (nat_eq (number v a.now.bits.items) 0))) }
{
    let zero = is_zero(net, a)?;
    let not_zero = net.not(zero)?;
    Ok(not_zero)
}

// Holds where the test of the operator does.
#[tactic(auto, using(crate::proofs::Computing::tested_gate))]
fn tested(
    net: &mut Net,
    op: BinaryOp,
    signed: bool,
    a: &Word,
    b: &Word,
) -> Result<Gate, OutOfMemory>
    requires some { 0 < length a.now.bits.items }
    requires same { length a.now.bits.items ≡ length b.now.bits.items }
    requires a { top a.now.bits.items ≤ length net.old }
    requires b { top b.now.bits.items ≤ length net.old }
    ensures grown { Grown net.old net.new }
    ensures ok { IfOk result (λ r. IsTested net.new op signed a.now.bits.items b.now.bits.items r.at) }
{
    match op {
        BinaryOp::Less => {
            let test = less(net, signed, a, b)?;
            Ok(test)
        }
        BinaryOp::Greater => {
            let test = less(net, signed, b, a)?;
            Ok(test)
        }
        BinaryOp::LessEqual => {
            let test = not_less(net, signed, b, a)?;
            Ok(test)
        }
        BinaryOp::GreaterEqual => {
            let test = not_less(net, signed, a, b)?;
            Ok(test)
        }
        BinaryOp::Equal => {
            let test = equal(net, a, b)?;
            Ok(test)
        }
        BinaryOp::NotEqual => {
            let test = not_equal(net, a, b)?;
            Ok(test)
        }
        BinaryOp::And => {
            let left = some(net, a)?;
            let right = some(net, b)?;
            let both = net.and(left, right)?;
            Ok(both)
        }
        BinaryOp::Or => {
            let left = some(net, a)?;
            let right = some(net, b)?;
            let either = net.or(left, right)?;
            Ok(either)
        }
        BinaryOp::Mul
        | BinaryOp::Div
        | BinaryOp::Rem
        | BinaryOp::Add
        | BinaryOp::Sub
        | BinaryOp::ShiftLeft
        | BinaryOp::ShiftRight
        | BinaryOp::BitAnd
        | BinaryOp::BitXor
        | BinaryOp::BitOr => Ok(net.constant(false)),
    }
}
