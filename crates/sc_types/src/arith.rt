// Numbers of a fixed width (C11 6.2.6.2, 6.5). A number of n bits is below 2^n; one of a signed type
// stands in two's complement. Signed arithmetic wraps, and `>>` of a negative number copies its sign.

ghost use Rattle.std.specs.Prelude.{◌≡◌, ◌≢◌, ◌<◌, ◌≤◌, ◌≤ℤ◌, ◌^◌, ◌%◌, pos, neg_ℤ, int_div, int_rem, nat_lt, IsTrue, true};
ghost use Rattle.sc_tree.specs.declared.op.BinaryOp.TheVariants as op;
ghost use Rattle.sc_typed.specs.Types.{value_bits};
ghost use Rattle.sc_typed.specs.Arith as spec;

use crate::types::{has_sign, value_bits};
use sc_tree::ctype::{CType, Widths};
use sc_tree::op::{BinaryOp, UnaryOp};

// 2^bits.
fn power(bits: u32) -> u128
    requires { bits ≤ 64 }
    ensures value { result ≡ 2 ^ bits }
    ensures positive { 0 < result }
    ensures bound { result ≤ 2 ^ 64 }
{
    1u128 << bits
}

/// Whether a number is one of that many bits.
pub fn fits(bits: u32, n: u64) -> bool
    requires { bits ≤ 64 }
    ensures { result ≡ nat_lt n (2 ^ bits) }
{
    u128::from(n) < power(bits)
}

// The low bits of a number.
fn low(bits: u32, n: u128) -> u64
    requires { bits ≤ 64 }
    ensures value { result ≡ n % 2 ^ bits }
    ensures bound { result < 2 ^ bits }
{
    (n % power(bits)) as u64
}

/// The number that the bits of a signed type stand for.
pub fn signed(bits: u32, n: u64) -> i128
    requires { bits ≤ 64 }
    ensures value { result ≡ spec.signed bits n }
    ensures least { neg_ℤ (pos (2 ^ 64)) ≤ℤ result }
    ensures greatest { result ≤ℤ pos (2 ^ 64) }
{
    if u128::from(n) < power(bits.saturating_sub(1)) {
        i128::from(n)
    } else {
        i128::from(n) - power(bits) as i128
    }
}

// The low bits of a number (C11 6.3.1.3).
pub(crate) fn wrapped(bits: u32, n: i128) -> u64
    requires { bits ≤ 64 }
    ensures value { result ≡ spec.wrapped bits n }
    ensures bound { result < 2 ^ bits }
{
    n.rem_euclid(power(bits) as i128) as u64
}

/// The truth of a test as an `int`: 0 or 1.
pub fn truth(test: bool) -> u64
    ensures value { result ≡ spec.truth test }
    ensures bound { result ≤ 1 }
{
    if test { 1 } else { 0 }
}

// The quotient, rounded toward zero; 0 for a zero divisor.
fn divided(x: i128, y: i128) -> i128
    requires least { neg_ℤ (pos (2 ^ 64)) ≤ℤ x }
    requires greatest { x ≤ℤ pos (2 ^ 64) }
    ensures { result ≡ int_div x y }
{
    if y == 0 { 0 } else { x / y }
}

// The remainder, with the sign of the dividend; the dividend for a zero divisor.
fn rest(x: i128, y: i128) -> i128
    requires least { neg_ℤ (pos (2 ^ 64)) ≤ℤ x }
    requires greatest { x ≤ℤ pos (2 ^ 64) }
    ensures { result ≡ int_rem x y }
{
    if y == 0 { x } else { x % y }
}

// A number divided by 2^count and rounded down.
fn moved_down(x: i128, count: u64) -> i128
    requires { count < 64 }
    ensures { result ≡ spec.moved_down x count }
{
    x >> count
}

fn quotient(bits: u32, sign: bool, a: u64, b: u64) -> u64
    requires width { bits ≤ 64 }
    requires divisor { b ≢ 0 }
    ensures value { result ≡ spec.quotient bits sign a b }
    ensures bound { a < 2 ^ bits → result < 2 ^ bits }
{
    if sign {
        wrapped(bits, divided(signed(bits, a), signed(bits, b)))
    } else {
        a / b
    }
}

fn remainder(bits: u32, sign: bool, a: u64, b: u64) -> u64
    requires width { bits ≤ 64 }
    requires divisor { b ≢ 0 }
    ensures value { result ≡ spec.remainder bits sign a b }
    ensures bound { a < 2 ^ bits → result < 2 ^ bits }
{
    if sign {
        wrapped(bits, rest(signed(bits, a), signed(bits, b)))
    } else {
        a % b
    }
}

fn shifted_right(bits: u32, sign: bool, a: u64, b: u64) -> u64
    requires width { bits ≤ 64 }
    requires count { b < bits }
    ensures value { result ≡ spec.shifted_right bits sign a b }
    ensures bound { a < 2 ^ bits → result < 2 ^ bits }
{
    if sign {
        wrapped(bits, moved_down(signed(bits, a), b))
    } else {
        a >> b
    }
}

fn shifted_left(bits: u32, a: u64, b: u64) -> u64
    requires width { bits ≤ 64 }
    requires count { b < bits }
    ensures value { result ≡ spec.computed op.ShiftLeft bits true a b }
    ensures bound { result < 2 ^ bits }
{
    low(bits, u128::from(a) << b)
}

// Whether a number is below another.
fn is_less(bits: u32, sign: bool, a: u64, b: u64) -> bool
    requires { bits ≤ 64 }
    ensures { result ≡ spec.is_less bits sign a b }
{
    if sign {
        signed(bits, a) < signed(bits, b)
    } else {
        a < b
    }
}

// Whether a division is one: the divisor is not 0, and it is not the least signed number by -1.
fn divides(bits: u32, sign: bool, a: u64, b: u64) -> bool
    requires { bits ≤ 64 }
    ensures { result ≡ spec.divides bits sign a b }
{
    if sign {
        b != 0
            && !(u128::from(a) == power(bits.saturating_sub(1)) && u128::from(b) == power(bits) - 1)
    } else {
        b != 0
    }
}

/// Whether an operator takes two numbers of that many bits: no divisor is 0, no quotient is too large,
/// and each shift count is below the width (C11 6.5.5, 6.5.7). A shift count may be of another width.
pub fn takes(op: BinaryOp, bits: u32, sign: bool, a: u64, b: u64) -> bool
    requires { bits ≤ 64 }
    ensures { result ≡ spec.takes op bits sign a b }
{
    match op {
        BinaryOp::Div | BinaryOp::Rem => divides(bits, sign, a, b),
        BinaryOp::ShiftLeft | BinaryOp::ShiftRight => b < u64::from(bits),
        BinaryOp::Or
        | BinaryOp::And
        | BinaryOp::BitOr
        | BinaryOp::BitXor
        | BinaryOp::BitAnd
        | BinaryOp::Equal
        | BinaryOp::NotEqual
        | BinaryOp::Less
        | BinaryOp::Greater
        | BinaryOp::LessEqual
        | BinaryOp::GreaterEqual
        | BinaryOp::Add
        | BinaryOp::Sub
        | BinaryOp::Mul => true,
    }
}

/// What an operator makes of two numbers that it takes (C11 6.5.5 to 6.5.14). Of two numbers of that
/// many bits the result is such a number too; a test gives 0 or 1.
#[tactic(auto, using(crate::proofs::Numbers::truth_fits, crate::proofs::Numbers::and_fits, std::proofs::lemmas::Nat::or_lt, std::proofs::lemmas::Nat::xor_lt))]
pub fn computed(op: BinaryOp, bits: u32, sign: bool, a: u64, b: u64) -> u64
    requires width { bits ≤ 64 }
    requires taken { IsTrue (spec.takes op bits sign a b) }
    ensures value { result ≡ spec.computed op bits sign a b }
    ensures bound { 1 ≤ bits → a < 2 ^ bits → b < 2 ^ bits → result < 2 ^ bits }
{
    match op {
        BinaryOp::Mul => low(bits, u128::from(a) * u128::from(b)),
        BinaryOp::Div => quotient(bits, sign, a, b),
        BinaryOp::Rem => remainder(bits, sign, a, b),
        BinaryOp::Add => low(bits, u128::from(a) + u128::from(b)),
        BinaryOp::Sub => low(
            bits,
            (power(bits) + u128::from(a)).saturating_sub(u128::from(b)),
        ),
        BinaryOp::ShiftLeft => shifted_left(bits, a, b),
        BinaryOp::ShiftRight => shifted_right(bits, sign, a, b),
        BinaryOp::BitAnd => a & b,
        BinaryOp::BitXor => a ^ b,
        BinaryOp::BitOr => a | b,
        BinaryOp::Less => truth(is_less(bits, sign, a, b)),
        BinaryOp::Greater => truth(is_less(bits, sign, b, a)),
        BinaryOp::LessEqual => truth(!is_less(bits, sign, b, a)),
        BinaryOp::GreaterEqual => truth(!is_less(bits, sign, a, b)),
        BinaryOp::Equal => truth(a == b),
        BinaryOp::NotEqual => truth(a != b),
        BinaryOp::And => truth(a != 0 && b != 0),
        BinaryOp::Or => truth(a != 0 || b != 0),
    }
}

/// What `+`, `-`, `~` and `!` make of a number (C11 6.5.3.3). Of a number of that many bits the result
/// is such a number too. (`&` and `*` leave it.)
#[tactic(auto, using(crate::proofs::Numbers::truth_fits))]
pub fn of_one(op: UnaryOp, bits: u32, a: u64) -> u64
    requires width { bits ≤ 64 }
    ensures value { result ≡ spec.of_one op bits a }
    ensures bound { 1 ≤ bits → a < 2 ^ bits → result < 2 ^ bits }
{
    match op {
        UnaryOp::Plus | UnaryOp::Address | UnaryOp::Deref => a,
        UnaryOp::Minus => low(bits, power(bits).saturating_sub(u128::from(a))),
        UnaryOp::Complement => (power(bits) - 1).saturating_sub(u128::from(a)) as u64,
        UnaryOp::Not => truth(a == 0),
    }
}

/// A number of `from` bits, with a sign or not, as one of `bits` bits: its low bits (C11 6.3.1.3).
pub fn resized(sign: bool, from: u32, bits: u32, n: u64) -> u64
    requires before { from ≤ 64 }
    requires after { bits ≤ 64 }
    ensures value { result ≡ spec.resized sign from bits n }
    ensures bound { result < 2 ^ bits }
{
    if sign {
        wrapped(bits, signed(from, n))
    } else {
        low(bits, u128::from(n))
    }
}

/// A number of an integer type, converted to an integer type (C11 6.3.1.2, 6.3.1.3).
pub fn converted(w: Widths, from: &CType, to: &CType, n: u64) -> u64
    ensures value { result ≡ spec.converted w from.now to.now n }
    ensures bound { result < 2 ^ value_bits w to.now }
{
    match to {
        CType::Bool => truth(n != 0),
        _ => resized(has_sign(from), value_bits(w, from), value_bits(w, to), n),
    }
}

/// The number that the bits of a value of an integer type stand for.
pub fn number(w: Widths, t: &CType, n: u64) -> i128
    ensures { result ≡ spec.number w t.now n }
{
    if has_sign(t) {
        signed(value_bits(w, t), n)
    } else {
        i128::from(n)
    }
}
