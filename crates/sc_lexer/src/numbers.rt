//! Integer constants (C11 6.4.4.1), and how far a number reaches (C11 6.4.8).
#![tactic(auto)]

ghost use Rattle.std.specs.Prelude.{◌≡◌, ◌+◌, ◌*◌, ◌^◌, ◌<◌, ◌≤◌, IfSome, length};
ghost use Rattle.sc_tree.specs.Numbers.{digit_value, fitting, int_token, integer, integer_of, number_from, number_kind};
ghost use Rattle.sc_tree.specs.Pieces.{goes_on, is_digit_front, number_len, number_tail};

use crate::bytes::{
    decimal_digits, hexadecimal_digits, is_exponent, is_number_byte, is_sign, octal_digits,
};
use crate::tables::{begins, suffix_of};
use sc_tree::{IntToken, Kind, Suffix};

/// Whether a number goes on with a byte behind another.
#[tactic(auto, unfolding(sc_tree::specs::Pieces::goes_on))]
fn goes_on(last: u8, byte: u8) -> bool
    ensures { result ≡ goes_on last byte }
{
    is_number_byte(byte) || is_sign(byte) && is_exponent(last)
}

/// How many bytes go on with a number behind its first.
fn number_tail(first: u8, bytes: &[u8]) -> usize
    ensures len { result ≡ number_tail first bytes.now }
    ensures within { result ≤ length bytes.now }
{
    let mut last = first;
    for (at, byte) in bytes.iter().enumerate() {
        if !goes_on(last, *byte) {
            return at;
        }
        last = *byte;
    }
    bytes.len()
}

fn is_digit_front(bytes: &[u8]) -> bool
    ensures { result ≡ is_digit_front bytes.now }
{
    match bytes {
        [] => false,
        [first, ..] => first.is_ascii_digit(),
    }
}

/// How many bytes of a number stand at the front.
pub(crate) fn number_len(bytes: &[u8]) -> usize
    ensures len { result ≡ number_len bytes.now }
    ensures within { result ≤ length bytes.now }
{
    match bytes {
        [] => 0,
        [first, rest @ ..] => {
            if first.is_ascii_digit() || *first == b'.' && is_digit_front(rest) {
                1 + number_tail(*first, rest)
            } else {
                0
            }
        }
    }
}

#[tactic(auto, unfolding(sc_tree::specs::Numbers::digit_value))]
fn digit_value(digit: u8) -> u64
    ensures { result ≡ digit_value digit }
{
    let value = if digit <= b'9' {
        digit.saturating_sub(b'0')
    } else if digit <= b'F' {
        digit.saturating_sub(b'A' - 10)
    } else {
        digit.saturating_sub(b'a' - 10)
    };
    u64::from(value)
}

/// One digit more behind a number.
fn with_digit(base: u64, number: u64, digit: u8) -> Option<u64>
    ensures number { result ≡ fitting (number * base + digit_value digit) }
    ensures fits { IfSome result (λ n. n < 2 ^ 64) }
{
    number.checked_mul(base)?.checked_add(digit_value(digit))
}

/// The number that the digits write, if it fits 64 bits.
pub(crate) fn number(base: u64, digits: &[u8]) -> Option<u64>
    requires { 0 < base }
    ensures { result ≡ fitting (number_from base 0 digits.now) }
{
    let mut number = 0;
    for digit in digits {
        number = with_digit(base, number, *digit)?;
    }
    Some(number)
}

/// The integer constant of a number, if it fits 64 bits, with its suffix.
fn int_token(number: Option<u64>, decimal: bool, suffix: Suffix) -> IntToken
    ensures { result ≡ int_token number decimal suffix }
{
    IntToken {
        value: number.unwrap_or(0),
        fits: number.is_some(),
        decimal,
        unsigned: suffix.unsigned,
        longs: suffix.longs,
    }
}

/// The integer constant of a text that begins with so many digits and goes on with a suffix.
#[tactic(auto, unfolding(sc_tree::specs::Numbers::integer))]
fn integer(decimal: bool, base: u64, count: usize, text: &[u8]) -> Option<IntToken>
    requires base { 0 < base }
    requires within { count ≤ length text.now }
    ensures { result ≡ integer decimal base count text.now }
{
    if count == 0 {
        return None;
    }
    let (digits, suffix) = text.split_at(count);
    let suffix = suffix_of(suffix)?;
    Some(int_token(number(base, digits), decimal, suffix))
}

/// The integer constant that a text is.
#[tactic(auto, unfolding(sc_tree::specs::Numbers::integer_of))]
fn integer_of(text: &[u8]) -> Option<IntToken>
    ensures { result ≡ integer_of text.now }
{
    if begins(b"0x", text) || begins(b"0X", text) {
        let (_, digits) = text.split_at(2);
        integer(false, 16, hexadecimal_digits(digits), digits)
    } else if begins(b"0", text) {
        integer(false, 8, octal_digits(text), text)
    } else {
        integer(true, 10, decimal_digits(text), text)
    }
}

/// What a number token is: an integer constant, or odd.
#[tactic(auto, unfolding(sc_tree::specs::Numbers::number_kind))]
pub(crate) fn number_kind(text: &[u8]) -> Kind
    ensures { result ≡ number_kind text.now }
{
    integer_of(text).map_or(Kind::Odd, Kind::Int)
}
