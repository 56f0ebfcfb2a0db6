//! Comments, string literals and character constants (C11 6.4.4.4, 6.4.5, 6.4.9).
#![tactic(auto)]

ghost use Rattle.std.specs.Prelude.{◌≡◌, ℕ, ◌+◌, ◌^◌, ◌<◌, ◌≤◌, List, false, IfSome, length, option_map};
ghost use Rattle.sc_tree.specs.Literals.{byte_value, char_kind, comment_len, digits_escape, escape, number_escape, only_byte, opened};
ghost use Rattle.sc_tree.specs.Literals.{quoted_len, spelled_byte, spelled_bytes, string_kind};
ghost use Rattle.sc_tree.specs.Numbers.{number_from};
ghost use Rattle.sc_lexer.specs.Texts.{HasText};

use crate::bytes::{hexadecimal_digits, octal_digits, rest_of_line};
use crate::numbers::number;
use crate::tables::{begins, simple_escape};
use sc_tree::{Form, Kind, Opening, Piece, StrToken};

/// A byte of a literal, itself or as an escape: how many bytes spell it, and its value where that
/// is at most 255.
#[derive(Clone, Copy, Debug)]
struct Spelled {
    len: usize,
    value: Option<u8>,
}

/// The number that digits write, if it fits a byte.
fn byte_number(base: u64, digits: &[u8]) -> Option<u8>
    requires { 0 < base }
    ensures { result ≡ byte_value (number_from base 0 digits.now) }
{
    let number = number(base, digits)?;
    if number <= 255 {
        Some(number as u8)
    } else {
        None
    }
}

/// Digits as an escape.
fn digits_escape(base: u64, before: usize, digits: &[u8]) -> Option<Spelled>
    requires base { 0 < base }
    requires room { before + length digits.now < 2 ^ 64 }
    ensures value { option_map (λ e. (e.len, e.value)) result ≡ digits_escape base before digits.now }
    ensures len { IfSome result (λ e. e.len ≡ before + length digits.now) }
{
    if digits.is_empty() {
        return None;
    }
    Some(Spelled {
        len: before + digits.len(),
        value: byte_number(base, digits),
    })
}

/// The hexadecimal or octal escape behind a `\`.
fn number_escape(bytes: &[u8]) -> Option<Spelled>
    requires { length bytes.now < 2 ^ 32 }
    ensures value { option_map (λ e. (e.len, e.value)) result ≡ number_escape bytes.now }
    ensures within { IfSome result (λ e. e.len ≤ length bytes.now) }
{
    if begins(b"x", bytes) {
        let (_, rest) = bytes.split_at(1);
        let (digits, _) = rest.split_at(hexadecimal_digits(rest));
        digits_escape(16, 1, digits)
    } else {
        let (digits, _) = bytes.split_at(octal_digits(bytes).min(3));
        digits_escape(8, 0, digits)
    }
}

/// The escape behind a `\`.
#[tactic(auto, unfolding(sc_tree::specs::Literals::escape))]
fn escape(bytes: &[u8]) -> Option<Spelled>
    requires { length bytes.now < 2 ^ 32 }
    ensures value { option_map (λ e. (e.len, e.value)) result ≡ escape bytes.now }
    ensures within { IfSome result (λ e. e.len ≤ length bytes.now) }
{
    match bytes {
        [] => None,
        [_, ..] => {
            let (letter, _) = bytes.split_at(1);
            match simple_escape(letter) {
                Some(value) => Some(Spelled {
                    len: 1,
                    value: Some(value),
                }),
                None => number_escape(bytes),
            }
        }
    }
}

/// The byte of a literal at the front.
#[tactic(auto, unfolding(sc_tree::specs::Literals::spelled_byte))]
fn spelled_byte(bytes: &[u8]) -> Option<Spelled>
    requires { length bytes.now < 2 ^ 32 }
    ensures value { option_map (λ e. (e.len, e.value)) result ≡ spelled_byte bytes.now }
    ensures within { IfSome result (λ e. e.len ≤ length bytes.now) }
{
    match bytes {
        [] => None,
        [first, rest @ ..] => {
            if *first == b'\\' {
                let escape = escape(rest)?;
                Some(Spelled {
                    len: escape.len + 1,
                    value: escape.value,
                })
            } else {
                Some(Spelled {
                    len: 1,
                    value: Some(*first),
                })
            }
        }
    }
}

/// How many bytes a text spells, unless an escape in it is none.
fn spelled_bytes(text: &[u8]) -> Option<usize>
    requires { length text.now < 2 ^ 32 }
    ensures count { result ≡ spelled_bytes (length text.now) text.now }
    ensures within { IfSome result (λ n. n ≤ length text.now) }
{
    let mut count = 0;
    let mut at = 0;
    let end = text.len();
    for _ in 0..end {
        if at == end {
            return Some(count);
        }
        let (_, rest) = text.split_at(at);
        let byte = spelled_byte(rest)?;
        at += byte.len;
        count += 1;
    }
    Some(count)
}

/// How many bytes there are up to and with the first quote that no `\` escapes, in the same line.
fn quoted_len(quote: u8, bytes: &[u8]) -> Option<usize>
    ensures len { result ≡ quoted_len quote false bytes.now }
    ensures within { IfSome result (λ n. (0 < n) × (n ≤ length bytes.now)) }
{
    let mut is_escaped = false;
    for (at, byte) in bytes.iter().enumerate() {
        if *byte == b'\n' {
            return None;
        }
        if *byte == quote && !is_escaped {
            return Some(at + 1);
        }
        is_escaped = *byte == b'\\' && !is_escaped;
    }
    None
}

/// How many bytes there are up to and with the first `*/`.
fn comment_len(bytes: &[u8]) -> Option<usize>
    ensures len { result ≡ comment_len bytes.now }
    ensures within { IfSome result (λ n. n ≤ length bytes.now) }
{
    for at in 0..bytes.len() {
        let (_, rest) = bytes.split_at(at);
        if begins(b"*/", rest) {
            return Some(at + 2);
        }
    }
    None
}

/// A string literal of this text between its quotes.
#[tactic(auto, unfolding(sc_tree::specs::Literals::string_kind))]
fn string_kind(wide: bool, text: &[u8]) -> Option<Kind>
    requires { length text.now < 2 ^ 32 }
    ensures { result ≡ string_kind wide text.now }
{
    let len = spelled_bytes(text)?;
    Some(Kind::Str(StrToken {
        wide,
        len: len as u32,
    }))
}

/// The one byte that a text spells.
#[tactic(auto, unfolding(sc_tree::specs::Literals::only_byte))]
fn only_byte(text: &[u8]) -> Option<u8>
    requires { length text.now < 2 ^ 32 }
    ensures { result ≡ only_byte text.now }
{
    let byte = spelled_byte(text)?;
    if byte.len == text.len() {
        byte.value
    } else {
        None
    }
}

/// A character constant of this text between its quotes.
#[tactic(auto, unfolding(sc_tree::specs::Literals::char_kind))]
fn char_kind(plain: bool, text: &[u8]) -> Kind
    requires { length text.now < 2 ^ 32 }
    ensures { result ≡ char_kind plain text.now }
{
    if !plain {
        return Kind::Odd;
    }
    match only_byte(text) {
        Some(byte) => Kind::Char(byte.cast_signed()),
        None => Kind::Odd,
    }
}

/// The piece that an opening begins, with how many bytes of it stand behind the opening.
#[tactic(auto, unfolding(sc_tree::specs::Literals::opened))]
pub(crate) fn opened(opening: Opening, bytes: &[u8]) -> Option<Piece>
    requires { length bytes.now < 2 ^ 32 }
    ensures piece { result ≡ opened opening bytes.now }
    ensures within { IfSome result (λ p. p.len ≤ length bytes.now) }
    ensures text { IfSome result (λ p. (text : List ℕ) → HasText p.form text) }
{
    match opening {
        Opening::BlockComment => Some(Piece {
            form: Form::Blank,
            len: comment_len(bytes)?,
        }),
        Opening::LineComment => Some(Piece {
            form: Form::Blank,
            len: rest_of_line(bytes),
        }),
        Opening::Str { wide } => {
            let len = quoted_len(b'"', bytes)?;
            let (text, _) = bytes.split_at(len - 1);
            let kind = string_kind(wide, text)?;
            Some(Piece {
                form: Form::Known(kind),
                len,
            })
        }
        Opening::Char { plain } => {
            let len = quoted_len(b'\'', bytes)?;
            let (text, _) = bytes.split_at(len - 1);
            Some(Piece {
                form: Form::Known(char_kind(plain, text)),
                len,
            })
        }
    }
}
