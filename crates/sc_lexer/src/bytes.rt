//! The classes of bytes (C11 5.2.1, 6.4), and how many bytes of a class stand at the front.
#![tactic(auto)]

ghost use Rattle.std.specs.Prelude.{◌≡◌, ◌≤◌, length};
ghost use Rattle.std.specs.List.{prefix_len};
ghost use Rattle.std.specs.Char.{is_ascii_digit, is_ascii_hexdigit};
ghost use Rattle.sc_tree.specs.Bytes.{is_space, is_blank, is_in_line, is_letter, is_word_byte, is_number_byte, is_exponent, is_sign, is_octal_digit};

#[tactic(auto, unfolding(sc_tree::specs::Bytes::is_space))]
fn is_space(byte: u8) -> bool
    ensures { result ≡ is_space byte }
{
    (b'\t' <= byte && byte <= b'\r') || byte == b' '
}

#[tactic(auto, unfolding(sc_tree::specs::Bytes::is_blank))]
pub(crate) fn is_blank(byte: u8) -> bool
    ensures { result ≡ is_blank byte }
{
    byte == b' ' || byte == b'\t'
}

#[tactic(auto, unfolding(sc_tree::specs::Bytes::is_letter))]
pub(crate) fn is_letter(byte: u8) -> bool
    ensures { result ≡ is_letter byte }
{
    byte.is_ascii_alphabetic() || byte == b'_' || byte == b'$'
}

#[tactic(auto, unfolding(sc_tree::specs::Bytes::is_word_byte))]
fn is_word_byte(byte: u8) -> bool
    ensures { result ≡ is_word_byte byte }
{
    byte.is_ascii_alphanumeric() || byte == b'_' || byte == b'$'
}

#[tactic(auto, unfolding(sc_tree::specs::Bytes::is_number_byte))]
pub(crate) fn is_number_byte(byte: u8) -> bool
    ensures { result ≡ is_number_byte byte }
{
    byte.is_ascii_alphanumeric() || byte == b'_' || byte == b'.'
}

#[tactic(auto, unfolding(sc_tree::specs::Bytes::is_exponent))]
pub(crate) fn is_exponent(byte: u8) -> bool
    ensures { result ≡ is_exponent byte }
{
    byte == b'e' || byte == b'E' || byte == b'p' || byte == b'P'
}

#[tactic(auto, unfolding(sc_tree::specs::Bytes::is_sign))]
pub(crate) fn is_sign(byte: u8) -> bool
    ensures { result ≡ is_sign byte }
{
    byte == b'+' || byte == b'-'
}

#[tactic(auto, unfolding(sc_tree::specs::Bytes::is_octal_digit))]
fn is_octal_digit(byte: u8) -> bool
    ensures { result ≡ is_octal_digit byte }
{
    b'0' <= byte && byte <= b'7'
}

pub(crate) fn spaces(bytes: &[u8]) -> usize
    ensures len { result ≡ prefix_len is_space bytes.now }
    ensures within { result ≤ length bytes.now }
{
    bytes.iter().take_while(|byte| is_space(**byte)).count()
}

pub(crate) fn word_bytes(bytes: &[u8]) -> usize
    ensures len { result ≡ prefix_len is_word_byte bytes.now }
    ensures within { result ≤ length bytes.now }
{
    bytes.iter().take_while(|byte| is_word_byte(**byte)).count()
}

/// The bytes up to the next line feed.
pub(crate) fn rest_of_line(bytes: &[u8]) -> usize
    ensures len { result ≡ prefix_len is_in_line bytes.now }
    ensures within { result ≤ length bytes.now }
{
    bytes.iter().take_while(|byte| **byte != b'\n').count()
}

pub(crate) fn decimal_digits(bytes: &[u8]) -> usize
    ensures len { result ≡ prefix_len is_ascii_digit bytes.now }
    ensures within { result ≤ length bytes.now }
{
    bytes
        .iter()
        .take_while(|byte| byte.is_ascii_digit())
        .count()
}

pub(crate) fn octal_digits(bytes: &[u8]) -> usize
    ensures len { result ≡ prefix_len is_octal_digit bytes.now }
    ensures within { result ≤ length bytes.now }
{
    bytes
        .iter()
        .take_while(|byte| is_octal_digit(**byte))
        .count()
}

pub(crate) fn hexadecimal_digits(bytes: &[u8]) -> usize
    ensures len { result ≡ prefix_len is_ascii_hexdigit bytes.now }
    ensures within { result ≤ length bytes.now }
{
    bytes
        .iter()
        .take_while(|byte| byte.is_ascii_hexdigit())
        .count()
}
