//! The name of a marker, behind its opening quote.

ghost use Rattle.std.specs.Prelude.{◌≡◌, ◌≤◌, IfOk, length, option_map};
ghost use Rattle.std.specs.List.{list_all};
ghost use Rattle.line_marks.specs.Names as spec;

use sc_base::{List, OutOfMemory};
use std::alloc::Global;

/// What stands open in a name.
#[derive(Clone, Copy)]
pub(crate) enum Within {
    Plain,
    /// A `\`.
    Escape,
    /// The same, with one octal digit.
    One(u8),
    /// The same, with two octal digits.
    Two(u16),
}

/// What a byte of a name spells.
#[derive(Clone, Copy)]
pub(crate) enum Spelled {
    /// Nothing yet.
    Open(Within),
    Byte(u8),
    /// The closing quote.
    Closed,
    Malformed,
}

fn is_octal(byte: u8) -> bool
    ensures { result ≡ spec.is_octal byte }
{
    b'0' <= byte && byte <= b'7'
}

fn is_flag_byte(byte: u8) -> bool
    ensures { result ≡ spec.is_flag_byte byte }
{
    (byte == b' ' || byte == b'\t') || (11 <= byte && byte <= b'\r' || b'1' <= byte && byte <= b'4')
}

/// What a byte behind a `\` spells.
#[tactic(auto, unfolding(crate::specs::Names::spells))]
fn escaped(byte: u8) -> Spelled
    ensures { result ≡ spec.spells Within.Escape byte }
{
    match byte {
        b'"' | b'\\' => Spelled::Byte(byte),
        b'n' => Spelled::Byte(b'\n'),
        _ => {
            if is_octal(byte) {
                Spelled::Open(Within::One(byte - b'0'))
            } else {
                Spelled::Malformed
            }
        }
    }
}

/// The byte with that number.
fn fitting(number: u32) -> Spelled
    ensures { result ≡ spec.fitting number }
{
    if number < 256 {
        Spelled::Byte(number as u8)
    } else {
        Spelled::Malformed
    }
}

#[tactic(auto, unfolding(crate::specs::Names::spells))]
fn spells(within: Within, byte: u8) -> Spelled
    ensures { result ≡ spec.spells within byte }
{
    match within {
        Within::Plain => match byte {
            b'"' => Spelled::Closed,
            b'\\' => Spelled::Open(Within::Escape),
            _ => Spelled::Byte(byte),
        },
        Within::Escape => escaped(byte),
        Within::One(first) => {
            if is_octal(byte) {
                Spelled::Open(Within::Two(8 * u16::from(first) + u16::from(byte - b'0')))
            } else {
                Spelled::Malformed
            }
        }
        Within::Two(first) => {
            if is_octal(byte) {
                fitting(8 * u32::from(first) + u32::from(byte - b'0'))
            } else {
                Spelled::Malformed
            }
        }
    }
}

/// Whether only flags stand in a text.
fn are_flags(bytes: &[u8]) -> bool
    ensures { result ≡ list_all spec.is_flag_byte bytes.now }
{
    bytes.iter().all(|byte| is_flag_byte(*byte))
}

/// The name up to its closing quote, if only flags stand behind that.
#[tactic(auto, unfolding(crate::specs::Names::name_from))]
pub(crate) fn read_name(alloc: Global, bytes: &[u8]) -> Result<Option<List<u8>>, OutOfMemory>
    ensures { IfOk result (λ found. found ≡ spec.name_from Within.Plain bytes.now) }
{
    let mut name = Vec::new(alloc);
    let mut within = Within::Plain;
    for (at, byte) in bytes.iter().enumerate() {
        match spells(within, *byte) {
            Spelled::Open(next) => within = next,
            Spelled::Byte(byte) => {
                name.push(byte)?;
                within = Within::Plain;
            }
            Spelled::Closed => {
                if are_flags(&bytes[at + 1..]) {
                    return Ok(Some(List::from_vec(name)));
                }
                return Ok(None);
            }
            Spelled::Malformed => return Ok(None),
        }
    }
    Ok(None)
}
