//! A run that is shown: its choice and its events.

ghost use Rattle.std.specs.Prelude.{◌≡◌, ◌++◌, ◌<◌, ◌/◌, ◌+◌, OnOk, length};
ghost use Rattle.report_text.specs.Shown as spec;

use crate::names::name_text;
use crate::put::{put, put_number};
use sc_base::{NameId, OutOfMemory};
use sc_typed::Program;
use sum_rows::{Event, Shown, What};

/// The bit at a place as a number; 0 behind the last one.
fn bit_number(choice: &[bool], at: usize) -> u8
    ensures { result ≡ spec.bit_number choice.now at }
{
    match choice.get(at) {
        Some(true) => 1,
        _ => 0,
    }
}

/// The hexadecimal digit with that number.
fn hex_digit(n: u8) -> u8
    requires { n < 16 }
    ensures { result ≡ spec.hex_digit n }
{
    if n < 10 { b'0' + n } else { b'a' - 10 + n }
}

/// The digit of four bits.
fn digit_at(choice: &[bool], k: usize) -> u8
    requires { k < (length choice.now + 3) / 4 }
    ensures { result ≡ spec.hex_digit (spec.four_bits choice.now k) }
{
    let at = 4 * k;
    hex_digit(
        8 * bit_number(choice, at)
            + 4 * bit_number(choice, at + 1)
            + 2 * bit_number(choice, at + 2)
            + bit_number(choice, at + 3),
    )
}

/// Puts a choice in hexadecimal digits; `none` where it has no bit.
pub fn put_choice(out: &mut Vec<u8>, choice: &[bool]) -> Result<(), OutOfMemory>
    ensures { OnOk result (out.new.items ≡ out.old.items ++ spec.choice_text choice.now) }
{
    if choice.is_empty() {
        return put(out, b"none");
    }
    for k in 0..(choice.len() + 3) / 4 {
        out.push(digit_at(choice, k))?;
    }
    Ok(())
}

fn digit_of(bit: bool) -> &'static [u8]
    ensures { result.now ≡ spec.digit_of bit }
{
    if bit { b"1" } else { b"0" }
}

fn call_text(program: &Program, name: Option<NameId>) -> &str
    ensures { result.now ≡ spec.call_text program.now name }
{
    match name {
        Some(name) => name_text(program, name),
        None => "*",
    }
}

/// Puts a word, and behind it a text.
fn put_both(out: &mut Vec<u8>, word: &[u8], text: &[u8]) -> Result<(), OutOfMemory>
    ensures { OnOk result (out.new.items ≡ out.old.items ++ (word.now ++ text.now)) }
{
    put(out, word)?;
    put(out, text)
}

/// Puts what happens; an error at the location with that text.
fn put_what(
    out: &mut Vec<u8>,
    program: &Program,
    location: &[u8],
    what: What,
) -> Result<(), OutOfMemory>
    ensures { OnOk result (out.new.items ≡ out.old.items ++ spec.what_text program.now location.now what) }
{
    match what {
        What::Call(name) => put_both(out, b"call ", call_text(program, name).as_bytes()),
        What::If(holds) => put_both(out, b"if ", digit_of(holds)),
        What::Loop(holds) => put_both(out, b"loop ", digit_of(holds)),
        What::Switch(n) => {
            put(out, b"switch ")?;
            put_number(out, n)
        }
        What::Goto(name) => put_both(out, b"goto ", name_text(program, name).as_bytes()),
        What::Return => put(out, b"return"),
        What::End => put(out, b"end"),
        What::Bad(_) => put_both(out, b"error ", location),
    }
}

#[tactic(auto, unfolding(crate::specs::Shown::event_line))]
fn put_event(
    out: &mut Vec<u8>,
    program: &Program,
    indent: &[u8],
    location: &[u8],
    event: Event,
) -> Result<(), OutOfMemory>
    ensures { OnOk result (out.new.items ≡ out.old.items ++ spec.event_line program.now indent.now location.now event) }
{
    put(out, indent)?;
    put_number(out, event.line)?;
    put(out, b":")?;
    put_number(out, event.col)?;
    put(out, b" ")?;
    put_what(out, program, location, event.what)?;
    put(out, b"\n")
}

/// Puts events, each on a line of its own.
pub(crate) fn put_trace(
    out: &mut Vec<u8>,
    program: &Program,
    indent: &[u8],
    location: &[u8],
    events: &[Event],
) -> Result<(), OutOfMemory>
    ensures { OnOk result (out.new.items ≡ out.old.items ++ spec.trace_text program.now indent.now location.now events.now) }
{
    for event in events {
        put_event(out, program, indent, location, *event)?;
    }
    Ok(())
}

/// Puts a run that is shown: its choice, and its events.
#[tactic(auto, unfolding(crate::specs::Shown::shown_text))]
pub(crate) fn put_shown(
    out: &mut Vec<u8>,
    program: &Program,
    shown: &Shown,
) -> Result<(), OutOfMemory>
    ensures { OnOk result (out.new.items ≡ out.old.items ++ spec.shown_text program.now shown.now) }
{
    put(out, b"    choice ")?;
    put_choice(out, shown.choice.as_slice())?;
    put(out, b"\n")?;
    put_trace(
        out,
        program,
        b"    ",
        shown.text.as_slice(),
        shown.trace.as_slice(),
    )
}
