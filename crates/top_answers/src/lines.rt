// The lines that say why there is no text.

ghost use Rattle.std.specs.Prelude.{◌≡◌, ◌++◌, ◌∷◌, [], map, take, OnOk, IfOk, codes};
ghost use Rattle.top_answers.specs.Lines as spec;

use itoa::{Buffer, Integer};
use sc_base::{LimitKind, OutOfMemory, Pos};
use std::alloc::Global;

fn put(out: &mut Vec<u8>, bytes: &[u8]) -> Result<(), OutOfMemory>
    ensures { OnOk result (out.new.items ≡ out.old.items ++ bytes.now) }
{
    Ok(out.extend_from_slice(bytes)?)
}

fn put_number<I: Integer>(out: &mut Vec<u8>, n: I) -> Result<(), OutOfMemory>
    ensures { OnOk result (out.new.items ≡ out.old.items ++ I.text n) }
{
    let mut buffer = Buffer::new();
    put(out, buffer.format(n).as_bytes())
}

// A byte of a name as a line has it.
fn shown_byte(byte: u8) -> u8
    ensures { result ≡ spec.shown_byte byte }
{
    if byte < 32 || byte == 127 { b'?' } else { byte }
}

// Puts a name behind the bytes, without control characters.
#[tactic(auto, unfolding(crate::specs::Lines::shown_name))]
fn put_name(out: &mut Vec<u8>, name: &[u8]) -> Result<(), OutOfMemory>
    ensures { OnOk result (out.new.items ≡ out.old.items ++ spec.shown_name name.now) }
{
    for byte in name {
        out.push(shown_byte(*byte))?;
    }
    Ok(())
}

fn limit_word(kind: LimitKind) -> &'static [u8]
    ensures { result.now ≡ spec.limit_word kind }
{
    match kind {
        LimitKind::Files => b"files",
        LimitKind::Input => b"input",
        LimitKind::Functions => b"functions",
        LimitKind::Edges => b"edges",
        LimitKind::Params => b"params",
        LimitKind::Nodes => b"nodes",
        LimitKind::Locations => b"locations",
    }
}

// The front of a line of this program.
fn begun(alloc: Global, program: &[u8]) -> Result<Vec<u8>, OutOfMemory>
    ensures { IfOk result (λ line. line.items ≡ program.now ++ codes ": ") }
{
    let mut line = program.to_vec(alloc)?;
    put(&mut line, b": ")?;
    Ok(line)
}

/// The line of this program with these words.
pub fn word_line(alloc: Global, program: &[u8], word: &[u8]) -> Result<Vec<u8>, OutOfMemory>
    ensures { IfOk result (λ line. line.items ≡ spec.line_of program.now word.now) }
{
    let mut line = begun(alloc, program)?;
    put(&mut line, word)?;
    put(&mut line, b"\n")?;
    Ok(line)
}

/// The line of this program with these words and a name behind them, in which a control character is a question mark.
pub fn name_line(
    alloc: Global,
    program: &[u8],
    word: &[u8],
    name: &[u8],
) -> Result<Vec<u8>, OutOfMemory>
    ensures { IfOk result (λ line. line.items ≡ spec.line_of program.now (word.now ++ spec.shown_name name.now)) }
{
    let mut line = begun(alloc, program)?;
    put(&mut line, word)?;
    put_name(&mut line, name)?;
    put(&mut line, b"\n")?;
    Ok(line)
}

/// The line of this program with a word on a place in the file of this name.
pub fn place_line(
    alloc: Global,
    program: &[u8],
    name: &[u8],
    pos: Pos,
    word: &[u8],
) -> Result<Vec<u8>, OutOfMemory>
    ensures { IfOk result (λ line. line.items ≡ spec.line_of program.now (spec.at_place name.now pos word.now)) }
{
    let mut line = begun(alloc, program)?;
    put_name(&mut line, name)?;
    put(&mut line, b":")?;
    put_number(&mut line, pos.line)?;
    put(&mut line, b":")?;
    put_number(&mut line, pos.col)?;
    put(&mut line, b": ")?;
    put(&mut line, word)?;
    put(&mut line, b"\n")?;
    Ok(line)
}

/// The line of this program for a limit, and the count that passes it.
pub fn limit_line(
    alloc: Global,
    program: &[u8],
    kind: LimitKind,
    count: u64,
) -> Result<Vec<u8>, OutOfMemory>
    ensures { IfOk result (λ line. line.items ≡ spec.line_of program.now (spec.limit_tail kind count)) }
{
    let mut line = begun(alloc, program)?;
    put(&mut line, b"limit ")?;
    put(&mut line, limit_word(kind))?;
    put(&mut line, b" ")?;
    put_number(&mut line, count)?;
    put(&mut line, b"\n")?;
    Ok(line)
}

/// The line of this program for a line that breaks the form of a machine file.
pub fn machine_line(alloc: Global, program: &[u8], number: u32) -> Result<Vec<u8>, OutOfMemory>
    ensures { IfOk result (λ line. line.items ≡ spec.line_of program.now (spec.machine_tail number)) }
{
    let mut line = begun(alloc, program)?;
    put(&mut line, b"machine ")?;
    put_number(&mut line, number)?;
    put(&mut line, b"\n")?;
    Ok(line)
}
