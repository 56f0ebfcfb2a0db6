// The lines of values of a model.

ghost use Rattle.std.specs.Prelude.{◌≡◌, ◌<◌, ◌+◌, ◌^◌, ◌≤◌, ◌++◌, [], ◌∷◌, length, IfOk, OnOk, codes, if◌then◌else◌};
ghost use Rattle.sat_base.specs.Logic.{LitsBelow};
ghost use Rattle.drat_text.specs.Writing.{lit_word};
ghost use Rattle.cnf_answers.specs.Values.{fits, gap, column_after, values_text};

use itoa::Buffer;
use sat_base::{Lit, OutOfMemory};
use std::alloc::Global;

/// No line is longer, where its words allow it.
const LINE: usize = 78;

fn put(text: &mut Vec<u8>, bytes: &[u8]) -> Result<(), OutOfMemory>
    ensures { OnOk result (text.new.items ≡ text.old.items ++ bytes.now) }
{
    text.extend_from_slice(bytes)?;
    Ok(())
}

/// What stands before the number of a variable.
fn sign(neg: bool) -> &'static [u8]
    ensures { result.now ≡ (if neg then codes "-" else []) }
{
    if neg { b"-" } else { b"" }
}

/// The word of a literal: variables count from 1.
fn lit_word(alloc: Global, vars: usize, lit: Lit) -> Result<Vec<u8>, OutOfMemory>
    requires { lit.var < vars }
    ensures { IfOk result (λ word. word.items ≡ lit_word lit) }
{
    let mut buffer = Buffer::new();
    let mut word = Vec::new(alloc);
    put(&mut word, sign(lit.neg))?;
    put(&mut word, buffer.format(lit.var + 1).as_bytes())?;
    Ok(word)
}

/// Whether a word of this length and a space before it have room behind so many bytes of a line.
fn fits(column: usize, size: usize) -> bool
    ensures { result ≡ fits column size }
{
    column < LINE && size < LINE - column
}

/// What stands before a word of this length.
fn gap(column: usize, size: usize) -> &'static [u8]
    ensures { result.now ≡ gap column size }
{
    if fits(column, size) { b" " } else { b"\nv " }
}

/// How many bytes the line has up to the end of that word.
fn column_after(column: usize, size: usize) -> usize
    requires { size < 2 ^ 63 }
    ensures { result ≡ column_after column size }
{
    if fits(column, size) {
        column + 1 + size
    } else {
        2 + size
    }
}

/// The lines of values up to a word. The last has so many bytes.
#[derive(Debug, Drop)]
struct Lines {
    text: Vec<u8>,
    column: usize,
}

/// Puts a word behind the others.
fn put_word(lines: &mut Lines, word: &[u8]) -> Result<(), OutOfMemory>
    ensures text { OnOk result (lines.new.text.items ≡ lines.old.text.items ++ (gap lines.old.column (length word.now) ++ word.now)) }
    ensures column { OnOk result (lines.new.column ≡ column_after lines.old.column (length word.now)) }
{
    let column = lines.column;
    put(&mut lines.text, gap(column, word.len()))?;
    put(&mut lines.text, word)?;
    lines.column = column_after(column, word.len());
    Ok(())
}

/// The lines of the values that make these literals true.
pub fn values_text(alloc: Global, vars: usize, lits: &[Lit]) -> Result<Vec<u8>, OutOfMemory>
    requires { LitsBelow vars lits.now }
    ensures { IfOk result (λ text. text.items ≡ values_text lits.now) }
{
    let mut lines = Lines {
        text: b"v".to_vec(alloc)?,
        column: 1,
    };
    for lit in lits {
        let word = lit_word(alloc, vars, *lit)?;
        put_word(&mut lines, &word)?;
    }
    put_word(&mut lines, b"0")?;
    put(&mut lines.text, b"\n")?;
    Ok(lines.text)
}
