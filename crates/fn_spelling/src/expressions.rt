// Expressions (C11 6.5), as numbers.

ghost use Rattle.std.specs.Prelude.{◌≡◌, ◌∷◌, ◌++◌, map, OnOk};
ghost use Rattle.fn_matter.specs.Words.{begun, ended, marked, spell, spell_all, trees};
ghost use Rattle.fn_matter.specs.Numbers.{optional, place};
ghost use Rattle.fn_matter.specs.Shapes.{exp_tree, signed, type_tree};

use crate::numbers::{assign_number, binary_number, step_number, unary_number};
use crate::types::type_part;
use crate::writing::{end, part};
use sc_base::{List, OutOfMemory};
use sc_typed::{TExpr, What};

// The numbers of a node that stands at two places.
fn placed(out: &mut Vec<u64>, kind: u64, e: &TExpr, numbers: &[u64]) -> Result<(), OutOfMemory>
    ensures { OnOk result (out.new.items ≡ begun kind (place e.now.place ++ numbers.now) out.old.items) }
{
    let (token, first) = (e.place.token, e.place.first);
    out.push(kind)?;
    out.push(numbers.len() as u64 + 6)?;
    out.extend_from_slice(&[
        token.file as u64,
        token.line as u64,
        token.col as u64,
        first.file as u64,
        first.line as u64,
        first.col as u64,
    ])?;
    out.extend_from_slice(numbers)?;
    Ok(())
}

// The head of an expression: its kind, its places, its numbers and its type. Its other parts come behind.
fn form(out: &mut Vec<u64>, kind: u64, e: &TExpr, numbers: &[u64]) -> Result<(), OutOfMemory>
    ensures { OnOk result (out.new.items ≡ spell (type_tree e.now.ctype) (marked (begun kind (place e.now.place ++ numbers.now) out.old.items))) }
{
    placed(out, kind, e, numbers)?;
    type_part(out, &e.ctype)
}

// The head of a name of a function: with the number of the body, where there is one.
fn function_form(
    out: &mut Vec<u64>,
    e: &TExpr,
    name: u32,
    body: Option<u32>,
) -> Result<(), OutOfMemory>
    ensures { OnOk result (out.new.items ≡ spell (type_tree e.now.ctype) (marked (begun 16 (place e.now.place ++ name ∷ optional body) out.old.items))) }
{
    match body {
        None => form(out, 16, e, &[name as u64]),
        Some(body) => form(out, 16, e, &[name as u64, body as u64]),
    }
}

// The head of a character constant: whether it is negative, and how far it is from 0 or from -1.
fn char_form(out: &mut Vec<u64>, e: &TExpr, c: i8) -> Result<(), OutOfMemory>
    ensures { OnOk result (out.new.items ≡ spell (type_tree e.now.ctype) (marked (begun 18 (place e.now.place ++ signed c) out.old.items))) }
{
    if c < 0 {
        form(out, 18, e, &[1, (-1 - c) as u64])
    } else {
        form(out, 18, e, &[0, c as u64])
    }
}

/// Writes an expression behind the numbers.
///
/// # Errors
///
/// `OutOfMemory` where memory is refused.
#[cycle(expression)]
pub(crate) fn expression(out: &mut Vec<u64>, e: &TExpr) -> Result<(), OutOfMemory>
    ensures { OnOk result (out.new.items ≡ spell (exp_tree e.now) out.old.items) }
{
    match &e.what {
        What::Comma(a, b) => {
            form(out, 0, e, &[])?;
            exp_part(out, a.get())?;
            one_part(out, b.get())
        }
        What::Assign(o, works, a, b) => {
            form(out, 1, e, &[assign_number(*o)])?;
            exp_part(out, a.get())?;
            exp_part(out, b.get())?;
            type_part(out, works)?;
            end(out)
        }
        What::Cond(a, b, c) => {
            form(out, 2, e, &[])?;
            exp_part(out, a.get())?;
            exp_part(out, b.get())?;
            one_part(out, c.get())
        }
        What::Binary(o, a, b) => {
            form(out, 3, e, &[binary_number(*o)])?;
            exp_part(out, a.get())?;
            one_part(out, b.get())
        }
        What::Cast(a) => {
            form(out, 4, e, &[])?;
            one_part(out, a.get())
        }
        What::Unary(o, a) => {
            form(out, 5, e, &[unary_number(*o)])?;
            one_part(out, a.get())
        }
        What::PreInc(s, a) => {
            form(out, 6, e, &[step_number(*s)])?;
            one_part(out, a.get())
        }
        What::PostInc(s, a) => {
            form(out, 7, e, &[step_number(*s)])?;
            one_part(out, a.get())
        }
        What::SizeofExpr(a, n) => {
            form(out, 8, e, &[*n])?;
            one_part(out, a.get())
        }
        What::SizeofType(n) => {
            form(out, 9, e, &[*n])?;
            end(out)
        }
        What::Index(a, b) => {
            form(out, 10, e, &[])?;
            exp_part(out, a.get())?;
            one_part(out, b.get())
        }
        What::Call(f, args) => {
            form(out, 11, e, &[])?;
            exp_part(out, f.get())?;
            arguments(out, args)
        }
        What::Field(a, s, n, false) => {
            form(out, 12, e, &[*s as u64, *n as u64, 0])?;
            one_part(out, a.get())
        }
        What::Field(a, s, n, true) => {
            form(out, 12, e, &[*s as u64, *n as u64, 1])?;
            one_part(out, a.get())
        }
        What::Param(n) => {
            form(out, 13, e, &[*n as u64])?;
            end(out)
        }
        What::Local(n) => {
            form(out, 14, e, &[*n as u64])?;
            end(out)
        }
        What::Global(n) => {
            form(out, 15, e, &[*n as u64])?;
            end(out)
        }
        What::Function(name, body) => {
            function_form(out, e, name.at, *body)?;
            end(out)
        }
        What::Int(n) => {
            form(out, 17, e, &[*n])?;
            end(out)
        }
        What::Char(c) => {
            char_form(out, e, *c)?;
            end(out)
        }
        What::Str(n) => {
            form(out, 19, e, &[*n as u64])?;
            end(out)
        }
        What::Convert(a) => {
            form(out, 20, e, &[])?;
            one_part(out, a.get())
        }
        What::Temp(n) => {
            form(out, 21, e, &[*n as u64])?;
            end(out)
        }
        What::TempPlace(n) => {
            form(out, 22, e, &[*n as u64])?;
            end(out)
        }
    }
}

// Writes an expression as a part.
#[cycle(expression)]
pub(crate) fn exp_part(out: &mut Vec<u64>, e: &TExpr) -> Result<(), OutOfMemory>
    ensures { OnOk result (out.new.items ≡ spell (exp_tree e.now) (marked out.old.items)) }
{
    part(out)?;
    expression(out, e)
}

// Writes an expression as the last part.
#[cycle(expression)]
pub(crate) fn one_part(out: &mut Vec<u64>, a: &TExpr) -> Result<(), OutOfMemory>
    ensures { OnOk result (out.new.items ≡ ended (spell (exp_tree a.now) (marked out.old.items))) }
{
    exp_part(out, a)?;
    end(out)
}

// Writes the arguments of a call as the last parts.
#[cycle(expression)]
fn arguments(out: &mut Vec<u64>, args: &List<TExpr>) -> Result<(), OutOfMemory>
    ensures { OnOk result (out.new.items ≡ spell_all (trees (map exp_tree args.now)) out.old.items) }
{
    for e in args.as_slice() {
        exp_part(out, e)?;
    }
    end(out)
}
