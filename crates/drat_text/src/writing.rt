//! Writes the text of a certificate.

ghost use Rattle.std.specs.Prelude.{◌≡◌, ◌<◌, ◌++◌, [], IfOk, OnOk, codes, decimal, if◌then◌else◌};
ghost use Rattle.std.specs.List.{All};
ghost use Rattle.sat_base.specs.Logic.{LitsBelow, ClausesBelow};
ghost use Rattle.drat_text.specs.Certificate.{IsBelow, StepBelow};
ghost use Rattle.drat_text.specs.Writing.{lit_word, lits_text, clauses_text, step_text, steps_text, header_text, text_of};

use crate::Certificate;
use itoa::Buffer;
use sat_base::{Clause, Lit, OutOfMemory, Step};
use std::alloc::Global;

fn put(out: &mut Vec<u8>, bytes: &[u8]) -> Result<(), OutOfMemory>
    ensures { OnOk result (out.new.items ≡ out.old.items ++ bytes.now) }
{
    out.extend_from_slice(bytes)?;
    Ok(())
}

fn put_number(out: &mut Vec<u8>, n: usize) -> Result<(), OutOfMemory>
    ensures { OnOk result (out.new.items ≡ out.old.items ++ decimal n) }
{
    let mut buffer = Buffer::new();
    put(out, buffer.format(n).as_bytes())
}

/// What stands before the number of a variable.
fn sign(neg: bool) -> &'static [u8]
    ensures { result.now ≡ (if neg then codes "-" else []) }
{
    if neg { b"-" } else { b"" }
}

/// Puts a literal and a space.
fn put_lit(vars: usize, out: &mut Vec<u8>, lit: Lit) -> Result<(), OutOfMemory>
    requires { lit.var < vars }
    ensures { OnOk result (out.new.items ≡ out.old.items ++ (lit_word lit ++ codes " ")) }
{
    put(out, sign(lit.neg))?;
    put_number(out, lit.var + 1)?;
    put(out, b" ")
}

/// Puts the line of these literals.
fn put_lits(vars: usize, out: &mut Vec<u8>, lits: &[Lit]) -> Result<(), OutOfMemory>
    requires { LitsBelow vars lits.now }
    ensures { OnOk result (out.new.items ≡ out.old.items ++ lits_text lits.now) }
{
    for lit in lits {
        put_lit(vars, out, *lit)?;
    }
    put(out, b"0\n")
}

/// Puts the line of a step.
fn put_step(vars: usize, out: &mut Vec<u8>, step: &Step) -> Result<(), OutOfMemory>
    requires { StepBelow vars step.now }
    ensures { OnOk result (out.new.items ≡ out.old.items ++ step_text step.now) }
{
    match step {
        Step::Add(clause) => put_lits(vars, out, clause.lits()),
        Step::Drop(clause) => {
            put(out, b"d ")?;
            put_lits(vars, out, clause.lits())
        }
    }
}

fn put_clauses(vars: usize, out: &mut Vec<u8>, clauses: &[Clause]) -> Result<(), OutOfMemory>
    requires { ClausesBelow vars clauses.now }
    ensures { OnOk result (out.new.items ≡ out.old.items ++ clauses_text clauses.now) }
{
    for clause in clauses {
        put_lits(vars, out, clause.lits())?;
    }
    Ok(())
}

fn put_steps(vars: usize, out: &mut Vec<u8>, steps: &[Step]) -> Result<(), OutOfMemory>
    requires { All (StepBelow vars) steps.now }
    ensures { OnOk result (out.new.items ≡ out.old.items ++ steps_text steps.now) }
{
    for step in steps {
        put_step(vars, out, step)?;
    }
    Ok(())
}

fn put_header(vars: usize, count: usize, out: &mut Vec<u8>) -> Result<(), OutOfMemory>
    ensures { OnOk result (out.new.items ≡ out.old.items ++ header_text vars count) }
{
    put(out, b"p cnf ")?;
    put_number(out, vars)?;
    put(out, b" ")?;
    put_number(out, count)?;
    put(out, b"\n")
}

/// The text of the certificate with these parts: the header, then a line for each clause, the line `c drat`, a line for
/// each step. By the law `written_is_read_back` the text spells the certificate.
#[tactic(auto, unfolding(crate::specs::Writing::text_of))]
pub fn write_parts(
    alloc: Global,
    vars: usize,
    clauses: &[Clause],
    steps: &[Step],
) -> Result<Vec<u8>, OutOfMemory>
    requires clauses { ClausesBelow vars clauses.now }
    requires steps { All (StepBelow vars) steps.now }
    ensures { IfOk result (λ text. text.items ≡ text_of (record { vars = vars; clauses = clauses.now; steps = steps.now })) }
{
    let mut text = Vec::new(alloc);
    put_header(vars, clauses.len(), &mut text)?;
    put_clauses(vars, &mut text, clauses)?;
    put(&mut text, b"c drat\n")?;
    put_steps(vars, &mut text, steps)?;
    Ok(text)
}

/// The text of a certificate, as `write_parts` writes it.
pub fn write(alloc: Global, certificate: &Certificate) -> Result<Vec<u8>, OutOfMemory>
    requires { IsBelow certificate.now }
    ensures { IfOk result (λ text. text.items ≡ text_of certificate.now) }
{
    write_parts(
        alloc,
        certificate.vars(),
        certificate.clauses().clauses(),
        certificate.steps().as_slice(),
    )
}
