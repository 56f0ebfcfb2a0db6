//! A slow checker of certificates, from the definition: a literal is forced if it is assumed, or a clause has it and
//! the negation of each other literal of the clause is forced; a clause is RUP if the negations of its literals force
//! the negation of every literal of some clause.

use crate::formulas::{Formula, step_lits};
use rup_check::Checked;
use sat_base::{Clause, Lit, OutOfMemory, Step};
use std::alloc::Global;

fn is_among(lit: Lit, lits: &[Lit]) -> bool {
    lits.iter().any(|other| *other == lit)
}

/// Whether the negation of each other literal of the clause is forced.
fn others_are_false(clause: &[Lit], lit: Lit, forced: &[Lit]) -> bool {
    clause
        .iter()
        .all(|other| *other == lit || is_among(other.negated(), forced))
}

/// A literal that the clause forces anew.
fn forced_by(clause: &[Lit], forced: &[Lit]) -> Option<Lit> {
    clause.iter().copied().find(|lit| !is_among(*lit, forced)
        && others_are_false(clause, *lit, forced))
}

fn next_forced(clauses: &[Clause], forced: &[Lit]) -> Option<Lit> {
    for clause in clauses {
        if let Some(lit) = forced_by(clause.lits(), forced) {
            return Some(lit);
        }
    }
    None
}

fn is_falsified(clause: &[Lit], forced: &[Lit]) -> bool {
    clause.iter().all(|lit| is_among(lit.negated(), forced))
}

/// All literals that are forced where the negations of these are assumed. Each turn finds one of the variables' two.
fn forced_against(
    alloc: Global,
    vars: u16,
    clauses: &[Clause],
    lits: &[Lit],
) -> Result<Vec<Lit>, OutOfMemory> {
    let mut forced = Vec::new(alloc);
    for lit in lits {
        forced.push(lit.negated())?;
    }
    for _turn in 0..2 * u32::from(vars) {
        let Some(lit) = next_forced(clauses, &forced) else {
            break;
        };
        forced.push(lit)?;
    }
    Ok(forced)
}

fn is_rup(alloc: Global, vars: u16, clauses: &[Clause], lits: &[Lit]) -> Result<bool, OutOfMemory> {
    let forced = forced_against(alloc, vars, clauses, lits)?;
    Ok(
        clauses
            .iter()
            .any(|clause| is_falsified(clause.lits(), &forced)),
    )
}

fn has_same_lits(one: &[Lit], other: &[Lit]) -> bool {
    one.iter().all(|lit| is_among(*lit, other)) && other.iter().all(|lit| is_among(*lit, one))
}

/// Takes one clause with these literals out, if there is one.
fn take_out(clauses: &mut Vec<Clause>, lits: &[Lit]) -> bool {
    let place = clauses
        .iter()
        .position(|clause| has_same_lits(clause.lits(), lits));
    match place {
        Some(place) => {
            let _clause = clauses.remove(place);
            true
        }
        None => false,
    }
}

fn add_step(
    alloc: Global,
    vars: u16,
    clauses: &mut Vec<Clause>,
    lits: &[Lit],
) -> Result<bool, OutOfMemory> {
    if !is_rup(alloc, vars, clauses, lits)? {
        return Ok(false);
    }
    clauses.push(Clause::of(alloc, lits)?)?;
    Ok(true)
}

/// Does a step, if it is allowed.
fn take_step(
    alloc: Global,
    vars: u16,
    clauses: &mut Vec<Clause>,
    step: &Step,
) -> Result<bool, OutOfMemory> {
    match step {
        Step::Add(clause) => add_step(alloc, vars, clauses, clause.lits()),
        Step::Drop(clause) => Ok(take_out(clauses, clause.lits())),
    }
}

fn adds_empty(step: &Step) -> bool {
    matches!(step, Step::Add(_)) && step_lits(step).is_empty()
}

fn ends_empty(steps: &[Step]) -> bool {
    match steps.last() {
        Some(step) => adds_empty(step),
        None => false,
    }
}

fn copies_of(alloc: Global, clauses: &[Clause]) -> Result<Vec<Clause>, OutOfMemory> {
    let mut copies = Vec::new(alloc);
    for clause in clauses {
        copies.push(Clause::of(alloc, clause.lits())?)?;
    }
    Ok(copies)
}

/// What the definition says of these steps.
pub fn slow_check(
    alloc: Global,
    vars: u16,
    formula: &Formula,
    steps: &[Step],
) -> Result<Checked, OutOfMemory> {
    let mut present = copies_of(alloc, formula.clauses.clauses())?;
    for k in 0..steps.len() {
        if !take_step(alloc, vars, &mut present, &steps[k])? {
            return Ok(Checked::No(k));
        }
    }
    if ends_empty(steps) {
        Ok(Checked::Yes)
    } else {
        Ok(Checked::No(steps.len()))
    }
}
