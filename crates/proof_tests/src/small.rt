//! Small certificates whose answers are known from the definition.

use crate::formulas::{Formula, judge, step_lits};
use rup_check::Checked;
use sat_base::{Clause, ClauseList, Lit, OutOfMemory, Step};
use std::alloc::Global;

/// The number of variables of the tests.
const VARS: usize = 3;

/// Stands before a clause that is taken out.
const D: i8 = 100;

/// The literal of a number: variables count from 1.
fn literal(number: i8) -> Lit {
    Lit {
        var: usize::from(number.unsigned_abs()).saturating_sub(1),
        neg: number < 0,
    }
}

/// The step with these literals.
fn step(alloc: Global, drops: bool, lits: &[Lit]) -> Result<Step, OutOfMemory> {
    let clause = Clause::of(alloc, lits)?;
    if drops {
        Ok(Step::Drop(clause))
    } else {
        Ok(Step::Add(clause))
    }
}

/// The steps that numbers spell as in DRAT text: a 0 ends a clause.
fn read_steps(alloc: Global, numbers: &[i8]) -> Result<Vec<Step>, OutOfMemory> {
    let mut steps = Vec::new(alloc);
    let mut lits = Vec::new(alloc);
    let mut drops = false;
    for &number in numbers {
        if number == D {
            drops = true;
        } else if number == 0 {
            steps.push(step(alloc, drops, &lits)?)?;
            lits.clear();
            drops = false;
        } else {
            lits.push(literal(number))?;
        }
    }
    Ok(steps)
}

/// The clauses that numbers spell.
fn read_clauses(alloc: Global, numbers: &[i8]) -> Result<ClauseList, OutOfMemory> {
    let steps = read_steps(alloc, numbers)?;
    let mut list = ClauseList::new(alloc);
    for clause in &steps {
        list.push(Clause::of(alloc, step_lits(clause))?)?;
    }
    Ok(list)
}

/// What is said of these clauses and steps.
fn answer(alloc: Global, clauses: &[i8], steps: &[i8]) -> Result<Option<Checked>, OutOfMemory> {
    let proof = read_steps(alloc, steps)?;
    let formula = Formula {
        vars: VARS,
        clauses: read_clauses(alloc, clauses)?,
    };
    judge(alloc, &formula, &proof)
}

/// Opposite units.
const UNITS: &[i8] = &[1, 0, -1, 0];

/// The second variable follows from these.
const SECOND: &[i8] = &[1, 2, 0, -1, 2, 0];

/// The first clause stands twice.
const TWICE: &[i8] = &[1, 2, 0, 2, 1, 2, 0, -1, 0];

/// Without its first clause the second forces nothing.
const CHAIN: &[i8] = &[1, 0, -1, 2, 0, -2, 0];

/// Of three things at least two, and of each two at most one.
const THREE: &[i8] = &[1, 2, 0, 1, 3, 0, 2, 3, 0, -1, -2, 0, -1, -3, 0, -2, -3, 0];

/// Clauses, steps, and what is said of them.
const ROWS: &[(&[i8], &[i8], Checked)] = &[
    // Opposite units are refuted at once.
    (UNITS, &[0], Checked::Yes),
    // A step that does not follow is named.
    (SECOND, &[2, 0, 0], Checked::No(1)),
    // A certificate ends with the empty clause.
    (SECOND, &[2, 0], Checked::No(1)),
    (UNITS, &[], Checked::No(0)),
    // One of two equal clauses is taken out: the other one forces the second variable.
    (TWICE, &[D, 1, 2, 0, 2, 0], Checked::No(2)),
    // None is left.
    (TWICE, &[D, 1, 2, 0, D, 2, 1, 0, 2, 0], Checked::No(2)),
    // There is nothing to take out.
    (TWICE, &[D, 1, 2, 0, D, 1, 2, 0, D, 1, 2, 0], Checked::No(2)),
    // What a clause forced is forgotten with it.
    (CHAIN, &[0], Checked::Yes),
    (CHAIN, &[D, 1, 0, 0], Checked::No(1)),
    // A tautology needs a conflict.
    (&[2, 0], &[1, -1, 0], Checked::No(0)),
    (&[1, 1, 0, -1, -1, 0], &[0], Checked::Yes),
    // A step helps the next.
    (THREE, &[-1, 0, 0], Checked::Yes),
    (THREE, &[0], Checked::No(0)),
];

#[test]
fn small_certificates_are_judged_as_defined(rt: HostRuntime) {
    for &(clauses, steps, checked) in ROWS {
        let found = answer(rt.alloc(), clauses, steps);
        assert!(rt; found == Ok(Some(checked)), "{steps:?}");
    }
}
