//! What the solver refutes is accepted: every formula of three clauses over three variables, and pigeons.

ghost use Rattle.std.specs.Prelude.{◌<◌, ◌≤◌};

use crate::formulas::{Formula, judge, refutation};
use rup_check::Checked;
use sat_base::{Clause, ClauseList, Lit, OutOfMemory, Step};
use std::alloc::Global;

/// There are so many clauses over three variables in which no variable stands twice.
const CLAUSES: usize = 27;

/// Whether the solver refutes the formula, and the checker accepts its certificate.
fn is_refuted(alloc: Global, formula: &Formula) -> Result<bool, OutOfMemory> {
    match refutation(alloc, formula)? {
        Some(steps) => is_accepted(alloc, formula, &steps),
        None => Ok(false),
    }
}

fn is_accepted(alloc: Global, formula: &Formula, steps: &Vec<Step>) -> Result<bool, OutOfMemory> {
    let checked = judge(alloc, formula, steps)?;
    Ok(checked == Some(Checked::Yes))
}

/// The clause of a number: its digits in base 3 say of each variable whether it stands there, and with which sign.
fn clause_of(alloc: Global, number: usize) -> Result<Clause, OutOfMemory> {
    let mut lits = Vec::new(alloc);
    let mut rest = number;
    for var in 0..3 {
        if rest % 3 != 0 {
            lits.push(Lit {
                var,
                neg: rest % 3 == 2,
            })?;
        }
        rest /= 3;
    }
    Clause::of(alloc, &lits)
}

/// The formula of the clauses of these numbers.
fn formula_of(alloc: Global, numbers: &[usize]) -> Result<Formula, OutOfMemory> {
    let mut clauses = ClauseList::new(alloc);
    for number in numbers {
        clauses.push(clause_of(alloc, *number)?)?;
    }
    Ok(Formula { vars: 3, clauses })
}

/// How many of the formulas with these first two clauses are refuted.
fn refuted_with(alloc: Global, one: usize, two: usize) -> Result<u32, OutOfMemory> {
    let mut count: u32 = 0;
    for three in two..CLAUSES {
        let formula = formula_of(alloc, &[one, two, three])?;
        if is_refuted(alloc, &formula)? {
            count = count.saturating_add(1);
        }
    }
    Ok(count)
}

/// How many formulas of three clauses are refuted. The order of clauses does not matter, so the numbers rise.
fn refuted(alloc: Global) -> Result<u32, OutOfMemory> {
    let mut count: u32 = 0;
    for one in 0..CLAUSES {
        for two in one..CLAUSES {
            count = count.saturating_add(refuted_with(alloc, one, two)?);
        }
    }
    Ok(count)
}

/// Of 3,654 formulas 480 have no model: counted by a program that tries all eight assignments of each.
#[test]
fn three_clauses_over_three_variables(rt: HostRuntime) {
    assert!(rt; refuted(rt.alloc()) == Ok(480));
}

/// There are so many pigeons and holes at most.
const PIGEONS: usize = 8;

const HOLES: usize = 7;

/// The literal that says that this pigeon is in this hole, or that it is not.
fn inside(pigeon: usize, hole: usize, neg: bool) -> Lit
    requires pigeon { pigeon < PIGEONS }
    requires hole { hole < HOLES }
{
    Lit {
        var: HOLES * pigeon + hole,
        neg,
    }
}

/// The pigeon is in some of so many holes.
fn some_hole(alloc: Global, pigeon: usize, holes: usize) -> Result<Clause, OutOfMemory>
    requires pigeon { pigeon < PIGEONS }
    requires holes { holes ≤ HOLES }
{
    let mut lits = Vec::new(alloc);
    for hole in 0..holes {
        lits.push(inside(pigeon, hole, false))?;
    }
    Clause::of(alloc, &lits)
}

/// No two of the pigeons up to this one are in this hole.
fn at_most_one(
    clauses: &mut ClauseList,
    alloc: Global,
    pigeon: usize,
    hole: usize,
) -> Result<(), OutOfMemory>
    requires pigeon { pigeon < PIGEONS }
    requires hole { hole < HOLES }
{
    for other in 0..pigeon {
        let lits = [inside(pigeon, hole, true), inside(other, hole, true)];
        clauses.push(Clause::of(alloc, &lits)?)?;
    }
    Ok(())
}

fn in_each_hole(
    clauses: &mut ClauseList,
    alloc: Global,
    pigeon: usize,
    holes: usize,
) -> Result<(), OutOfMemory>
    requires pigeon { pigeon < PIGEONS }
    requires holes { holes ≤ HOLES }
{
    for hole in 0..holes {
        at_most_one(clauses, alloc, pigeon, hole)?;
    }
    Ok(())
}

/// Each of so many pigeons is in one of so many holes, and no two in one.
fn pigeons(alloc: Global, count: usize, holes: usize) -> Result<Formula, OutOfMemory>
    requires count { count ≤ PIGEONS }
    requires holes { holes ≤ HOLES }
{
    let mut clauses = ClauseList::new(alloc);
    for pigeon in 0..count {
        clauses.push(some_hole(alloc, pigeon, holes)?)?;
        in_each_hole(&mut clauses, alloc, pigeon, holes)?;
    }
    Ok(Formula {
        vars: PIGEONS * HOLES,
        clauses,
    })
}

/// Whether it is refuted that five pigeons fit into four holes.
fn five_are_refuted(alloc: Global) -> Result<bool, OutOfMemory> {
    let formula = pigeons(alloc, 5, 4)?;
    is_refuted(alloc, &formula)
}

#[test]
fn five_pigeons_do_not_fit_into_four_holes(rt: HostRuntime) {
    assert!(rt; five_are_refuted(rt.alloc()) == Ok(true));
}

fn takes_out(steps: &[Step]) -> bool {
    steps.iter().any(|step| matches!(step, Step::Drop(_)))
}

/// Whether it is refuted that eight pigeons fit into seven holes, by a certificate that is long and takes clauses out.
fn eight_are_refuted(alloc: Global) -> Result<bool, OutOfMemory> {
    let formula = pigeons(alloc, 8, 7)?;
    match refutation(alloc, &formula)? {
        Some(steps) => {
            let is_long = steps.len() > 1000 && takes_out(&steps);
            Ok(is_long && is_accepted(alloc, &formula, &steps)?)
        }
        None => Ok(false),
    }
}

/// More than a thousand conflicts, so that the solver deletes clauses and uses their numbers again; its certificate takes
/// them out.
#[test]
fn eight_pigeons_do_not_fit_into_seven_holes(rt: HostRuntime) {
    assert!(rt; eight_are_refuted(rt.alloc()) == Ok(true));
}
