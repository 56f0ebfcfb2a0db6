//! Formulas, their certificates by the solver, and the tests that let the checker be called.

ghost use Rattle.std.specs.Prelude.{◌≡◌, ◌<◌, ◌++◌, ◌↔◌, [], length, take, All, IfOk, OnOk, IsTrue};
ghost use Rattle.sat_base.specs.Logic.{LitsBelow, ClausesBelow};
ghost use Rattle.rup_check.specs.Checked.{step_lits, StepsBelow};

use rup_check::{Checked, check_proof};
use sat_base::{Answer, Clause, ClauseList, Lit, Log, OutOfMemory, Solver, Step};
use sat_cdcl::Cdcl;
use std::alloc::Global;

/// A formula over so many variables.
#[derive(Drop)]
pub struct Formula {
    pub vars: usize,
    pub clauses: ClauseList,
}

fn are_below(vars: usize, lits: &[Lit]) -> bool
    ensures { IsTrue result ↔ LitsBelow vars lits.now }
{
    lits.iter().all(|lit| lit.var < vars)
}

fn clauses_below(vars: usize, clauses: &[Clause]) -> bool
    ensures { IsTrue result → ClausesBelow vars clauses.now }
{
    for clause in clauses {
        if !are_below(vars, clause.lits()) {
            return false;
        }
    }
    true
}

/// The literals of the clause that a step adds or takes out.
pub fn step_lits(step: &Step) -> &[Lit]
    ensures { result.now ≡ step_lits step.now }
{
    match step {
        Step::Add(clause) => clause.lits(),
        Step::Drop(clause) => clause.lits(),
    }
}

fn steps_below(vars: usize, steps: &[Step]) -> bool
    ensures { IsTrue result → StepsBelow vars steps.now }
{
    for step in steps {
        if !are_below(vars, step_lits(step)) {
            return false;
        }
    }
    true
}

/// What the checker says of these steps; none where the formula or a step has a variable that the formula has not.
pub fn judge(
    alloc: Global,
    formula: &Formula,
    steps: &Vec<Step>,
) -> Result<Option<Checked>, OutOfMemory> {
    if !clauses_below(formula.vars, formula.clauses.clauses())
        || !steps_below(formula.vars, steps)
    {
        return Ok(None);
    }
    let checked = check_proof(alloc, formula.vars, &formula.clauses, steps)?;
    Ok(Some(checked))
}

fn with_variables(alloc: Global, vars: usize) -> Result<Cdcl, OutOfMemory>
    ensures { IfOk result (λ solver. solver.vars ≡ vars) }
{
    let mut solver = Cdcl::new(alloc);
    for _var in 0..vars {
        solver.fresh()?;
    }
    Ok(solver)
}

fn add_clauses(solver: &mut Cdcl, clauses: &[Clause]) -> Result<(), OutOfMemory>
    requires { ClausesBelow solver.old.vars clauses.now }
{
    for clause in clauses {
        solver.add(clause.lits())?;
    }
    Ok(())
}

/// A copy of a step.
pub fn copy_of(alloc: Global, step: &Step) -> Result<Step, OutOfMemory> {
    let clause = Clause::of(alloc, step_lits(step))?;
    match step {
        Step::Add(_) => Ok(Step::Add(clause)),
        Step::Drop(_) => Ok(Step::Drop(clause)),
    }
}

fn copies_of(alloc: Global, steps: &[Step]) -> Result<Vec<Step>, OutOfMemory> {
    let mut copies = Vec::new(alloc);
    for step in steps {
        copies.push(copy_of(alloc, step)?)?;
    }
    Ok(copies)
}

/// The steps that the solver logs, if it finds no model.
fn logged(alloc: Global, solver: &mut Cdcl) -> Result<Option<Vec<Step>>, OutOfMemory> {
    let mut log = Log::new(alloc);
    match solver.solve_logged(&[], &mut log)? {
        Answer::Model => Ok(None),
        Answer::NoModel => Ok(Some(copies_of(alloc, log.steps())?)),
    }
}

/// The certificate that the solver logs, if it finds no model; none where a clause has a variable that the formula has not.
pub fn refutation(alloc: Global, formula: &Formula) -> Result<Option<Vec<Step>>, OutOfMemory> {
    if !clauses_below(formula.vars, formula.clauses.clauses()) {
        return Ok(None);
    }
    let mut solver = with_variables(alloc, formula.vars)?;
    match add_clauses(&mut solver, formula.clauses.clauses()) {
        Err(fault) => {
            drop(solver);
            Err(fault)
        }
        Ok(()) => {
            let steps = logged(alloc, &mut solver);
            drop(solver);
            steps
        }
    }
}
