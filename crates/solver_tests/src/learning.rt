//! Questions to `Cdcl` whose answers are known, several on one solver, and logs of refutations.

ghost use Rattle.std.specs.Prelude.{◌≡◌, ◌<◌, IfOk};

use crate::literals::{all_below, negative, positive};
use sat_base::{Answer, Lit, Log, OutOfMemory, Solver, Step};
use sat_cdcl::Cdcl;
use std::alloc::Global;

/// A solver of so many variables, and no clause.
fn with_variables(alloc: Global, count: usize) -> Result<Cdcl, OutOfMemory>
    ensures { IfOk result (λ solver. solver.vars ≡ count) }
{
    let mut solver = Cdcl::new(alloc);
    for _var in 0..count {
        solver.fresh()?;
    }
    Ok(solver)
}

/// A solver of 64 variables.
#[derive(Drop)]
struct Large {
    cdcl: Cdcl,
    ghost vars: { cdcl.vars ≡ 64 },
}

impl Large {
    fn new(alloc: Global) -> Result<Large, OutOfMemory> {
        let cdcl = with_variables(alloc, 64)?;
        Ok(Large { cdcl })
    }

    /// Adds a clause over the variables; whether it is one.
    fn add(&mut self, clause: &[Lit]) -> Result<bool, OutOfMemory> {
        if !all_below(clause, 64) {
            return Ok(false);
        }
        self.cdcl.add(clause)?;
        Ok(true)
    }

    /// The answer under assumptions over the variables; none under others.
    fn ask(&mut self, assumed: &[Lit]) -> Result<Option<Answer>, OutOfMemory> {
        if !all_below(assumed, 64) {
            return Ok(None);
        }
        let answer = self.cdcl.solve(assumed)?;
        Ok(Some(answer))
    }

    /// The same, with a log.
    fn ask_logged(
        &mut self,
        assumed: &[Lit],
        log: &mut Log,
    ) -> Result<Option<Answer>, OutOfMemory> {
        if !all_below(assumed, 64) {
            return Ok(None);
        }
        let answer = self.cdcl.solve_logged(assumed, log)?;
        Ok(Some(answer))
    }

    /// The value of a variable in the model, if there is one.
    fn value_of(&mut self, var: usize) -> Result<Option<bool>, OutOfMemory>
        requires { var < 64 }
    {
        match self.cdcl.solve(&[])? {
            Answer::Model => Ok(Some(self.cdcl.model(var))),
            Answer::NoModel => Ok(None),
        }
    }
}

/// Whether the last step adds the clause without a literal.
fn ends_empty(log: &Log) -> bool {
    match log.steps().last() {
        Some(Step::Add(clause)) => clause.lits().is_empty(),
        _ => false,
    }
}

/// Of two variables one holds, and the first does not: so the second does, in a model and not under an assumption.
fn second_holds(solver: &mut Large) -> Result<bool, OutOfMemory> {
    let added = solver.add(&[positive(0), positive(1)])? && solver.add(&[negative(0)])?;
    let without = solver.ask(&[negative(1)])?;
    let value = solver.value_of(1)?;
    Ok(added && without == Some(Answer::NoModel) && value == Some(true))
}

/// With the empty clause there is no model.
fn empty_clause_answers(solver: &mut Large) -> Result<bool, OutOfMemory> {
    let free = solver.ask(&[])?;
    let added = solver.add(&[])?;
    let with = solver.ask(&[positive(0)])?;
    Ok(free == Some(Answer::Model) && added && with == Some(Answer::NoModel))
}

/// What is refuted under an assumption ends the log; opposite assumptions add nothing to it.
fn refutation_is_logged(solver: &mut Large, log: &mut Log) -> Result<bool, OutOfMemory> {
    let added = solver.add(&[positive(0), positive(1)])?
        && solver.add(&[positive(0), negative(1)])?;
    let answer = solver.ask_logged(&[negative(0)], log)?;
    let ends = ends_empty(log);
    let opposed = solver.ask_logged(&[positive(2), negative(2)], log)?;
    Ok(
        added
            && answer == Some(Answer::NoModel)
            && ends
            && opposed == Some(Answer::NoModel)
            && log.steps().len() == 1,
    )
}

/// What is asked of a new solver.
#[derive(Clone, Copy)]
enum Question {
    Second,
    Empty,
    Logged,
}

/// Whether a new solver answers as it should.
fn is_answered(alloc: Global, question: Question) -> Result<bool, OutOfMemory> {
    let mut log = Log::new(alloc);
    let mut solver = Large::new(alloc)?;
    match question {
        Question::Second => second_holds(&mut solver),
        Question::Empty => empty_clause_answers(&mut solver),
        Question::Logged => refutation_is_logged(&mut solver, &mut log),
    }
}

#[test]
fn assumptions_hold_for_one_question(rt: HostRuntime) {
    assert!(rt; is_answered(rt.alloc(), Question::Second) == Ok(true));
}

#[test]
fn an_empty_clause_answers_at_once(rt: HostRuntime) {
    assert!(rt; is_answered(rt.alloc(), Question::Empty) == Ok(true));
}

#[test]
fn a_refutation_leaves_a_log(rt: HostRuntime) {
    assert!(rt; is_answered(rt.alloc(), Question::Logged) == Ok(true));
}
