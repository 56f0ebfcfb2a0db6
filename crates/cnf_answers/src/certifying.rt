// Whether some assignment satisfies a formula, with a certificate where none does.

ghost use Rattle.std.specs.Prelude.{◌≡◌, ◌≤◌, ◌↔◌, IfOk, IsTrue, length};
ghost use Rattle.std.specs.List.{All};
ghost use Rattle.sat_base.specs.Logic.{LitsBelow};
ghost use Rattle.drat_text.specs.Certificate.{IsBelow, StepBelow};
ghost use Rattle.drat_text.specs.Numbers.{greatest};
ghost use Rattle.drat_text.specs.Reading.{spelled, Spells};
ghost use Rattle.cnf_answers.specs.Decided.{IsCertified};

use crate::deciding::model_text;
use crate::solver::solver_of;
use drat_text::{Certificate, write_parts, written_is_read_back};
use sat_base::{Answer, Lit, Log, OutOfMemory, Step};
use std::alloc::Global;

/// What was decided of a formula.
#[derive(Debug, Drop)]
pub enum Certified {
    /// Some assignment satisfies it: the lines of the values of one.
    Model(Vec<u8>),
    /// None does: the text of the formula with a certificate.
    Refuted(Vec<u8>),
}

/// The greatest number of variables, and of clauses, that a text may have.
const GREATEST: usize = 2_147_483_647;

fn are_below(vars: usize, lits: &[Lit]) -> bool
    ensures { IsTrue result ↔ LitsBelow vars lits.now }
{
    lits.iter().all(|lit| lit.var < vars)
}

fn is_step_below(vars: usize, step: &Step) -> bool
    ensures { IsTrue result ↔ StepBelow vars step.now }
{
    match step {
        Step::Add(clause) => are_below(vars, clause.lits()),
        Step::Drop(clause) => are_below(vars, clause.lits()),
    }
}

fn steps_below(vars: usize, steps: &[Step]) -> bool
    ensures { IsTrue result → All (StepBelow vars) steps.now }
{
    for step in steps {
        if !is_step_below(vars, step) {
            return false;
        }
    }
    true
}

/// The text of the formula with these steps. No clause of the solver says that the variables of its steps are those
/// of the formula, nor one of the reader that there are not too many clauses for a text, so both are tested here; if
/// a test failed, the answer would be OutOfMemory.
fn certificate_text(
    alloc: Global,
    formula: &Certificate,
    steps: &[Step],
) -> Result<Vec<u8>, OutOfMemory>
    requires { IsBelow formula.now }
    ensures { IfOk result (λ text. spelled text.items
        ≡ Spells (record { vars = formula.now.vars; clauses = formula.now.clauses; steps = steps.now })) }
{
    let vars = formula.vars();
    let clauses = formula.clauses().clauses();
    if vars > GREATEST || clauses.len() > GREATEST || !steps_below(vars, steps) {
        return Err(OutOfMemory);
    }
    written_is_read_back();
    write_parts(alloc, vars, clauses, steps)
}

/// Decides a formula, whose steps are not looked at, and gives a certificate where no assignment satisfies it.
pub fn certify(alloc: Global, formula: &Certificate) -> Result<Certified, OutOfMemory>
    requires { IsBelow formula.now }
    ensures { IfOk result (IsCertified formula.now) }
{
    let mut solver = solver_of(alloc, formula.vars(), formula.clauses().clauses())?;
    let mut log = Log::new(alloc);
    match solver.solve_logged(&[], &mut log)? {
        Answer::Model => {
            let text = model_text(alloc, formula, &solver)?;
            Ok(Certified::Model(text))
        }
        Answer::NoModel => {
            let text = certificate_text(alloc, formula, log.steps())?;
            Ok(Certified::Refuted(text))
        }
    }
}
