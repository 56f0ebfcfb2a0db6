// Whether some assignment satisfies a formula.

ghost use Rattle.std.specs.Prelude.{◌≡◌, [], length, true, IfOk};
ghost use Rattle.sat_base.specs.Logic.{satisfied, at};
ghost use Rattle.drat_text.specs.Certificate.{IsBelow};
ghost use Rattle.cnf_answers.specs.Decided.{IsDecided, ShowsModel};

use crate::solver::{solver_of, true_lits};
use crate::values::values_text;
use drat_text::Certificate;
use sat_base::{Answer, OutOfMemory, Solver};
use sat_cdcl::Cdcl;
use std::alloc::Global;

/// What was decided of a formula.
#[derive(Debug, Drop)]
pub enum Decided {
    /// Some assignment satisfies it: the lines of the values of one.
    Model(Vec<u8>),
    /// None does.
    NoModel,
}

/// The lines of the values of the model that was found.
pub fn model_text(
    alloc: Global,
    formula: &Certificate,
    solver: &Cdcl,
) -> Result<Vec<u8>, OutOfMemory>
    requires size { length solver.now.found ≡ formula.now.vars }
    requires satisfied { satisfied (at solver.now.found) formula.now.clauses [] ≡ true }
    ensures { IfOk result (λ text. ShowsModel formula.now text.items) }
{
    let vars = formula.vars();
    let lits = true_lits(alloc, solver, vars)?;
    values_text(alloc, vars, &lits)
}

/// Decides a formula, whose steps are not looked at.
pub fn decide(alloc: Global, formula: &Certificate) -> Result<Decided, OutOfMemory>
    requires { IsBelow formula.now }
    ensures { IfOk result (IsDecided formula.now) }
{
    let mut solver = solver_of(alloc, formula.vars(), formula.clauses().clauses())?;
    match solver.solve(&[])? {
        Answer::Model => {
            let text = model_text(alloc, formula, &solver)?;
            Ok(Decided::Model(text))
        }
        Answer::NoModel => Ok(Decided::NoModel),
    }
}
