// The solver of a formula, and the literals of the model that it found.

ghost use Rattle.std.specs.Prelude.{◌≡◌, ◌++◌, [], length, IfOk, OnOk};
ghost use Rattle.sat_base.specs.Logic.{ClausesBelow};
ghost use Rattle.cnf_answers.specs.Models.{true_lits};

use sat_base::{Clause, Lit, OutOfMemory, Solver};
use sat_cdcl::Cdcl;
use std::alloc::Global;

/// A solver of so many variables, and no clause.
fn with_variables(alloc: Global, vars: usize) -> Result<Cdcl, OutOfMemory>
    ensures { IfOk result (λ solver. (solver.vars ≡ vars) × (solver.clauses ≡ [])) }
{
    let mut solver = Cdcl::new(alloc);
    for _var in 0..vars {
        solver.fresh()?;
    }
    Ok(solver)
}

/// Adds these clauses.
fn add_clauses(solver: &mut Cdcl, clauses: &[Clause]) -> Result<(), OutOfMemory>
    requires { ClausesBelow solver.old.vars clauses.now }
    ensures vars { solver.new.vars ≡ solver.old.vars }
    ensures clauses { OnOk result (solver.new.clauses ≡ solver.old.clauses ++ clauses.now) }
{
    for clause in clauses {
        solver.add(clause.lits())?;
    }
    Ok(())
}

/// A solver of these clauses over so many variables.
pub fn solver_of(alloc: Global, vars: usize, clauses: &[Clause]) -> Result<Cdcl, OutOfMemory>
    requires { ClausesBelow vars clauses.now }
    ensures { IfOk result (λ solver. (solver.vars ≡ vars) × (solver.clauses ≡ clauses.now)) }
{
    let mut solver = with_variables(alloc, vars)?;
    add_clauses(&mut solver, clauses)?;
    Ok(solver)
}

/// The literals that the model makes true which was found, one of each variable.
pub fn true_lits(alloc: Global, solver: &Cdcl, vars: usize) -> Result<Vec<Lit>, OutOfMemory>
    requires { length solver.now.found ≡ vars }
    ensures { IfOk result (λ lits. lits.items ≡ true_lits 0 solver.now.found) }
{
    let mut lits = Vec::new(alloc);
    for var in 0..vars {
        let neg = !solver.model(var);
        lits.push(Lit { var, neg })?;
    }
    Ok(lits)
}
