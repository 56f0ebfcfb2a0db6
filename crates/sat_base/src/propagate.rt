// Unit propagation over a partial assignment: a clause of which all literals but one are false
// gives that one its value, until no clause gives a value any more.

ghost use Rattle.std.specs.Prelude.{◌≡◌, length};
ghost use Rattle.sat_base.specs.Marks.{mark, lit_mark};
ghost use Rattle.sat_base.specs.Logic.{LitsBelow, ClausesBelow};
ghost use Rattle.sat_base.specs.Propagation.{IsLook, IsPass, IsPropagated};

use crate::{Clause, Lit};

/// What a clause says under a partial assignment.
#[derive(Clone, Copy)]
pub enum Look {
    /// One of its literals is true.
    Satisfied,
    /// All its literals are false.
    Falsified,
    /// All its literals are false but this one, which has no value.
    Unit(Lit),
    /// This literal and another have no value.
    Open(Lit),
}

/// What one pass over the clauses came to.
#[derive(Clone, Copy)]
pub enum Pass {
    /// The clauses leave no value to some variable.
    Conflict,
    /// Every clause has a true literal.
    Satisfied,
    /// Some variables were given their values.
    Changed,
    /// Nothing changed, and this variable has no value.
    Open(usize),
}

/// What unit propagation came to.
#[derive(Clone, Copy)]
pub enum Propagated {
    /// The clauses leave no value to some variable.
    Conflict,
    /// Every clause has a true literal.
    Satisfied,
    /// No clause gives a value any more, and this variable has none.
    Open(usize),
}

/// The value of a variable, if it has one.
#[tactic(auto, unfolding(crate::specs::Marks::mark))]
fn mark(marks: &[Option<bool>], var: usize) -> Option<bool>
    ensures { result ≡ mark marks.now var }
{
    marks.get(var).copied().unwrap_or(None)
}

/// The value of a literal, if its variable has one.
pub fn lit_mark(marks: &[Option<bool>], lit: Lit) -> Option<bool>
    ensures { result ≡ lit_mark marks.now lit }
{
    match mark(marks, lit.var) {
        Some(value) if lit.neg => Some(!value),
        value => value,
    }
}

/// Looks at one clause.
fn look_at(clause: &[Lit], marks: &[Option<bool>]) -> Look
    requires { LitsBelow (length marks.now) clause.now }
    ensures { IsLook clause.now marks.now result }
{
    let mut unset = None;
    let mut several = false;
    for lit in clause {
        match lit_mark(marks, *lit) {
            Some(true) => return Look::Satisfied,
            Some(false) => {}
            None => {
                several = unset.is_some();
                unset = Some(*lit);
            }
        }
    }
    match unset {
        None => Look::Falsified,
        Some(lit) if several => Look::Open(lit),
        Some(lit) => Look::Unit(lit),
    }
}

/// Looks at each clause once, and gives a variable its value where a clause leaves it no other.
fn pass_over(clauses: &[Clause], marks: &mut [Option<bool>]) -> Pass
    requires { ClausesBelow (length marks.old) clauses.now }
    ensures { IsPass clauses.now marks.old marks.new result }
{
    let mut unset = None;
    let mut changed = false;
    for clause in clauses {
        match look_at(clause.lits(), marks) {
            Look::Satisfied => {}
            Look::Falsified => return Pass::Conflict,
            Look::Unit(lit) => {
                marks[lit.var] = Some(!lit.neg);
                changed = true;
            }
            Look::Open(lit) => {
                unset = unset.or(Some(lit.var));
            }
        }
    }
    match unset {
        None => Pass::Satisfied,
        Some(_) if changed => Pass::Changed,
        Some(var) => Pass::Open(var),
    }
}

/// Gives variables the values that clauses force, as long as some clause forces one.
pub fn propagate(clauses: &[Clause], marks: &mut [Option<bool>]) -> Propagated
    requires { ClausesBelow (length marks.old) clauses.now }
    ensures { IsPropagated clauses.now marks.old marks.new result }
{
    loop {
        match pass_over(clauses, marks) {
            Pass::Conflict => return Propagated::Conflict,
            Pass::Satisfied => return Propagated::Satisfied,
            Pass::Open(var) => return Propagated::Open(var),
            Pass::Changed => {}
        }
    }
}
