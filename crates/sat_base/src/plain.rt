// `Plain`: the solver that splits. It begins each question anew, from the clauses alone.

ghost use Rattle.std.specs.Prelude.{◌≡◌, ℕ, Bool, [], true, false, None, length, replicate, IfOk, MatchOption};
ghost use Rattle.sat_base.specs.Logic.{ClausesBelow, LitsBelow, satisfied, at};
ghost use Rattle.sat_base.specs.Propagation.{IsAssumed};

use crate::propagate::lit_mark;
use crate::split::search;
use crate::{Answer, Clause, Lit, OutOfMemory, Solver};
use std::alloc::Global;
use std::marker::Model;

/// A solver that propagates units, and else tries both values of a variable. Contracts see the
/// number of variables, the clauses, and the values that were found last.
#[derive(Debug, Drop)]
pub struct Plain {
    alloc: Global,
    vars: usize,
    clauses: Vec<Clause>,
    found: Vec<bool>,
}

impl Model for Plain {
    ghost use Rattle.sat_base.specs.PlainState.{PlainState};
    ghost use Rattle.sat_base.specs.Logic.{ClausesBelow};

    ghost Value = { PlainState };

    ghost view = { λ p. record { vars = p.vars; clauses = p.clauses.items; found = p.found.items } };

    ghost invariant = { λ p. ClausesBelow p.vars p.clauses.items };
}

impl Plain {
    /// A solver with no variable and no clause. It takes no memory.
    pub fn new(alloc: Global) -> Plain
        ensures vars { result.vars ≡ 0 }
        ensures clauses { result.clauses ≡ [] }
    {
        Plain {
            alloc,
            vars: 0,
            clauses: Vec::new(alloc),
            found: Vec::new(alloc),
        }
    }
}

impl Solver for Plain {
    ghost vars = { λ p. p.vars };

    ghost clauses = { λ p. p.clauses };

    ghost found = { λ p. p.found };

    fn fresh(&mut self) -> Result<usize, OutOfMemory> {
        let var = self.vars;
        self.vars = var.checked_add(1).ok_or(OutOfMemory)?;
        Ok(var)
    }

    fn add(&mut self, clause: &[Lit]) -> Result<(), OutOfMemory> {
        let clause = Clause::of(self.alloc, clause)?;
        self.clauses.push(clause)?;
        Ok(())
    }

    fn solve(&mut self, assumed: &[Lit]) -> Result<Answer, OutOfMemory> {
        let mut marks = blank(self.alloc, self.vars)?;
        let clauses = self.clauses.as_slice();
        match answered(self.alloc, clauses, assumed, marks.as_mut_slice())? {
            None => Ok(Answer::NoModel),
            Some(values) => {
                self.found = values;
                Ok(Answer::Model)
            }
        }
    }

    fn prefer(&mut self, _lits: Vec<Lit>) {}

    #[tactic(auto, unfolding(crate::specs::Logic::at))]
    fn model(&self, var: usize) -> bool {
        self.found[var]
    }
}

/// Gives the variables of the assumed literals their values. Where two of these disagree, or one
/// with the values that are there, the answer is false.
fn assume(marks: &mut [Option<bool>], assumed: &[Lit]) -> bool
    requires { LitsBelow (length marks.old) assumed.now }
    ensures { IsAssumed assumed.now marks.old marks.new result }
{
    for lit in assumed {
        match lit_mark(marks, *lit) {
            Some(true) => {}
            Some(false) => return false,
            None => marks[lit.var] = Some(!lit.neg),
        }
    }
    true
}

/// Marks that give this many variables no value.
fn blank(alloc: Global, vars: usize) -> Result<Vec<Option<bool>>, OutOfMemory>
    ensures { IfOk result (λ marks. marks.items ≡ replicate vars None) }
{
    let marks = vec![in alloc; None; vars]?;
    Ok(marks)
}

/// Values for all variables that satisfy the clauses and make the assumed literals true, or `None`
/// where there are none. The marks give no value yet; they are used up.
fn answered(
    alloc: Global,
    clauses: &[Clause],
    assumed: &[Lit],
    marks: &mut [Option<bool>],
) -> Result<Option<Vec<bool>>, OutOfMemory>
    requires clauses { ClausesBelow (length marks.old) clauses.now }
    requires assumed { LitsBelow (length marks.old) assumed.now }
    requires blank { marks.old ≡ replicate (length marks.old) None }
    ensures { IfOk result (λ found. MatchOption found
        ((f : ℕ → Bool) → satisfied f clauses.now assumed.now ≡ false)
        (λ values. (length values.items ≡ length marks.old)
        × (satisfied (at values.items) clauses.now assumed.now ≡ true))) }
{
    if !assume(marks, assumed) {
        return Ok(None);
    }
    let found = search(alloc, clauses, marks)?;
    Ok(found)
}
