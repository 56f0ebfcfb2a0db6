// Decisions: a variable without a value gets one. Where there is none, all values are collected.

ghost use Rattle.std.specs.Prelude.{◌≡◌, ◌≤◌, ℕ, List, true, false, IfOk, MatchBool};
ghost use Rattle.sat_base.specs.declared.literal.Lit.{Lit};
ghost use Rattle.sat_trail.specs.Steps.{Tells};
ghost use Rattle.sat_trail.specs.Decided.{IsDecision, IsDecided, IsChoice};

use crate::activity::Activity;
use crate::trail::{Put, Step, Trail};
use sat_base::{Lit, OutOfMemory};
use std::alloc::Global;

/// What came of looking for a decision.
#[derive(Debug, Drop)]
pub enum Choice {
    /// One was put on the trail.
    Made,
    /// Every variable has a value: these.
    Full(Vec<bool>),
}

/// Decides a variable with this sign, if it has no value.
fn decide_sign(trail: &mut Trail, var: usize, neg: bool) -> Put
    ensures { IsDecided trail.old trail.new var result }
{
    let step = Step {
        lit: Lit { var, neg },
        implied: false,
        reason: None,
    };
    let len = trail.len();
    trail.put(len, step)
}

/// Decides a variable, with the sign that it had last, if it has no value.
fn decide_variable(trail: &mut Trail, activity: &Activity, var: usize) -> Put
    ensures { IsDecided trail.old trail.new var result }
{
    let neg = activity.sign(var);
    decide_sign(trail, var, neg)
}

/// The values of all variables, or a decision of one that has none.
fn collect(alloc: Global, trail: &mut Trail, activity: &Activity) -> Result<Choice, OutOfMemory>
    ensures { IfOk result (λ choice. IsChoice trail.old trail.new choice) }
{
    let mut values = Vec::new(alloc);
    for var in 0..trail.vars() {
        let value = match decide_variable(trail, activity, var) {
            Put::Done => return Ok(Choice::Made),
            Put::Taken(value) => value,
            Put::Absent => false,
        };
        values.push(value)?;
    }
    Ok(Choice::Full(values))
}

/// Decides the first of the preferred literals without a value, as false, if there is one.
fn decide_preferred(trail: &mut Trail, activity: &mut Activity) -> bool
    ensures { MatchBool result (IsDecision trail.old trail.new) (trail.new ≡ trail.old) }
{
    for _literal in 0..activity.preferred_count() {
        let lit = match activity.pass_preferred() {
            None => return false,
            Some(lit) => lit,
        };
        match decide_sign(trail, lit.var, !lit.neg) {
            Put::Done => return true,
            Put::Taken(_) => {}
            Put::Absent => {}
        }
    }
    false
}

/// Decides the most active of the variables without a value, if the order has one.
fn decide_active(trail: &mut Trail, activity: &mut Activity) -> bool
    ensures { MatchBool result (IsDecision trail.old trail.new) (trail.new ≡ trail.old) }
{
    for _variable in 0..trail.vars() {
        let var = match activity.pop() {
            None => return false,
            Some(var) => var,
        };
        match decide_variable(trail, activity, var) {
            Put::Done => return true,
            Put::Taken(_) => {}
            Put::Absent => {}
        }
    }
    false
}

/// Decides a variable without a value: that of a preferred literal if there is one, else the most
/// active one if the order has it.
pub fn decide(
    alloc: Global,
    trail: &mut Trail,
    activity: &mut Activity,
) -> Result<Choice, OutOfMemory>
    ensures { IfOk result (λ choice. IsChoice trail.old trail.new choice) }
{
    if decide_preferred(trail, activity) {
        return Ok(Choice::Made);
    }
    if decide_active(trail, activity) {
        return Ok(Choice::Made);
    }
    let choice = collect(alloc, trail, activity)?;
    Ok(choice)
}
