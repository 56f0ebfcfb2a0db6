// Going back after a conflict: to the first decision at which the learnt clause would have implied
// its literal, or, where there is no such clause, to the last decision.

ghost use Rattle.std.specs.Prelude.{◌≡◌, ◌<◌, ◌+◌, List, true, false, Some, length, drop, slice_get, MatchBool, IsTrue};
ghost use Rattle.sat_base.specs.declared.literal.Lit.{Lit};
ghost use Rattle.sat_trail.specs.declared.trail.Step.{Step};
ghost use Rattle.sat_clauses.specs.Held.{Entails};
ghost use Rattle.sat_trail.specs.Steps.{AllImplied};
ghost use Rattle.sat_cdcl.specs.Answered.{Rises, Clashes};
ghost use Rattle.sat_cdcl.specs.Resolvents.{IsAsserting};

use sat_base::{Lit, OutOfMemory};
use sat_clauses::ClauseId;
use sat_trail::{Activity, Put, Step, Trail, open_beside};

/// Where a learnt clause leads back to.
#[derive(Clone, Copy, Debug)]
pub struct Target {
    /// The literal of the clause that became false last.
    pub asserted: Lit,
    /// The one that became false before it; the same where there is no other.
    pub second: Lit,
    /// The place of the first decision after the second.
    pub cut: usize,
}

/// The place at which a literal became false; 0 where it is not false.
fn place_of(trail: &Trail, lit: Lit) -> usize {
    trail.place_false(lit).unwrap_or(0)
}

/// The first decision at this place or behind it, or else the end of the trail.
fn decision_from(trail: &Trail, from: usize) -> usize {
    for place in from..trail.len() {
        if !trail.at(place).implied {
            return place;
        }
    }
    trail.len()
}

/// Where a clause of false literals leads back to. Nothing rests on the answer.
pub fn find_target(trail: &Trail, clause: &[Lit]) -> Option<Target> {
    let mut asserted = clause.first().copied()?;
    let mut second = asserted;
    for lit in clause {
        let place = place_of(trail, *lit);
        if place > place_of(trail, asserted) {
            second = asserted;
            asserted = *lit;
        } else if *lit != asserted && (second == asserted || place > place_of(trail, second)) {
            second = *lit;
        }
    }
    let from = if second == asserted {
        0
    } else {
        place_of(trail, second).saturating_add(1)
    };
    let cut = decision_from(trail, from);
    Some(Target {
        asserted,
        second,
        cut,
    })
}

/// Whether the clause asserts this literal once the trail is cut at place k, where a decision stands.
pub fn is_asserting(trail: &Trail, clause: &[Lit], lit: Lit, k: usize) -> bool
    ensures { IsTrue result → IsAsserting trail.now.steps clause.now lit k }
{
    if k >= trail.len() || trail.at(k).implied {
        return false;
    }
    open_beside(trail, clause, k, lit).is_none()
}

/// Makes the variables of the steps from this place on ready for a decision.
pub fn reopen(trail: &Trail, activity: &mut Activity, from: usize) -> Result<(), OutOfMemory> {
    for place in from..trail.len() {
        activity.reopen(trail.at(place).lit)?;
    }
    Ok(())
}

/// Goes back to a decision, and puts the literal that the clause asserts there; false, and nothing
/// changes, where its variable has a value there already or is none.
pub fn jump(trail: &mut Trail, clause: &[Lit], lit: Lit, k: usize, reason: ClauseId) -> bool
    requires { IsAsserting trail.old.steps clause.now lit k }
    ensures { MatchBool result
        ((clauses : List (List Lit)) (assumed : List Lit) → Entails clauses clause.now → Rises clauses assumed trail.old trail.new)
        (trail.new ≡ trail.old) }
{
    let _room = trail.len();
    let step = Step {
        lit,
        implied: true,
        reason: Some(reason),
    };
    match trail.put(k, step) {
        Put::Done => true,
        Put::Taken(_) => false,
        Put::Absent => false,
    }
}

/// Goes back to the last decision, which gives way to its negation.
pub fn flip_last(trail: &mut Trail, k: usize)
    requires inside { k < length trail.old.steps }
    requires decision { (s : Step) → slice_get trail.old.steps k ≡ Some s → s.implied ≡ false }
    requires last { AllImplied (drop (k + 1) trail.old.steps) }
    ensures { (clauses : List (List Lit)) (assumed : List Lit) → Clashes clauses assumed trail.old.steps
        → Rises clauses assumed trail.old trail.new }
{
    let _room = trail.len();
    trail.flip(k);
}
