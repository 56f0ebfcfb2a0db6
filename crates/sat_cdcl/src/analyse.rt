// Analysis of a conflict. The clause of the conflict is resolved, from the end of the trail back,
// with the clauses that implied its literals, until one literal of it is left that became false
// after the last decision. Each clause on the way holds wherever the given clauses do, and follows from
// the clauses that are held by unit propagation, whatever is resolved with what, so no answer rests on
// the reasons or on the order.

ghost use Rattle.std.specs.Prelude.{◌≡◌, ◌≤◌, [], true, length, IfOk};
ghost use Rattle.sat_clauses.specs.Held.{Entails};
ghost use Rattle.sat_clauses.specs.Certified.{IsInferred};
ghost use Rattle.sat_cdcl.specs.Resolvents.{Takes, TakesAll};

use crate::resolvent::Resolvent;
use sat_base::{Lit, OutOfMemory};
use sat_clauses::{ClauseId, Clauses};
use sat_trail::{Activity, Step, Trail};

/// Whether a literal became false at this place of the trail or behind it.
fn is_recent(trail: &Trail, lit: Lit, start: usize) -> bool {
    match trail.place_false(lit) {
        None => false,
        Some(place) => place >= start,
    }
}

/// Puts a literal into the resolvent, and makes its variable more active if it is new there.
fn take_one(
    trail: &Trail,
    activity: &mut Activity,
    resolvent: &mut Resolvent,
    lit: Lit,
    start: usize,
) -> Result<(), OutOfMemory>
    ensures { IfOk result (λ _. Takes resolvent.old resolvent.new lit) }
{
    let recent = is_recent(trail, lit, start);
    let is_new = resolvent.insert(lit, recent)?;
    if is_new {
        activity.bump(lit.var);
    }
    Ok(())
}

/// Puts the literals of a clause into the resolvent, all but this one.
fn take_all(
    trail: &Trail,
    activity: &mut Activity,
    resolvent: &mut Resolvent,
    clause: &[Lit],
    but: Option<Lit>,
    start: usize,
) -> Result<(), OutOfMemory>
    ensures { IfOk result (λ _. TakesAll resolvent.old resolvent.new clause.now but) }
{
    for lit in clause {
        if Some(*lit) != but {
            take_one(trail, activity, resolvent, *lit, start)?;
        }
    }
    Ok(())
}

/// Resolves with the clause that implied a step, if the step's negation is in the resolvent and a
/// clause implied it.
fn resolve_step(
    trail: &Trail,
    clauses: &Clauses,
    activity: &mut Activity,
    resolvent: &mut Resolvent,
    step: Step,
    start: usize,
) -> Result<(), OutOfMemory>
    ensures entailed { IfOk result (λ _. Entails clauses.now.given resolvent.old → Entails clauses.now.given resolvent.new) }
    ensures inferred { IfOk result (λ _. IsInferred clauses.now resolvent.old → IsInferred clauses.now resolvent.new) }
{
    let gone = step.lit.negated();
    let place = match resolvent.place(gone) {
        None => return Ok(()),
        Some(place) => place,
    };
    let reason = match step.reason {
        None => return Ok(()),
        Some(reason) => reason,
    };
    let clause = match clauses.get(reason) {
        None => return Ok(()),
        Some(clause) => clause,
    };
    activity.bump_clause(reason);
    let recent = is_recent(trail, gone, start);
    resolvent.remove(place, recent);
    take_all(trail, activity, resolvent, clause, Some(step.lit), start)
}

/// The step that made a literal false, if a clause implied it whose other literals are all in the
/// resolvent.
fn redundant_step(
    trail: &Trail,
    clauses: &Clauses,
    resolvent: &Resolvent,
    lit: Lit,
) -> Option<Step> {
    let step = trail.at(trail.place_false(lit)?);
    let clause = clauses.get(step.reason?)?;
    if clause.iter().all(|other| *other == step.lit || resolvent.place(*other).is_some()) {
        Some(step)
    } else {
        None
    }
}

/// Takes the literal at a place out of the resolvent, if the others make it redundant.
fn shrink_one(
    trail: &Trail,
    clauses: &Clauses,
    activity: &mut Activity,
    resolvent: &mut Resolvent,
    place: usize,
    start: usize,
) -> Result<(), OutOfMemory>
    ensures entailed { IfOk result (λ _. Entails clauses.now.given resolvent.old → Entails clauses.now.given resolvent.new) }
    ensures inferred { IfOk result (λ _. IsInferred clauses.now resolvent.old → IsInferred clauses.now resolvent.new) }
{
    let lit = match resolvent.lits().get(place).copied() {
        None => return Ok(()),
        Some(lit) => lit,
    };
    match redundant_step(trail, clauses, resolvent, lit) {
        None => Ok(()),
        Some(step) => resolve_step(trail, clauses, activity, resolvent, step, start),
    }
}

/// Takes literals out of the resolvent that the others make redundant, from the last on.
fn shrink(
    trail: &Trail,
    clauses: &Clauses,
    activity: &mut Activity,
    resolvent: &mut Resolvent,
    start: usize,
) -> Result<(), OutOfMemory>
    ensures entailed { IfOk result (λ _. Entails clauses.now.given resolvent.old → Entails clauses.now.given resolvent.new) }
    ensures inferred { IfOk result (λ _. IsInferred clauses.now resolvent.old → IsInferred clauses.now resolvent.new) }
{
    let mut behind = resolvent.lits().len();
    while behind > 0 {
        behind -= 1;
        shrink_one(trail, clauses, activity, resolvent, behind, start)?;
    }
    Ok(())
}

/// Makes the resolvent the clause of a conflict, resolved with the clauses that implied its literals
/// until so many are left that became false at this place of the trail or behind it. False where there
/// is no such conflict.
pub fn unwind(
    trail: &Trail,
    clauses: &Clauses,
    activity: &mut Activity,
    resolvent: &mut Resolvent,
    conflict: ClauseId,
    start: usize,
    left: usize,
) -> Result<bool, OutOfMemory>
    ensures entailed { IfOk result (λ done. done ≡ true → Entails clauses.now.given resolvent.new) }
    ensures inferred { IfOk result (λ done. done ≡ true → IsInferred clauses.now resolvent.new) }
{
    let clause = match clauses.get(conflict) {
        None => return Ok(false),
        Some(clause) => clause,
    };
    activity.bump_clause(conflict);
    resolvent.clear();
    take_all(trail, activity, resolvent, clause, None, start)?;
    let mut behind = trail.len();
    while behind > start && resolvent.recent() > left {
        behind -= 1;
        let step = trail.at(behind);
        resolve_step(trail, clauses, activity, resolvent, step, start)?;
    }
    Ok(true)
}

/// Makes the resolvent a clause that the given ones entail, of which one literal alone became false
/// at this place of the trail, the last decision's, or behind it. False where there is no such
/// conflict.
pub fn analyse(
    trail: &Trail,
    clauses: &Clauses,
    activity: &mut Activity,
    resolvent: &mut Resolvent,
    conflict: ClauseId,
    start: usize,
) -> Result<bool, OutOfMemory>
    ensures entailed { IfOk result (λ done. done ≡ true → Entails clauses.now.given resolvent.new) }
    ensures inferred { IfOk result (λ done. done ≡ true → IsInferred clauses.now resolvent.new) }
{
    let done = unwind(trail, clauses, activity, resolvent, conflict, start, 1)?;
    if !done {
        return Ok(false);
    }
    shrink(trail, clauses, activity, resolvent, start)?;
    Ok(true)
}
