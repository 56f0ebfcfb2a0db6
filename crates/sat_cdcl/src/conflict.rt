// What a conflict leads to: a clause that is learnt, and a trail that is taken back.

ghost use Rattle.std.specs.Prelude.{◌≡◌, List, IfOk, MatchBool};
ghost use Rattle.sat_base.specs.declared.literal.Lit.{Lit};
ghost use Rattle.sat_clauses.specs.Held.{Entails};
ghost use Rattle.sat_clauses.specs.Certified.{IsInferred};
ghost use Rattle.sat_cdcl.specs.Answered.{Clashes, Rises};
ghost use Rattle.sat_cdcl.specs.Progressed.{IsProgress};

use crate::analyse::analyse;
use crate::backjump::{Target, find_target, flip_last, is_asserting, jump, reopen};
use crate::reduce::reduce;
use crate::state::Search;
use sat_base::{Lit, OutOfMemory};
use sat_clauses::{ClauseId, Clauses, Watches};
use sat_trail::{Activity, Trail};

/// What a turn of the search came to.
#[derive(Debug, Drop)]
pub enum Progress {
    /// The trail rose.
    Rose,
    /// These values satisfy all.
    Found(Vec<bool>),
    /// No values do.
    Exhausted,
}

/// Begins to watch a learnt clause of this length, at the literals that became false last.
fn attach_learnt(
    watches: &mut Watches,
    id: ClauseId,
    target: Target,
    len: usize,
) -> Result<(), OutOfMemory> {
    if target.asserted == target.second {
        watches.note_short(id, Some(target.asserted))
    } else {
        watches.watch(id, target.asserted, target.second, len)
    }
}

/// Adds a learnt clause, and goes back to where it asserts a literal; false, and the trail is as
/// before, where it does nowhere.
fn learn_and_jump(
    trail: &mut Trail,
    clauses: &mut Clauses,
    watches: &mut Watches,
    activity: &mut Activity,
    learnt: &[Lit],
) -> Result<bool, OutOfMemory>
    requires entailed { Entails clauses.old.given learnt.now }
    requires inferred { IsInferred clauses.old learnt.now }
    ensures given { clauses.new.given ≡ clauses.old.given }
    ensures jumped { IfOk result (λ jumped. MatchBool jumped
        ((assumed : List Lit) → Rises clauses.old.given assumed trail.old trail.new) (trail.new ≡ trail.old)) }
{
    let target = match find_target(trail, learnt) {
        None => return Ok(false),
        Some(target) => target,
    };
    if !is_asserting(trail, learnt, target.asserted, target.cut) {
        return Ok(false);
    }
    let id = clauses.learn(learnt)?;
    activity.note_clause(id)?;
    attach_learnt(watches, id, target, learnt.len())?;
    reopen(trail, activity, target.cut)?;
    Ok(jump(trail, learnt, target.asserted, target.cut, id))
}

/// Learns from a conflict with a clause, where it can.
fn learn_from(
    search: &mut Search,
    conflict: Option<ClauseId>,
    last: usize,
) -> Result<bool, OutOfMemory>
    ensures given { search.new.clauses.given ≡ search.old.clauses.given }
    ensures jumped { IfOk result (λ jumped. MatchBool jumped
        ((assumed : List Lit) → Rises search.old.clauses.given assumed search.old.trail search.new.trail) (search.new.trail ≡ search.old.trail)) }
{
    let id = match conflict {
        None => return Ok(false),
        Some(id) => id,
    };
    let is_learnt = analyse(
        &search.trail,
        &search.clauses,
        &mut search.activity,
        &mut search.resolvent,
        id,
        last,
    )?;
    if !is_learnt {
        return Ok(false);
    }
    learn_and_jump(
        &mut search.trail,
        &mut search.clauses,
        &mut search.watches,
        &mut search.activity,
        search.resolvent.lits(),
    )
}

/// Goes back after a conflict, if there is a decision to go back to.
pub fn resolve(search: &mut Search, conflict: Option<ClauseId>) -> Result<Progress, OutOfMemory>
    ensures given { search.new.clauses.given ≡ search.old.clauses.given }
    ensures progress { IfOk result (λ progress. (assumed : List Lit)
        → Clashes search.old.clauses.given assumed search.old.trail.steps
        → IsProgress search.old.clauses.given assumed search.old.trail search.new.trail progress) }
{
    search.conflict = conflict;
    let last = match search.trail.last_decision() {
        None => return Ok(Progress::Exhausted),
        Some(last) => last,
    };
    search.activity.decay();
    let jumped = learn_from(search, conflict, last)?;
    if jumped {
        reduce(
            search.alloc,
            &search.trail,
            &mut search.clauses,
            &mut search.watches,
            &mut search.activity,
        )?;
        return Ok(Progress::Rose);
    }
    reopen(&search.trail, &mut search.activity, last)?;
    flip_last(&mut search.trail, last);
    Ok(Progress::Rose)
}
