// Deletion of learnt clauses. From time to time the less active half of them goes, except those of
// two literals and those that implied a literal on the trail. Nothing rests on which clauses are
// deleted.

ghost use Rattle.std.specs.Prelude.{◌≡◌, length};

use sat_base::{Lit, OutOfMemory};
use sat_clauses::{ClauseId, Clauses, Watches};
use sat_trail::{Activity, Trail};
use std::alloc::Global;

/// Whether a clause implied one of its literals.
fn is_reason(trail: &Trail, clause: &[Lit], id: ClauseId) -> bool {
    clause.iter().any(|lit| trail.reason(lit.var) == Some(id))
}

/// Whether a clause may be deleted: one of three literals or more that is no reason.
fn may_go(trail: &Trail, clauses: &Clauses, id: ClauseId) -> bool {
    match clauses.get(id) {
        None => false,
        Some(clause) => clause.len() > 2 && !is_reason(trail, clause, id),
    }
}

/// Whether the learnt clause of a number may be deleted.
fn is_candidate(trail: &Trail, clauses: &Clauses, number: usize) -> bool {
    match u32::try_from(number) {
        Err(_) => false,
        Ok(number) => may_go(trail, clauses, ClauseId::Learnt(number)),
    }
}

/// The less active half of the clauses that may be deleted: those of a score up to the highest, so
/// many at most.
#[derive(Debug, Drop)]
struct Half {
    highest: u64,
    count: usize,
}

fn find_half(
    alloc: Global,
    trail: &Trail,
    clauses: &Clauses,
    activity: &Activity,
) -> Result<Half, OutOfMemory> {
    let mut scores = Vec::new(alloc);
    for number in 0..clauses.learnt_count() {
        if is_candidate(trail, clauses, number) {
            scores.push(activity.use_of(number))?;
        }
    }
    scores.sort_unstable();
    let count = scores.len() / 2;
    Ok(Half {
        highest: scores.get(count).copied().unwrap_or(0),
        count,
    })
}

/// Marks the clauses of this half, and counts in it those that are left.
fn mark_half(
    alloc: Global,
    trail: &Trail,
    clauses: &Clauses,
    activity: &Activity,
    half: &mut Half,
) -> Result<Vec<bool>, OutOfMemory> {
    let mut marked = Vec::new(alloc);
    for number in 0..clauses.learnt_count() {
        let is_idle = half.count > 0
            && activity.use_of(number) <= half.highest
            && is_candidate(trail, clauses, number);
        if is_idle {
            half.count -= 1;
        }
        marked.push(is_idle)?;
    }
    Ok(marked)
}

/// Deletes learnt clauses, if there are enough of them, and takes them out of the watch lists. It
/// looks at each learnt clause and each entry of a list; the limit grows each time, so this is seldom.
pub fn reduce(
    alloc: Global,
    trail: &Trail,
    clauses: &mut Clauses,
    watches: &mut Watches,
    activity: &mut Activity,
) -> Result<(), OutOfMemory>
    ensures { clauses.new.given ≡ clauses.old.given }
{
    if !activity.is_full() {
        return Ok(());
    }
    let mut half = find_half(alloc, trail, clauses, activity)?;
    let wanted = half.count;
    let marked = mark_half(alloc, trail, clauses, activity, &mut half)?;
    clauses.forget(marked.as_slice());
    watches.clean(clauses);
    activity.was_reduced(wanted.saturating_sub(half.count));
    Ok(())
}
