// Unit propagation. A literal that became false is looked up in its list of clauses: each of these
// gets another literal to watch, or has a true one, or implies its last one, or is a conflict. What
// a clause implies is read from the clause itself, so that no answer rests on the lists.

ghost use Rattle.std.specs.Prelude.{◌≡◌, ◌≤◌, ◌<◌, true, false, ℕ, Bool, List, length, take, IfOk, IfNone, IfSome, IsTrue};
ghost use Rattle.sat_base.specs.declared.literal.Lit.{Lit};
ghost use Rattle.sat_base.specs.Logic.{lit_true};
ghost use Rattle.sat_trail.specs.declared.trail.Step.{Step};
ghost use Rattle.sat_trail.specs.Steps.{AllTrue, Implies, Refutes};
ghost use Rattle.sat_trail.specs.Weight.{Extends};
ghost use Rattle.sat_trail.specs.Looks.{OthersFalse, IsClauseLook, IsLook, look_from};

use crate::trail::{Put, Step, Trail};
use sat_base::{Lit, OutOfMemory};
use sat_clauses::{ClauseId, Clauses, Code, Pair, Short, Watch, Watches};

/// What a clause says under the trail.
#[derive(Clone, Copy, Debug)]
pub enum Look {
    /// Nothing, or it is satisfied.
    Keep,
    /// This literal of it is not false.
    Move(Lit),
    /// All literals but this one are false.
    Forced(Lit),
    /// All literals are false.
    Conflict,
    /// The clause was deleted.
    Gone,
}

/// Whether a literal is this other one, or false by the first k steps.
fn is_other_or_false(trail: &Trail, k: usize, lit: Lit, other: Lit) -> bool
    requires { k ≤ length trail.now.steps }
    ensures { IsTrue result → (f : ℕ → Bool) → AllTrue f (take k trail.now.steps)
        → lit_true f other ≡ false → lit_true f lit ≡ false }
{
    if lit == other {
        true
    } else {
        trail.is_false_before(k, lit)
    }
}

/// A literal of the clause that is neither this one nor false by the first k steps.
pub fn open_beside(trail: &Trail, clause: &[Lit], k: usize, other: Lit) -> Option<Lit>
    requires { k ≤ length trail.now.steps }
    ensures { IfNone result (OthersFalse (take k trail.now.steps) clause.now other) }
{
    for lit in clause {
        if !is_other_or_false(trail, k, *lit, other) {
            return Some(*lit);
        }
    }
    None
}

/// What a clause says, where this literal of it, if any, is open, and where its other one may be
/// false.
fn look_from(open_one: Option<Lit>, is_false: bool, other: Lit) -> Look
    ensures { result ≡ look_from open_one is_false other }
{
    match open_one {
        Some(lit) => Look::Move(lit),
        None if is_false => Look::Conflict,
        None => Look::Forced(other),
    }
}

/// What a clause says, where this is the literal that may be its last.
fn examine(trail: &Trail, clause: &[Lit], other: Lit) -> Look
    ensures { IsClauseLook trail.now.steps clause.now result }
{
    let len = trail.len();
    let open_one = open_beside(trail, clause, len, other);
    let is_false = trail.is_false_before(len, other);
    look_from(open_one, is_false, other)
}

/// What the clause of this name says, where this is the literal that may be its last.
fn look_at(trail: &Trail, clauses: &Clauses, id: ClauseId, other: Lit) -> Look
    ensures { IsLook clauses.now.given trail.now.steps result }
{
    match clauses.get(id) {
        None => Look::Gone,
        Some(clause) => examine(trail, clause, other),
    }
}

/// Another literal of the clause than this one that is not false. Nothing rests on the answer.
fn find_open(trail: &Trail, clause: &[Lit], other: Code) -> Option<Code> {
    for lit in clause {
        let code = Code::of(*lit);
        if code != other && !trail.is_true(Code::of(lit.negated())) {
            return Some(code);
        }
    }
    None
}

/// Looks at a clause of which a watched literal became false.
fn visit(trail: &Trail, clauses: &Clauses, watches: &mut Watches, gone: Code, watch: Watch) -> Look
    ensures { IsLook clauses.now.given trail.now.steps result }
{
    if trail.is_true(watch.blocker) {
        return Look::Keep;
    }
    let first = watches.other(watch, gone);
    if trail.is_true(first) {
        return Look::Keep;
    }
    let clause = match clauses.get(watch.clause) {
        None => return Look::Gone,
        Some(clause) => clause,
    };
    match find_open(trail, clause, first) {
        None => look_at(trail, clauses, watch.clause, first.lit()),
        Some(second) => {
            watches.set_pair(watch.clause, Pair { first, second });
            Look::Move(second.lit())
        }
    }
}

/// Puts a literal that follows, if its variable has no value.
fn imply(trail: &mut Trail, lit: Lit, reason: ClauseId)
    ensures { (clauses : List (List Lit)) → Implies clauses trail.old.steps lit → Extends clauses trail.old trail.new }
{
    let step = Step {
        lit,
        implied: true,
        reason: Some(reason),
    };
    let len = trail.len();
    trail.put(len, step);
}

/// Looks at entry i of a list. It leaves the list where its clause gets another literal to watch,
/// and else i becomes the next one.
#[tactic(auto, using(crate::proofs::FollowLemmas::extends_refl))]
fn visit_entry(
    trail: &mut Trail,
    clauses: &Clauses,
    watches: &mut Watches,
    list: &mut Vec<Watch>,
    i: &mut usize,
    gone: Code,
) -> Result<Option<ClauseId>, OutOfMemory>
    ensures { IfOk result (λ conflict. Extends clauses.now.given trail.old trail.new
        × IfSome conflict (λ _. Refutes clauses.now.given trail.new.steps)) }
{
    let watch = match list.get(*i).copied() {
        None => return Ok(None),
        Some(watch) => watch,
    };
    match visit(trail, clauses, watches, gone, watch) {
        Look::Keep => {
            *i = next(*i);
            Ok(None)
        }
        Look::Move(lit) => {
            watches.push(Code::of(lit), watch)?;
            leave(list, *i);
            Ok(None)
        }
        Look::Forced(lit) => {
            imply(trail, lit, watch.clause);
            *i = next(*i);
            Ok(None)
        }
        Look::Conflict => Ok(Some(watch.clause)),
        Look::Gone => {
            leave(list, *i);
            Ok(None)
        }
    }
}

/// Goes over the clauses that watch a literal which became false.
fn visit_list(
    trail: &mut Trail,
    clauses: &Clauses,
    watches: &mut Watches,
    list: &mut Vec<Watch>,
    gone: Code,
) -> Result<Option<ClauseId>, OutOfMemory>
    ensures { IfOk result (λ conflict. Extends clauses.now.given trail.old trail.new
        × IfSome conflict (λ _. Refutes clauses.now.given trail.new.steps)) }
{
    let mut i = 0;
    for _entry in 0..list.len() {
        let found = visit_entry(trail, clauses, watches, list, &mut i, gone)?;
        if found.is_some() {
            return Ok(found);
        }
    }
    Ok(None)
}

fn next(i: usize) -> usize {
    i.saturating_add(1)
}

/// Takes an entry out of a list; the last one takes its place.
fn leave(list: &mut Vec<Watch>, i: usize) {
    if i < list.len() {
        let _left = list.swap_remove(i);
    }
}

/// Puts this literal of a clause, if all others of it are false.
fn begin_with(trail: &mut Trail, clauses: &Clauses, id: ClauseId, lit: Lit) -> Option<ClauseId>
    ensures { Extends clauses.now.given trail.old trail.new
        × IfSome result (λ _. Refutes clauses.now.given trail.new.steps) }
{
    match look_at(trail, clauses, id, lit) {
        Look::Keep => None,
        Look::Move(_) => None,
        Look::Forced(last) => {
            imply(trail, last, id);
            None
        }
        Look::Conflict => Some(id),
        Look::Gone => None,
    }
}

/// Looks at a clause of two literals of which one became false: where the other one is not true, it is
/// implied, or the clause is a conflict.
#[tactic(auto, using(crate::proofs::FollowLemmas::extends_refl))]
fn visit_binary(trail: &mut Trail, clauses: &Clauses, watch: Watch) -> Option<ClauseId>
    ensures { Extends clauses.now.given trail.old trail.new
        × IfSome result (λ _. Refutes clauses.now.given trail.new.steps) }
{
    if trail.is_true(watch.blocker) {
        return None;
    }
    begin_with(trail, clauses, watch.clause, watch.blocker.lit())
}

/// Goes over the clauses of two literals of which one became false.
fn revise_binary(trail: &mut Trail, clauses: &Clauses, list: &[Watch]) -> Option<ClauseId>
    ensures { Extends clauses.now.given trail.old trail.new
        × IfSome result (λ _. Refutes clauses.now.given trail.new.steps) }
{
    for watch in list {
        let found = visit_binary(trail, clauses, *watch);
        if found.is_some() {
            return found;
        }
    }
    None
}

/// Looks at the longer clauses that watch a literal which became false.
fn revise_long(
    trail: &mut Trail,
    clauses: &Clauses,
    watches: &mut Watches,
    gone: Code,
) -> Result<Option<ClauseId>, OutOfMemory>
    ensures { IfOk result (λ conflict. Extends clauses.now.given trail.old trail.new
        × IfSome conflict (λ _. Refutes clauses.now.given trail.new.steps)) }
{
    let mut list = watches.take(gone);
    let outcome = visit_list(trail, clauses, watches, &mut list, gone);
    watches.restore(gone, list);
    outcome
}

/// Looks at all clauses that watch a literal which became false, those of two literals first.
fn revise(
    trail: &mut Trail,
    clauses: &Clauses,
    watches: &mut Watches,
    gone: Code,
) -> Result<Option<ClauseId>, OutOfMemory>
    ensures { IfOk result (λ conflict. Extends clauses.now.given trail.old trail.new
        × IfSome conflict (λ _. Refutes clauses.now.given trail.new.steps)) }
{
    let begun = revise_binary(trail, clauses, watches.binary(gone));
    if begun.is_some() {
        return Ok(begun);
    }
    let found = revise_long(trail, clauses, watches, gone)?;
    Ok(found)
}

/// Puts what the steps from this place on imply, until nothing more is implied, or a clause is a
/// conflict.
fn propagate(
    trail: &mut Trail,
    clauses: &Clauses,
    watches: &mut Watches,
    from: usize,
) -> Result<Option<ClauseId>, OutOfMemory>
    ensures { IfOk result (λ conflict. Extends clauses.now.given trail.old trail.new
        × IfSome conflict (λ _. Refutes clauses.now.given trail.new.steps)) }
{
    let mut place = from;
    loop {
        let len = trail.len();
        if place >= len {
            return Ok(None);
        }
        let gone = Code::of(trail.at(place).lit.negated());
        let found = revise(trail, clauses, watches, gone)?;
        if found.is_some() {
            return Ok(found);
        }
        place += 1;
    }
}

/// A conflict, if the clause of this name has no literal.
fn conflict_if_empty(clauses: &Clauses, id: ClauseId) -> Option<ClauseId>
    ensures { IfSome result (λ _. (steps : List Step) → Refutes clauses.now.given steps) }
{
    match clauses.get(id) {
        Some(clause) if clause.is_empty() => Some(id),
        _ => None,
    }
}

/// Puts the literal of a clause of one literal; one without a literal is a conflict.
fn begin_short(trail: &mut Trail, clauses: &Clauses, short: Short) -> Option<ClauseId>
    ensures { Extends clauses.now.given trail.old trail.new
        × IfSome result (λ _. Refutes clauses.now.given trail.new.steps) }
{
    match short.lit {
        None => conflict_if_empty(clauses, short.clause),
        Some(lit) => begin_with(trail, clauses, short.clause, lit),
    }
}

/// Puts the literals of the clauses of one literal; a clause without a literal is a conflict.
fn begin(trail: &mut Trail, clauses: &Clauses, watches: &Watches) -> Option<ClauseId>
    ensures { Extends clauses.now.given trail.old trail.new
        × IfSome result (λ _. Refutes clauses.now.given trail.new.steps) }
{
    for i in 0..watches.short_count() {
        let short = match watches.short(i) {
            None => return None,
            Some(short) => short,
        };
        let found = begin_short(trail, clauses, short);
        if found.is_some() {
            return found;
        }
    }
    None
}

/// Puts what the steps from this place on imply, and where it is the first also what the clauses of
/// one literal give.
pub fn settle(
    trail: &mut Trail,
    clauses: &Clauses,
    watches: &mut Watches,
    from: usize,
) -> Result<Option<ClauseId>, OutOfMemory>
    ensures { IfOk result (λ conflict. Extends clauses.now.given trail.old trail.new
        × IfSome conflict (λ _. Refutes clauses.now.given trail.new.steps)) }
{
    if from > 0 {
        return propagate(trail, clauses, watches, from);
    }
    let begun = begin(trail, clauses, watches);
    if begun.is_some() {
        return Ok(begun);
    }
    let found = propagate(trail, clauses, watches, from)?;
    Ok(found)
}
