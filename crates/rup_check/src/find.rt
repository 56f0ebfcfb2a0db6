//! Which clause is there with the same set of literals as another.

ghost use Rattle.std.specs.Prelude.{◌≡◌, ◌↔◌, IsTrue, IfOk, IfSome, MatchOption};
ghost use Rattle.sat_base.specs.Logic.{LitsBelow};
ghost use Rattle.sat_base.specs.Certificates.{HasSameLits};
ghost use Rattle.rup_check.specs.Stored.{StoredBelow, IsFound, IsNowhere};

use crate::index::hash_of;
use crate::marks::Marks;
use crate::store::Store;
use crate::watch::Hints;
use sat_base::{Lit, OutOfMemory};

/// Whether two clauses have the same set of literals. It is linear in both.
fn has_same_lits(marks: &mut Marks, one: &[Lit], other: &[Lit]) -> Result<bool, OutOfMemory>
    requires one { LitsBelow marks.old.vars one.now }
    requires other { LitsBelow marks.old.vars other.now }
    ensures vars { marks.new.vars ≡ marks.old.vars }
    ensures same { IfOk result (λ b. IsTrue b ↔ HasSameLits one.now other.now) }
{
    marks.set_to(one)?;
    if !marks.has_all(other) {
        return Ok(false);
    }
    marks.set_to(other)?;
    let all = marks.has_all(one);
    Ok(all)
}

/// Whether the clause of this number is there and has the same set of literals as this one.
fn is_found(
    store: &Store,
    marks: &mut Marks,
    id: usize,
    clause: &[Lit],
) -> Result<bool, OutOfMemory>
    requires stored { StoredBelow marks.old.vars store.now }
    requires clause { LitsBelow marks.old.vars clause.now }
    ensures vars { marks.new.vars ≡ marks.old.vars }
    ensures found { IfOk result (λ b. IsTrue b ↔ IsFound store.now clause.now id) }
{
    match store.get(id) {
        None => Ok(false),
        Some(there) => has_same_lits(marks, there, clause),
    }
}

/// A clause with the same set of literals, sought among all clauses. It is linear in all of them. It
/// runs before a No alone, since what is there is found by its hash.
fn find_among_all(
    store: &Store,
    marks: &mut Marks,
    clause: &[Lit],
) -> Result<Option<usize>, OutOfMemory>
    requires stored { StoredBelow marks.old.vars store.now }
    requires clause { LitsBelow marks.old.vars clause.now }
    ensures vars { marks.new.vars ≡ marks.old.vars }
    ensures found { IfOk result (λ found. MatchOption found (IsNowhere store.now clause.now) (IsFound store.now clause.now)) }
{
    for id in 0..store.count() {
        if is_found(store, marks, id, clause)? {
            return Ok(Some(id));
        }
    }
    Ok(None)
}

/// A clause with the same set of literals among those of the same hash, from the newest on.
fn find_by_hash(
    store: &Store,
    marks: &mut Marks,
    hints: &Hints,
    clause: &[Lit],
) -> Result<Option<usize>, OutOfMemory>
    requires stored { StoredBelow marks.old.vars store.now }
    requires clause { LitsBelow marks.old.vars clause.now }
    ensures vars { marks.new.vars ≡ marks.old.vars }
    ensures found { IfOk result (λ found. IfSome found (IsFound store.now clause.now)) }
{
    marks.set_to(clause)?;
    let mut candidate = hints.newest(hash_of(marks.lits()));
    'tries: for _ in 0..store.count() {
        let Some(id) = candidate else {
            return Ok(None);
        };
        if is_found(store, marks, id, clause)? {
            return Ok(Some(id));
        }
        candidate = hints.older(id);
    }
    Ok(None)
}

/// A clause with the same set of literals, if one is there.
pub fn find(
    store: &Store,
    marks: &mut Marks,
    hints: &Hints,
    clause: &[Lit],
) -> Result<Option<usize>, OutOfMemory>
    requires stored { StoredBelow marks.old.vars store.now }
    requires clause { LitsBelow marks.old.vars clause.now }
    ensures vars { marks.new.vars ≡ marks.old.vars }
    ensures found { IfOk result (λ found. MatchOption found (IsNowhere store.now clause.now) (IsFound store.now clause.now)) }
{
    match find_by_hash(store, marks, hints, clause)? {
        Some(id) => Ok(Some(id)),
        None => find_among_all(store, marks, clause),
    }
}
