//! Unit propagation with two watched literals a clause. A literal that became false is looked up in its
//! list of clauses: each of these gets another literal to watch, or has a marked one, or forces its
//! last one, or is falsified. What a clause says is read from the clause itself.

ghost use Rattle.std.specs.Prelude.{IfOk};
ghost use Rattle.rup_check.specs.Stored.{present, StoredBelow};
ghost use Rattle.rup_check.specs.Propagating.{Extends, IsPropagated};

use crate::marks::Marks;
use crate::store::Store;
use crate::visit::{Visited, visit};
use crate::watch::Hints;
use sat_base::{Lit, OutOfMemory};

/// Whether the other watched literal of a clause is marked, so that the clause says nothing.
fn is_settled(marks: &Marks, hints: &Hints, id: usize, list: Option<Lit>) -> bool {
    match hints.other(id, list) {
        Some(other) => marks.is_marked(other),
        None => false,
    }
}

/// Lets a clause be watched at one of these open literals in place of the one of this list.
fn move_watch(
    hints: &mut Hints,
    id: usize,
    list: Option<Lit>,
    one: Lit,
    other: Lit,
) -> Result<(), OutOfMemory> {
    let first = hints.other(id, list).unwrap_or(one);
    let second = if one == first { other } else { one };
    hints.move_to(id, first, second)
}

/// Looks at entry i of a list. It leaves the list where its clause was taken out or gets another literal
/// to watch, and else i becomes the next one. Whether its clause is falsified.
fn visit_entry(
    store: &Store,
    marks: &mut Marks,
    hints: &mut Hints,
    list: Option<Lit>,
    ids: &mut Vec<u32>,
    i: &mut usize,
) -> Result<bool, OutOfMemory>
    requires { StoredBelow marks.old.vars store.now }
    ensures extends { Extends (present store.now) marks.old marks.new }
    ensures conflict { IfOk result (IsPropagated (present store.now) marks.new.lits) }
{
    let index = *i;
    if index >= ids.len() {
        return Ok(false);
    }
    let id = ids[index] as usize;
    if is_settled(marks, hints, id, list) {
        *i = index + 1;
        return Ok(false);
    }
    match visit(store, marks, id)? {
        Visited::Falsified => Ok(true),
        Visited::Forced => {
            *i = index + 1;
            Ok(false)
        }
        Visited::Settled => {
            *i = index + 1;
            Ok(false)
        }
        Visited::Gone => {
            ids.swap_remove(index);
            Ok(false)
        }
        Visited::Open(one, other) => {
            move_watch(hints, id, list, one, other)?;
            ids.swap_remove(index);
            Ok(false)
        }
    }
}

/// Looks at each clause of a list, up to one that is falsified.
fn visit_list(
    store: &Store,
    marks: &mut Marks,
    hints: &mut Hints,
    list: Option<Lit>,
) -> Result<bool, OutOfMemory>
    requires { StoredBelow marks.old.vars store.now }
    ensures extends { Extends (present store.now) marks.old marks.new }
    ensures conflict { IfOk result (IsPropagated (present store.now) marks.new.lits) }
{
    let mut ids = hints.take(list);
    let mut i = 0;
    for entry in 0..ids.len() {
        if visit_entry(store, marks, hints, list, &mut ids, &mut i)? {
            hints.restore(list, ids);
            return Ok(true);
        }
    }
    hints.restore(list, ids);
    Ok(false)
}

/// Marks what the clauses force, until one of them is falsified (`true`) or no list says anything further.
pub fn propagate(store: &Store, marks: &mut Marks, hints: &mut Hints) -> Result<bool, OutOfMemory>
    requires { StoredBelow marks.old.vars store.now }
    ensures extends { Extends (present store.now) marks.old marks.new }
    ensures conflict { IfOk result (IsPropagated (present store.now) marks.new.lits) }
{
    if visit_list(store, marks, hints, None)? {
        return Ok(true);
    }
    for place in 0..marks.capacity() {
        let Some(lit) = marks.nth(place) else {
            return Ok(false);
        };
        if visit_list(store, marks, hints, Some(lit.negated()))? {
            return Ok(true);
        }
    }
    Ok(false)
}
