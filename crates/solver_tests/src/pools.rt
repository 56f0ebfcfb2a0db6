//! A region of two clauses, of which one is dropped.

use crate::literals::{negative, positive};
use sat_base::{Lit, OutOfMemory};
use sat_pool::Pool;
use std::alloc::Global;

/// Whether the first of these literals says that the third variable does not hold.
fn begins_with_not_2(lits: &[Lit]) -> bool {
    match lits {
        [first, ..] => *first == negative(2),
        [] => false,
    }
}

/// The second clause is read at its place before the other one goes, and at its new place behind that.
fn is_read_at_its_new_place(alloc: Global) -> Result<bool, OutOfMemory> {
    let mut pool = Pool::new(alloc);
    let first = pool.put(&[positive(0), negative(1)])?;
    let second = pool.put(&[negative(2)])?;
    let before = first.at == 0 && second.at == 3 && pool.get(first).len() == 2;
    pool.drop_clause(first);
    let between = begins_with_not_2(pool.get(second));
    let mut moves = pool.reserve_compact()?;
    pool.compact(&mut moves);
    let moved = moves.place(second);
    Ok(before && between && moved.at == 0 && begins_with_not_2(pool.get(moved)))
}

#[test]
fn the_second_clause_is_read_at_its_new_place(rt: HostRuntime) {
    assert!(rt; is_read_at_its_new_place(rt.alloc()) == Ok(true));
}
