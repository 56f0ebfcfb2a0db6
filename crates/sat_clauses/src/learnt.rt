// The clauses that were learnt. They lie in a region of their own, which is compacted when some of
// them are deleted. A clause keeps its number until it is deleted; then another may get it.

ghost use Rattle.std.specs.Prelude.{◌≡◌, ◌≢◌, ◌<◌, ◌++◌, ◌∷◌, [], ℕ, Some, None, length, slice_get, slice_set, IfOk, IfSome, IfNone, OnErr};
ghost use Rattle.sat_pool.specs.Region.{size, IsReserved};
ghost use Rattle.sat_clauses.specs.Learnt.{entries, IsTable, Thins, Adds, IsFree, Names, moved_at};

use sat_base::{Lit, OutOfMemory};
use sat_pool::{Moves, Pool, Ref};
use std::alloc::Global;
use std::marker::Model;

/// The learnt clauses. Contracts see the clause of each number, `None` where it was deleted.
#[derive(Debug, Drop)]
pub struct Learnt {
    pool: Pool,
    table: Vec<Option<Ref>>,
    /// Numbers whose clauses were deleted.
    free: Vec<u32>,
}

impl Model for Learnt {
    ghost use Rattle.std.specs.Prelude.{List, Option};
    ghost use Rattle.sat_base.specs.declared.literal.Lit.{Lit};
    ghost use Rattle.sat_clauses.specs.Learnt.{entries, IsTable};

    ghost Value = { List (Option (List Lit)) };

    ghost view = { λ l. entries l.pool l.table.items };

    ghost invariant = { λ l. IsTable l.pool l.table.items };
}

/// The reference of a number, if its clause was not deleted.
fn ref_at(table: &[Option<Ref>], i: usize) -> Option<Ref>
    ensures found { IfSome result (λ r. slice_get table.now i ≡ Some (Some r)) }
    ensures none { IfNone result ((r : Ref) → slice_get table.now i ≡ Some (Some r) → ⊥) }
{
    match table.get(i).copied() {
        None => None,
        Some(entry) => entry,
    }
}

/// Deletes the clause of a number, if it is there.
fn forget_one(pool: &mut Pool, table: &mut Vec<Option<Ref>>, i: usize)
    requires { IsTable pool.old table.old.items }
    ensures table { IsTable pool.new table.new.items }
    ensures thins { Thins (entries pool.old table.old.items) (entries pool.new table.new.items) }
    ensures gone { IsFree (entries pool.new table.new.items) i }
{
    match ref_at(table.as_slice(), i) {
        None => {}
        Some(r) => {
            pool.drop_clause(r);
            table[i] = None;
        }
    }
}

/// Gives the reference of a number its new place.
fn follow_one(table: &mut Vec<Option<Ref>>, moves: &Moves, i: usize)
    requires { (r : Ref) → slice_get table.old.items i ≡ Some (Some r) → r.at < length moves.now.places }
    ensures moved { slice_get table.new.items i ≡ moved_at moves.now.places (slice_get table.old.items i) }
    ensures others { (j : ℕ) → j ≢ i → slice_get table.new.items j ≡ slice_get table.old.items j }
    ensures len { length table.new.items ≡ length table.old.items }
{
    if let Some(r) = ref_at(table.as_slice(), i) {
        let moved = moves.place(r);
        table[i] = Some(moved);
    }
}

/// Gives each reference its new place.
fn follow(table: &mut Vec<Option<Ref>>, moves: &Moves)
    requires { (i : ℕ) (r : Ref) → slice_get table.old.items i ≡ Some (Some r) → r.at < length moves.now.places }
    ensures { (j : ℕ) → slice_get table.new.items j ≡ moved_at moves.now.places (slice_get table.old.items j) }
{
    for i in 0..table.len() {
        follow_one(table, moves, i);
    }
}

/// Lays the clauses out anew.
fn lay_out(pool: &mut Pool, table: &mut Vec<Option<Ref>>, moves: &mut Moves)
    requires table { IsTable pool.old table.old.items }
    requires room { IsReserved moves.old (size pool.old) }
    ensures table { IsTable pool.new table.new.items }
    ensures thins { Thins (entries pool.old table.old.items) (entries pool.new table.new.items) }
{
    pool.compact(moves);
    follow(table, moves);
}

/// Lays the clauses out anew where there is room for it.
fn lay_out_if_room(pool: &mut Pool, table: &mut Vec<Option<Ref>>)
    requires { IsTable pool.old table.old.items }
    ensures table { IsTable pool.new table.new.items }
    ensures thins { Thins (entries pool.old table.old.items) (entries pool.new table.new.items) }
{
    if let Ok(mut moves) = pool.reserve_compact() {
        lay_out(pool, table, &mut moves);
    }
}

/// A number more, which has no clause.
fn next_number(table: &mut Vec<Option<Ref>>) -> Result<u32, OutOfMemory>
    ensures { Names table.old.items table.new.items }
{
    match u32::try_from(table.len()) {
        Err(_) => Err(OutOfMemory),
        Ok(number) => {
            table.push(None)?;
            Ok(number)
        }
    }
}

/// A number for a new clause: one whose clause was deleted, or else a number more.
fn take_number(table: &mut Vec<Option<Ref>>, free: &mut Vec<u32>) -> Result<u32, OutOfMemory>
    ensures { Names table.old.items table.new.items }
{
    match free.pop() {
        Some(number) => Ok(number),
        None => next_number(table),
    }
}

/// Puts a clause into the region, and gives it a number.
fn put_clause(
    pool: &mut Pool,
    table: &mut Vec<Option<Ref>>,
    free: &mut Vec<u32>,
    clause: &[Lit],
) -> Result<u32, OutOfMemory>
    requires { IsTable pool.old table.old.items }
    ensures table { IsTable pool.new table.new.items }
    ensures adds { Adds (entries pool.old table.old.items) (entries pool.new table.new.items) clause.now }
{
    let number = take_number(table, free)?;
    let r = pool.put(clause)?;
    set_at(table, number as usize, r);
    Ok(number)
}

/// Gives a number this reference.
fn set_at(table: &mut Vec<Option<Ref>>, i: usize, r: Ref)
    ensures { table.new.items ≡ slice_set table.old.items i (Some r) }
{
    if i < table.len() {
        table[i] = Some(r);
    }
}

/// Notes a number that has no clause, if there is memory for it.
fn note_free(table: &[Option<Ref>], free: &mut Vec<u32>, number: usize) {
    let is_free = matches!(table.get(number), Some(None));
    if is_free && let Ok(number) = u32::try_from(number) {
        let _noted = free.push(number);
    }
}

/// Notes all numbers that have no clause. Where memory is refused some are not used again.
fn note_all_free(table: &[Option<Ref>], free: &mut Vec<u32>) {
    free.clear();
    for number in 0..table.len() {
        note_free(table, free, number);
    }
}

impl Learnt {
    /// No clause. It takes no memory.
    pub fn new(alloc: Global) -> Learnt
        ensures { result ≡ [] }
    {
        Learnt {
            pool: Pool::new(alloc),
            table: Vec::new(alloc),
            free: Vec::new(alloc),
        }
    }

    /// All numbers are below this one.
    pub fn count(&self) -> usize {
        self.table.len()
    }

    /// The clause of a number, if it was not deleted.
    pub fn get(&self, i: usize) -> Option<&[Lit]>
        ensures { IfSome result (λ c. slice_get self.now i ≡ Some (Some c.now)) }
    {
        match ref_at(self.table.as_slice(), i) {
            None => None,
            Some(r) => Some(self.pool.get(r)),
        }
    }

    /// Adds a clause, and gives its number: one whose clause was deleted, if there is any.
    pub fn push(&mut self, clause: &[Lit]) -> Result<u32, OutOfMemory>
        ensures { Adds self.old self.new clause.now }
    {
        put_clause(&mut self.pool, &mut self.table, &mut self.free, clause)
    }

    /// Deletes the clause of a number, if it is there.
    pub fn take_out(&mut self, i: usize)
        ensures thins { Thins self.old self.new }
        ensures gone { IsFree self.new i }
    {
        forget_one(&mut self.pool, &mut self.table, i);
    }

    /// Lays out anew what is left after deletions, if there is memory for it, and notes the numbers that
    /// may be used again.
    pub fn lay_out(&mut self)
        ensures { Thins self.old self.new }
    {
        lay_out_if_room(&mut self.pool, &mut self.table);
        note_all_free(self.table.as_slice(), &mut self.free);
    }
}
