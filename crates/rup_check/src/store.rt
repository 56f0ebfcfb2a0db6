//! The clauses that are there, by number. They lie in a region. A number is used once, so what names a
//! clause that was taken out finds nothing.

ghost use Rattle.std.specs.Prelude.{◌≡◌, ◌<◌, ◌++◌, ◌∷◌, [], List, length, slice_get, slice_set, IfOk, IfSome, IfNone, MatchOption};
ghost use Rattle.sat_base.specs.declared.literal.Lit.{Lit};
ghost use Rattle.sat_pool.specs.declared.pool.Ref.{Ref};

use sat_base::{Lit, OutOfMemory};
use sat_pool::{Pool, Ref};
use std::alloc::Global;
use std::marker::Model;

/// The clauses that are there. Contracts see the clause of each number, `None` where it was taken out.
///
/// A clause that was taken out stays in the region: the steps of a certificate hold each clause
/// themselves, so that a compaction would save less than half.
#[derive(Debug, Drop)]
pub struct Store {
    pool: Pool,
    table: Vec<Option<Ref>>,
}

impl Model for Store {
    ghost use Rattle.std.specs.Prelude.{List, Option};
    ghost use Rattle.sat_base.specs.declared.literal.Lit.{Lit};
    ghost use Rattle.rup_check.specs.Stored.{entries, AllLive};

    ghost Value = { List (Option (List Lit)) };

    ghost view = { λ s. entries s.pool s.table.items };

    ghost invariant = { λ s. AllLive s.pool s.table.items };
}

/// The reference of a number, if its clause is there.
fn ref_at(table: &[Option<Ref>], id: usize) -> Option<Ref>
    ensures found { IfSome result (λ r. slice_get table.now id ≡ Some (Some r)) }
    ensures none { IfNone result ((r : Ref) → slice_get table.now id ≡ Some (Some r) → ⊥) }
{
    match table.get(id).copied() {
        None => None,
        Some(entry) => entry,
    }
}

impl Store {
    /// No clause. It takes no memory.
    pub fn new(alloc: Global) -> Store
        ensures { result ≡ [] }
    {
        Store {
            pool: Pool::new(alloc),
            table: Vec::new(alloc),
        }
    }

    /// How many numbers were given.
    pub fn count(&self) -> usize
        ensures { result ≡ length self.now }
    {
        self.table.len()
    }

    /// The clause of this number, if it is there.
    pub fn get(&self, id: usize) -> Option<&[Lit]>
        ensures { MatchOption result ((c : List Lit) → slice_get self.now id ≡ Some (Some c) → ⊥) (λ c. slice_get self.now id ≡ Some (Some c.now)) }
    {
        match ref_at(self.table.as_slice(), id) {
            None => None,
            Some(r) => Some(self.pool.get(r)),
        }
    }

    /// Adds a clause, and gives its number.
    pub fn add(&mut self, clause: &[Lit]) -> Result<usize, OutOfMemory>
        ensures { IfOk result (λ id. (id ≡ length self.old) × (self.new ≡ self.old ++ Some clause.now ∷ [])) }
    {
        let id = self.table.len();
        let r = self.pool.put(clause)?;
        self.table.push(Some(r))?;
        Ok(id)
    }

    /// Takes the clause of this number out.
    pub fn take_out(&mut self, id: usize)
        requires { id < length self.old }
        ensures { self.new ≡ slice_set self.old id None }
    {
        self.table[id] = None;
    }
}
