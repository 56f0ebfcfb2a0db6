// The region itself: putting, reading and dropping clauses, and compaction.

ghost use Rattle.std.specs.Prelude.{◌≡◌, ◌≢◌, ℕ, List, [], ◌∷◌, ◌++◌, ◌<◌, length, false, Some, None, IfOk, OnErr, IsSome, slice_index};
ghost use Rattle.sat_base.specs.declared.literal.Lit.{Lit};
ghost use Rattle.sat_pool.specs.Region.{Block, reads, kill, live, moved, size, IsReserved};

use crate::Moves;
use crate::layout::{append_block, copy_live, lits_at, mark_dropped};
use sat_base::{Lit, OutOfMemory};
use std::alloc::Global;
use std::marker::Model;
use std::mem;

/// The name of a clause of a region: the place where its block begins.
#[derive(Clone, Copy, Debug, PartialEq, Eq)]
pub struct Ref {
    pub at: usize,
}

/// A region of clauses. Contracts see the list of its blocks.
#[derive(Debug, Drop)]
pub struct Pool {
    alloc: Global,
    list: Vec<Lit>,
}

impl Model for Pool {
    ghost use Rattle.std.specs.Prelude.{◌≡◌, List};
    ghost use Rattle.sat_pool.specs.Region.{Block};
    ghost use Rattle.sat_pool.specs.Layout.{blocks, flat};

    ghost Value = { List Block };

    ghost view = { λ p. blocks p.list.items };

    ghost invariant = { λ p. flat (blocks p.list.items) ≡ p.list.items };
}

impl Pool {
    /// A region with no block. It takes no memory.
    pub fn new(alloc: Global) -> Pool
        ensures { result ≡ [] }
    {
        Pool {
            alloc,
            list: Vec::new(alloc),
        }
    }

    /// Puts a clause at the end, and gives its name. Every live clause keeps its own. Where memory
    /// is refused the region is as before.
    pub fn put(&mut self, clause: &[Lit]) -> Result<Ref, OutOfMemory>
        ensures ok { IfOk result (λ r.
            (r.at ≡ size self.old)
            × (self.new ≡ self.old ++ record { dead = false; lits = clause.now } ∷ [])) }
        ensures read { IfOk result (λ r. reads self.new r.at ≡ Some clause.now) }
        ensures fresh { IfOk result (λ r. reads self.old r.at ≡ None) }
        ensures kept { (q : ℕ) (c : List Lit) → reads self.old q ≡ Some c → reads self.new q ≡ Some c }
        ensures err { OnErr result (self.new ≡ self.old) }
    {
        let at = append_block(&mut self.list, clause)?;
        Ok(Ref { at })
    }

    /// The literals of a live clause, lent.
    pub fn get(&self, r: Ref) -> &[Lit]
        requires { IsSome (reads self.now r.at) }
        ensures { reads self.now r.at ≡ Some result.now }
    {
        lits_at(self.list.as_slice(), r.at)
    }

    /// Drops a live clause: its name reads nothing any more, and every other name reads what it did.
    pub fn drop_clause(&mut self, r: Ref)
        requires { IsSome (reads self.old r.at) }
        ensures dropped { self.new ≡ kill self.old r.at }
        ensures unread { reads self.new r.at ≡ None }
        ensures others { (q : ℕ) → q ≢ r.at → reads self.new q ≡ reads self.old q }
        ensures size { size self.new ≡ size self.old }
    {
        mark_dropped(&mut self.list, r.at);
    }

    /// Room for a compaction, until the next `put`.
    pub fn reserve_compact(&self) -> Result<Moves, OutOfMemory>
        ensures { IfOk result (λ moves. IsReserved moves (size self.now)) }
    {
        let len = self.list.len();
        let list = Vec::with_capacity(self.alloc, len)?;
        let to = vec![in self.alloc; 0; len]?;
        Ok(Moves { list, to })
    }

    /// Leaves the live blocks alone, in their order. `moved` then has their new places. It takes no
    /// memory.
    pub fn compact(&mut self, moved: &mut Moves)
        requires { IsReserved moved.old (size self.old) }
        ensures live { self.new ≡ live self.old }
        ensures table { length moved.new.places ≡ size self.old }
        ensures read { (q : ℕ) (c : List Lit) → reads self.old q ≡ Some c
            → (q < size self.old) × (reads self.new (slice_index moved.new.places q) ≡ Some c) }
        ensures apart { (q r : ℕ) (c d : List Lit) → reads self.old q ≡ Some c → reads self.old r ≡ Some d
            → slice_index moved.new.places q ≡ slice_index moved.new.places r → q ≡ r }
    {
        copy_live(self.list.as_slice(), &mut moved.list, &mut moved.to);
        self.list = mem::replace(&mut moved.list, Vec::new(self.alloc));
    }
}
