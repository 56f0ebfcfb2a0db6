//! An index of the clauses by their sets of literals. It only says where to look: what is found there is tested on
//! the clause itself, and no answer rests on it.

use sat_base::{Lit, OutOfMemory};
use std::alloc::Global;

/// No clause.
const NONE: u32 = u32::MAX;

/// So few chains there are at least.
const FEWEST: usize = 16;

/// Which clauses may have one set of literals.
///
/// Clauses of one hash, and some of other hashes, form a chain from the newest to the oldest. There are as many chains
/// as clauses or more. A clause takes some sixteen bytes.
#[derive(Drop)]
pub struct Index {
    alloc: Global,
    /// The hash of each clause.
    hashes: Vec<u32>,
    /// The next older clause in the chain of each.
    older: Vec<u32>,
    /// The newest clause of each chain.
    newest: Vec<u32>,
}

/// The number of a literal among all literals: 2 v for the variable v, and 2 v + 1 for its negation. Variables from
/// 2^31 on have one number.
pub fn code_of(lit: Lit) -> u32 {
    match u32::try_from(
        lit.var
            .saturating_mul(2)
            .saturating_add(usize::from(lit.neg)),
    ) {
        Ok(code) => code,
        Err(_) => u32::MAX,
    }
}

/// A number for a literal, in which each bit depends on each bit of the literal.
fn mixed(lit: Lit) -> u32 {
    let once = code_of(lit).wrapping_add(0x9e37_79b9);
    let twice = (once ^ (once >> 16)).wrapping_mul(0x85eb_ca6b);
    let thrice = (twice ^ (twice >> 13)).wrapping_mul(0xc2b2_ae35);
    thrice ^ (thrice >> 16)
}

/// A hash of different literals in any order.
pub fn hash_of(lits: &[Lit]) -> u32 {
    let mut sum = 0u32;
    for lit in lits {
        sum = sum.wrapping_add(mixed(*lit));
    }
    sum
}

impl Index {
    /// No clause. It takes no memory.
    pub fn new(alloc: Global) -> Index {
        Index {
            alloc,
            hashes: Vec::new(alloc),
            older: Vec::new(alloc),
            newest: Vec::new(alloc),
        }
    }

    /// Notes the next clause.
    pub fn note(&mut self, hash: u32) -> Result<(), OutOfMemory> {
        let id = self.hashes.len();
        self.hashes.push(hash)?;
        self.older.push(NONE)?;
        if self.newest.len() <= id {
            return self.renew();
        }
        self.link(id);
        Ok(())
    }

    /// The newest clause of this hash.
    pub fn newest(&self, hash: u32) -> Option<usize> {
        let first = self.newest.get(self.chain_of(hash)).copied()?;
        self.seek(first, hash)
    }

    /// The clause of the same hash that is next older than this one.
    pub fn older(&self, id: usize) -> Option<usize> {
        let hash = self.hashes.get(id).copied()?;
        let next = self.older.get(id).copied()?;
        self.seek(next, hash)
    }

    /// The first clause of this hash in a chain, from this one on.
    fn seek(&self, from: u32, hash: u32) -> Option<usize> {
        let mut at = from as usize;
        for _clause in 0..self.hashes.len() {
            let here = self.hashes.get(at).copied()?;
            if here == hash {
                return Some(at);
            }
            at = self.older.get(at).copied()? as usize;
        }
        None
    }

    /// The chain of a hash.
    fn chain_of(&self, hash: u32) -> usize {
        let chains = self.newest.len();
        if chains == 0 {
            return 0;
        }
        hash as usize % chains
    }

    /// Puts a clause at the head of its chain.
    fn link(&mut self, id: usize) {
        let Ok(number) = u32::try_from(id) else {
            return;
        };
        let Some(hash) = self.hashes.get(id).copied() else {
            return;
        };
        let chain = self.chain_of(hash);
        let before = self.newest.get(chain).copied().unwrap_or(NONE);
        if let Some(older) = self.older.get_mut(id) {
            *older = before;
        }
        if let Some(newest) = self.newest.get_mut(chain) {
            *newest = number;
        }
    }

    /// Makes the chains anew, twice as many as there are clauses. The number of clauses has doubled since the last
    /// time, so a clause costs constant time over all.
    fn renew(&mut self) -> Result<(), OutOfMemory> {
        let chains = self.hashes.len().saturating_mul(2).max(FEWEST);
        self.newest = vec![in self.alloc; NONE; chains]?;
        for id in 0..self.hashes.len() {
            self.link(id);
        }
        Ok(())
    }
}
