//! Watched literals. They only say where to look: what is found there is tested on the clause itself, and no answer
//! rests on them.

use crate::index::{Index, code_of};
use sat_base::{Lit, OutOfMemory};
use std::alloc::Global;
use std::mem;

/// No literal, or no clause.
const NONE: u32 = u32::MAX;

/// The numbers of the two literals of a clause that are watched, or of none.
#[derive(Clone, Copy, Debug)]
struct Pair {
    first: u32,
    second: u32,
}

/// Which clauses watch which literal, and which clauses may have one set of literals.
///
/// A clause with two different literals or more is in the lists of two of them, and is looked at where
/// one of these becomes false.
#[derive(Drop)]
pub struct Hints {
    alloc: Global,
    lists: Vec<Vec<u32>>,
    short: Vec<u32>,
    pairs: Vec<Pair>,
    index: Index,
}

/// The literal of this number.
fn lit_of(code: u32) -> Lit {
    Lit {
        var: (code / 2) as usize,
        neg: code % 2 == 1,
    }
}

/// The number of a clause, if it is below 2^32.
fn number_of(id: usize) -> u32 {
    match u32::try_from(id) {
        Ok(number) => number,
        Err(_) => NONE,
    }
}

impl Hints {
    /// No clause. It takes no memory.
    pub fn new(alloc: Global) -> Hints {
        Hints {
            alloc,
            lists: Vec::new(alloc),
            short: Vec::new(alloc),
            pairs: Vec::new(alloc),
            index: Index::new(alloc),
        }
    }

    /// Notes the next clause: its hash, and two different literals of it if it has these.
    pub fn note(
        &mut self,
        id: usize,
        hash: u32,
        watched: Option<(Lit, Lit)>,
    ) -> Result<(), OutOfMemory> {
        self.index.note(hash)?;
        match watched {
            None => {
                self.pairs.push(Pair {
                    first: NONE,
                    second: NONE,
                })?;
                self.short.push(number_of(id))?;
            }
            Some((one, other)) => {
                let first = code_of(one);
                let second = code_of(other);
                self.pairs.push(Pair { first, second })?;
                self.push(first, number_of(id))?;
                self.push(second, number_of(id))?;
            }
        }
        Ok(())
    }

    /// The list of a literal, or of the clauses that are too short to be watched. It is empty afterwards.
    pub fn take(&mut self, list: Option<Lit>) -> Vec<u32> {
        let empty = Vec::new(self.alloc);
        match list {
            None => mem::replace(&mut self.short, empty),
            Some(lit) => match self.lists.get_mut(code_of(lit) as usize) {
                None => empty,
                Some(slot) => mem::replace(slot, empty),
            },
        }
    }

    /// Gives a list back.
    pub fn restore(&mut self, list: Option<Lit>, ids: Vec<u32>) {
        match list {
            None => self.short = ids,
            Some(lit) => {
                if let Some(slot) = self.lists.get_mut(code_of(lit) as usize) {
                    *slot = ids;
                }
            }
        }
    }

    /// The watched literal of a clause that is not the one of this list.
    pub fn other(&self, id: usize, list: Option<Lit>) -> Option<Lit> {
        let pair = self.pairs.get(id).copied()?;
        let code = match list {
            None => NONE,
            Some(lit) => code_of(lit),
        };
        let other = if pair.first == code {
            pair.second
        } else {
            pair.first
        };
        if other == NONE {
            None
        } else {
            Some(lit_of(other))
        }
    }

    /// Lets a clause be watched at these literals, of which the second is new.
    pub fn move_to(&mut self, id: usize, first: Lit, second: Lit) -> Result<(), OutOfMemory> {
        let pair = Pair {
            first: code_of(first),
            second: code_of(second),
        };
        self.push(pair.second, number_of(id))?;
        if let Some(slot) = self.pairs.get_mut(id) {
            *slot = pair;
        }
        Ok(())
    }

    /// The newest clause of this hash.
    pub fn newest(&self, hash: u32) -> Option<usize> {
        self.index.newest(hash)
    }

    /// The clause of the same hash that is next older than this one.
    pub fn older(&self, id: usize) -> Option<usize> {
        self.index.older(id)
    }

    /// Puts a clause at the end of the list of the literal of a number.
    fn push(&mut self, code: u32, watcher: u32) -> Result<(), OutOfMemory> {
        if code == NONE {
            return Ok(());
        }
        let number = code as usize;
        while self.lists.len() <= number {
            self.lists.push(Vec::new(self.alloc))?;
        }
        if let Some(list) = self.lists.get_mut(number) {
            list.push(watcher)?;
        }
        Ok(())
    }
}
