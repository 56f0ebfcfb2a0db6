// Watched literals. Each clause of two literals or more is in the lists of two of its literals, and
// a list is looked at where its literal becomes false. Clauses of two literals have lists of their
// own: an entry has the other literal, so that the clause is read only where it implies something. No
// answer rests on these lists.

use crate::code::{Code, LAST_VARIABLE};
use crate::held::{ClauseId, Clauses};
use sat_base::{Lit, OutOfMemory};
use std::alloc::Global;
use std::mem;

/// An entry of a list: a clause, and a literal of it that spares the look at the clause while it is
/// true.
#[derive(Clone, Copy, Debug)]
pub struct Watch {
    pub clause: ClauseId,
    pub blocker: Code,
}

/// The two literals of a clause that are watched.
#[derive(Clone, Copy, Debug)]
pub struct Pair {
    pub first: Code,
    pub second: Code,
}

/// A clause that is too short to be watched: of one literal, or of none.
#[derive(Clone, Copy, Debug)]
pub struct Short {
    pub clause: ClauseId,
    pub lit: Option<Lit>,
}

/// The lists of a literal: clauses of two literals, whose other one is the blocker, and longer ones.
#[derive(Debug, Drop)]
struct Lists {
    binary: Vec<Watch>,
    long: Vec<Watch>,
}

/// The lists of all literals by their codes, the pairs of all clauses, and the short clauses.
#[derive(Debug, Drop)]
pub struct Watches {
    alloc: Global,
    lists: Vec<Lists>,
    given: Vec<Pair>,
    learnt: Vec<Pair>,
    short: Vec<Short>,
}

impl Watches {
    /// No list. It takes no memory.
    pub fn new(alloc: Global) -> Watches {
        Watches {
            alloc,
            lists: Vec::new(alloc),
            given: Vec::new(alloc),
            learnt: Vec::new(alloc),
            short: Vec::new(alloc),
        }
    }

    /// Makes the lists of all variables up to this one.
    pub fn grow(&mut self, var: usize) -> Result<(), OutOfMemory> {
        let wanted = 2 * var.min(LAST_VARIABLE) + 2;
        for _missing in self.lists.len()..wanted {
            self.lists.push(Lists {
                binary: Vec::new(self.alloc),
                long: Vec::new(self.alloc),
            })?;
        }
        Ok(())
    }

    /// The clauses of two literals that watch this one, lent.
    pub fn binary(&self, lit: Code) -> &[Watch] {
        match self.lists.get(lit.index()) {
            None => &[],
            Some(lists) => lists.binary.as_slice(),
        }
    }

    /// The list of the longer clauses that watch a literal, which is empty afterwards.
    pub fn take(&mut self, lit: Code) -> Vec<Watch> {
        let empty = Vec::new(self.alloc);
        match self.lists.get_mut(lit.index()) {
            None => empty,
            Some(lists) => mem::replace(&mut lists.long, empty),
        }
    }

    /// Gives a literal the list of its longer clauses.
    pub fn restore(&mut self, lit: Code, list: Vec<Watch>) {
        if let Some(lists) = self.lists.get_mut(lit.index()) {
            lists.long = list;
        }
    }

    /// Adds an entry to the list of the longer clauses of a literal.
    pub fn push(&mut self, lit: Code, watch: Watch) -> Result<(), OutOfMemory> {
        if let Some(lists) = self.lists.get_mut(lit.index()) {
            lists.long.push(watch)?;
        }
        Ok(())
    }

    fn push_binary(&mut self, lit: Code, watch: Watch) -> Result<(), OutOfMemory> {
        if let Some(lists) = self.lists.get_mut(lit.index()) {
            lists.binary.push(watch)?;
        }
        Ok(())
    }

    /// The other watched literal of the clause of an entry in the list of this literal.
    pub fn other(&self, watch: Watch, gone: Code) -> Code {
        let pair = match watch.clause {
            ClauseId::Given(i) => self.given.get(i as usize).copied(),
            ClauseId::Learnt(i) => self.learnt.get(i as usize).copied(),
        };
        match pair {
            None => watch.blocker,
            Some(pair) if pair.first == gone => pair.second,
            Some(pair) => pair.first,
        }
    }

    /// Gives a clause another pair.
    pub fn set_pair(&mut self, clause: ClauseId, pair: Pair) {
        match clause {
            ClauseId::Given(i) => set_pair(&mut self.given, i as usize, pair),
            ClauseId::Learnt(i) => set_pair(&mut self.learnt, i as usize, pair),
        }
    }

    /// Begins to watch a clause of this length at these two literals of it, which differ.
    pub fn watch(
        &mut self,
        clause: ClauseId,
        one: Lit,
        other: Lit,
        len: usize,
    ) -> Result<(), OutOfMemory> {
        let first = Code::of(one);
        let second = Code::of(other);
        self.note_pair(clause, Pair { first, second })?;
        let from_first = Watch {
            clause,
            blocker: second,
        };
        let from_second = Watch {
            clause,
            blocker: first,
        };
        if len == 2 {
            self.push_binary(first, from_first)?;
            self.push_binary(second, from_second)
        } else {
            self.push(first, from_first)?;
            self.push(second, from_second)
        }
    }

    /// Notes a clause of one literal or none.
    pub fn note_short(&mut self, clause: ClauseId, lit: Option<Lit>) -> Result<(), OutOfMemory> {
        self.short.push(Short { clause, lit })?;
        Ok(())
    }

    /// The number of clauses of one literal or none.
    pub fn short_count(&self) -> usize {
        self.short.len()
    }

    /// A clause of one literal or none, by its number among these.
    pub fn short(&self, i: usize) -> Option<Short> {
        self.short.get(i).copied()
    }

    /// Takes the entries of learnt clauses that were deleted out of the lists. It looks at each entry
    /// once.
    pub fn clean(&mut self, clauses: &Clauses) {
        for lists in self.lists.iter_mut() {
            clean(&mut lists.long, clauses);
        }
    }

    /// Takes the entries of all learnt clauses out of the lists.
    pub fn drop_learnt(&mut self) {
        for lists in self.lists.iter_mut() {
            lists.binary.retain(|watch| is_given(watch.clause));
            lists.long.retain(|watch| is_given(watch.clause));
        }
        self.short.retain(|short| is_given(short.clause));
    }

    fn note_pair(&mut self, clause: ClauseId, pair: Pair) -> Result<(), OutOfMemory> {
        match clause {
            ClauseId::Given(i) => note_at(&mut self.given, i as usize, pair),
            ClauseId::Learnt(i) => note_at(&mut self.learnt, i as usize, pair),
        }
    }
}

fn clean(list: &mut Vec<Watch>, clauses: &Clauses) {
    list.retain(|watch| match watch.clause {
        ClauseId::Given(_) => true,
        ClauseId::Learnt(_) => clauses.get(watch.clause).is_some(),
    });
}

fn is_given(clause: ClauseId) -> bool {
    matches!(clause, ClauseId::Given(_))
}

fn set_pair(pairs: &mut Vec<Pair>, i: usize, pair: Pair) {
    if i < pairs.len() {
        pairs[i] = pair;
    }
}

/// Keeps the pair of clause i. Earlier clauses that have no pair yet, as short ones, get this one.
fn note_at(pairs: &mut Vec<Pair>, i: usize, pair: Pair) -> Result<(), OutOfMemory> {
    while pairs.len() <= i {
        pairs.push(pair)?;
    }
    set_pair(pairs, i, pair);
    Ok(())
}
