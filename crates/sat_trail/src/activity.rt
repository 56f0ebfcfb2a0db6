// Which variable is decided next: the one that took part in the most conflicts of late; and how much
// each learnt clause did. No answer rests on either.

use sat_base::{Lit, OutOfMemory};
use sat_clauses::ClauseId;
use std::alloc::Global;

/// The activities of the variables, and a heap of those that may be open. Where one is missing, the
/// last look over all variables finds it.
#[derive(Debug, Drop)]
pub struct Activity {
    score: Vec<u64>,
    heap: Vec<usize>,
    place: Vec<usize>,
    step: u64,
    /// The sign with which each variable is decided.
    phases: Vec<Phase>,
    /// The scores of the learnt clauses by their numbers, which age more slowly.
    uses: Vec<u64>,
    use_step: u64,
    /// How many learnt clauses there are, and how many there may be.
    live: usize,
    limit: usize,
    preferred: Preferred,
}

/// Literals that are decided before all others, in their order, as false.
#[derive(Debug, Drop)]
struct Preferred {
    lits: Vec<Lit>,
    /// The literals before this place have values, so that no decision looks through the list anew.
    next: usize,
    /// The first place of each variable in the list, or one past every place.
    places: Vec<usize>,
}

/// The sign of a variable: that which it had last, and before it had any, that in which most of its
/// literals in the clauses stand.
#[derive(Clone, Copy, Debug)]
struct Phase {
    neg: bool,
    had_value: bool,
    /// How many more of its literals are negations.
    excess: i32,
}

/// A heap of numbers that fit into memory has no more levels than this.
const LEVELS: u32 = 64;

/// Above this score all scores and the step are halved many times.
const HIGHEST: u64 = 1 << 60;

/// There may be so many learnt clauses at first, and so many more after each time that some were
/// deleted.
const FIRST_LIMIT: usize = 1000;

const LIMIT_STEP: usize = 50;

impl Phase {
    fn note(&mut self, neg: bool) {
        self.excess = if neg {
            self.excess.saturating_add(1)
        } else {
            self.excess.saturating_sub(1)
        };
        if !self.had_value {
            self.neg = self.excess >= 0;
        }
    }
}

impl Preferred {
    fn new(alloc: Global) -> Preferred {
        Preferred {
            lits: Vec::new(alloc),
            next: 0,
            places: Vec::new(alloc),
        }
    }

    /// Takes these literals in place of those before.
    fn replace(&mut self, lits: Vec<Lit>) {
        for lit in self.lits.iter() {
            if let Some(place) = self.places.get_mut(lit.var) {
                *place = usize::MAX;
            }
        }
        for (i, lit) in lits.iter().enumerate() {
            if let Some(place) = self.places.get_mut(lit.var) {
                *place = (*place).min(i);
            }
        }
        self.lits = lits;
        self.next = 0;
    }

    /// The next literal, if there is one more; it is passed.
    fn pass(&mut self) -> Option<Lit> {
        let lit = self.lits.get(self.next).copied()?;
        self.next += 1;
        Some(lit)
    }

    /// Goes back to a variable that has no value any more.
    fn reopen(&mut self, var: usize) {
        if let Some(place) = self.places.get(var).copied() {
            self.next = self.next.min(place);
        }
    }
}

impl Activity {
    /// No variable. It takes no memory.
    pub fn new(alloc: Global) -> Activity {
        Activity {
            score: Vec::new(alloc),
            heap: Vec::new(alloc),
            place: Vec::new(alloc),
            phases: Vec::new(alloc),
            step: 1 << 10,
            uses: Vec::new(alloc),
            use_step: 1 << 20,
            live: 0,
            limit: FIRST_LIMIT,
            preferred: Preferred::new(alloc),
        }
    }

    /// From now on these literals are decided first, in their order, as false.
    pub fn prefer(&mut self, lits: Vec<Lit>) {
        self.preferred.replace(lits);
    }

    /// How many literals are decided first.
    pub fn preferred_count(&self) -> usize {
        self.preferred.lits.len()
    }

    /// The next of the literals that are decided first; it is passed until its variable is reopened.
    pub fn pass_preferred(&mut self) -> Option<Lit> {
        self.preferred.pass()
    }

    /// One variable more.
    pub fn grow(&mut self) -> Result<(), OutOfMemory> {
        let var = self.score.len();
        self.score.push(0)?;
        self.place.push(usize::MAX)?;
        self.preferred.places.push(usize::MAX)?;
        self.phases.push(Phase {
            neg: true,
            had_value: false,
            excess: 0,
        })?;
        self.insert(var)?;
        Ok(())
    }

    /// Puts a variable into the heap, if it is not there.
    pub fn insert(&mut self, var: usize) -> Result<(), OutOfMemory> {
        if var < self.place.len() && self.place[var] >= self.heap.len() {
            let last = self.heap.len();
            self.heap.push(var)?;
            self.place[var] = last;
            self.rise(last);
        }
        Ok(())
    }

    /// Notes the literals of a clause that is given: a variable that had no value yet is decided with
    /// the sign of most of its literals.
    pub fn note_lits(&mut self, clause: &[Lit]) {
        for lit in clause {
            if let Some(phase) = self.phases.get_mut(lit.var) {
                phase.note(lit.neg);
            }
        }
    }

    /// The sign with which a variable is decided.
    pub fn sign(&self, var: usize) -> bool {
        match self.phases.get(var) {
            None => true,
            Some(phase) => phase.neg,
        }
    }

    /// Makes the variable of a literal that was taken back ready for a decision, with this sign.
    pub fn reopen(&mut self, lit: Lit) -> Result<(), OutOfMemory> {
        if let Some(phase) = self.phases.get_mut(lit.var) {
            phase.neg = lit.neg;
            phase.had_value = true;
        }
        self.preferred.reopen(lit.var);
        self.insert(lit.var)
    }

    /// Takes the variable of the highest score out of the heap.
    pub fn pop(&mut self) -> Option<usize> {
        let last = self.heap.pop()?;
        match self.heap.first().copied() {
            None => {
                self.leave(last);
                Some(last)
            }
            Some(top) => {
                self.leave(top);
                self.set(0, last);
                self.sink();
                Some(top)
            }
        }
    }

    /// Raises the score of a variable.
    pub fn bump(&mut self, var: usize) {
        if var < self.score.len() && var < self.place.len() {
            let place = self.place[var];
            self.score[var] = self.score[var].saturating_add(self.step);
            if self.score[var] > HIGHEST {
                self.rescale();
            }
            self.rise(place);
        }
    }

    /// One learnt clause more, of this name.
    pub fn note_clause(&mut self, clause: ClauseId) -> Result<(), OutOfMemory> {
        if let ClauseId::Learnt(i) = clause {
            for _missing in self.uses.len()..i as usize + 1 {
                self.uses.push(0)?;
            }
            if let Some(score) = self.uses.get_mut(i as usize) {
                *score = self.use_step;
            }
            self.live = self.live.saturating_add(1);
        }
        Ok(())
    }

    /// There may be a third as many learnt clauses as there are given ones, if that is more.
    pub fn allow_for(&mut self, given: usize) {
        self.limit = self.limit.max(given / 3);
    }

    /// Whether there are so many learnt clauses that some are to be deleted.
    pub fn is_full(&self) -> bool {
        self.live >= self.limit
    }

    /// So many learnt clauses were deleted.
    pub fn was_reduced(&mut self, deleted: usize) {
        self.live = self.live.saturating_sub(deleted);
        self.limit = self.limit.saturating_add(LIMIT_STEP);
    }

    /// All learnt clauses were deleted.
    pub fn drop_learnt(&mut self) {
        self.live = 0;
    }

    /// The score of the learnt clause of a number.
    pub fn use_of(&self, number: usize) -> u64 {
        self.uses.get(number).copied().unwrap_or(0)
    }

    /// Raises the score of a clause, if it is a learnt one.
    pub fn bump_clause(&mut self, clause: ClauseId) {
        if let ClauseId::Learnt(i) = clause
            && let Some(score) = self.uses.get_mut(i as usize)
        {
            *score = score.saturating_add(self.use_step);
            if *score > HIGHEST {
                self.rescale_uses();
            }
        }
    }

    /// Makes later rises count for more.
    pub fn decay(&mut self) {
        self.step = self.step.saturating_add(self.step / 16);
        if self.step > HIGHEST {
            self.rescale();
        }
        self.use_step = self.use_step.saturating_add(self.use_step / 1024);
        if self.use_step > HIGHEST {
            self.rescale_uses();
        }
    }

    fn rescale(&mut self) {
        for score in self.score.iter_mut() {
            *score = *score >> 40;
        }
        self.step = (self.step >> 40) + 1;
    }

    fn rescale_uses(&mut self) {
        for score in self.uses.iter_mut() {
            *score = *score >> 30;
        }
        self.use_step = (self.use_step >> 30) + 1;
    }

    fn leave(&mut self, var: usize) {
        if var < self.place.len() {
            self.place[var] = usize::MAX;
        }
    }

    fn set(&mut self, place: usize, var: usize) {
        if place < self.heap.len() && var < self.place.len() {
            self.heap[place] = var;
            self.place[var] = place;
        }
    }

    /// The score of the variable at a place of the heap.
    fn score_at(&self, place: usize) -> u64 {
        match self.heap.get(place).copied() {
            None => 0,
            Some(var) => self.score.get(var).copied().unwrap_or(0),
        }
    }

    fn exchange(&mut self, one: usize, other: usize) {
        if one < self.heap.len() && other < self.heap.len() {
            let first = self.heap[one];
            let second = self.heap[other];
            self.set(one, second);
            self.set(other, first);
        }
    }

    /// Moves what stands at a place up, while it is above what stands there.
    fn rise(&mut self, place: usize) {
        let mut at = place;
        for _level in 0..LEVELS {
            if at == 0 || at >= self.heap.len() {
                return;
            }
            let above = (at - 1) / 2;
            if self.score_at(at) <= self.score_at(above) {
                return;
            }
            self.exchange(at, above);
            at = above;
        }
    }

    /// Moves what stands at the top down, while something below is above it.
    fn sink(&mut self) {
        let mut at = 0;
        for _level in 0..LEVELS {
            if at >= self.heap.len() / 2 {
                return;
            }
            let left = 2 * at + 1;
            let right = left + 1;
            let best = if right < self.heap.len() && self.score_at(right) > self.score_at(left) {
                right
            } else {
                left
            };
            if self.score_at(best) <= self.score_at(at) {
                return;
            }
            self.exchange(at, best);
            at = best;
        }
    }
}
