// The clauses: those given, in the order in which they came, and those learnt. Each clause that was
// learnt follows from those given. A log of the learnt clauses can be kept, for a certificate: its steps
// add each clause that is learnt and take it out when it is deleted, and each follows by unit propagation
// from the clauses that are there before it.

ghost use Rattle.std.specs.Prelude.{◌≡◌, ◌≤◌, ◌<◌, ◌++◌, ◌∷◌, [], ℕ, List, Some, None, length, slice_get, IfOk, IfSome, OnOk, OnErr, MatchOption};
ghost use Rattle.sat_base.specs.declared.literal.Lit.{Lit};
ghost use Rattle.sat_base.specs.Certificates.{IsCertificate};
ghost use Rattle.sat_clauses.specs.Held.{Entails, clauses_of, AllLive};
ghost use Rattle.sat_clauses.specs.Learnt.{Thins};
ghost use Rattle.sat_clauses.specs.Certified.{noted, units, MayEnd, IsKnown, IsInferred, IsRefuted, IsRecorded};

use crate::learnt::Learnt;
use sat_base::{Clause, Lit, Log, OutOfMemory, Step};
use sat_pool::{Pool, Ref};
use std::alloc::Global;
use std::marker::Model;

/// The name of a clause: its place among those given, or its number among those learnt.
#[derive(Clone, Copy, Debug, PartialEq, Eq)]
pub enum ClauseId {
    Given(u32),
    Learnt(u32),
}

impl ClauseId {
    /// The name of the given clause at a place, which is below 2^32.
    pub fn given(place: usize) -> Option<ClauseId> {
        match u32::try_from(place) {
            Ok(number) => Some(ClauseId::Given(number)),
            Err(_) => None,
        }
    }
}

/// All clauses. Contracts see those given, and those learnt that are there.
#[derive(Debug, Drop)]
pub struct Clauses {
    alloc: Global,
    pool: Pool,
    given: Vec<Ref>,
    learnt: Learnt,
    /// The steps since the log was begun, if one is kept: a clause that was learnt, or deleted.
    log: Option<Log>,
}

impl Model for Clauses {
    ghost use Rattle.sat_clauses.specs.Held.{clauses_of, IsHeld};
    ghost use Rattle.sat_clauses.specs.Certified.{HeldState, IsRecorded, present};

    ghost Value = { HeldState };

    ghost view = { λ c. record { given = clauses_of c.pool c.given.items; learnt = present c.learnt } };

    ghost invariant = { λ c. IsHeld c.pool c.given.items c.learnt
        × IsRecorded (clauses_of c.pool c.given.items) c.learnt c.log };
}

/// The clause of one of these references.
fn clause_at<'a>(pool: &'a Pool, refs: &[Ref], i: usize) -> Option<&'a [Lit]>
    requires { AllLive pool.now refs.now }
    ensures { MatchOption result (length refs.now ≤ i) (λ c. slice_get (clauses_of pool.now refs.now) i ≡ Some c.now) }
{
    match ref_at(refs, i) {
        None => None,
        Some(r) => Some(pool.get(r)),
    }
}

/// One of these references.
fn ref_at(refs: &[Ref], i: usize) -> Option<Ref>
    ensures { result ≡ slice_get refs.now i }
{
    refs.get(i).copied()
}

/// Adds a step for a clause to the log, if one is kept.
fn note_step(alloc: Global, log: &mut Option<Log>, clause: &[Lit]) -> Result<(), OutOfMemory>
    ensures ok { OnOk result (log.new ≡ noted log.old clause.now) }
    ensures err { OnErr result (log.new ≡ log.old) }
{
    match log {
        None => Ok(()),
        Some(log) => {
            let clause = Clause::of(alloc, clause)?;
            log.push(Step::Add(clause))
        }
    }
}

/// Adds a step for the deletion of a clause to the log, if one is kept. Where memory is refused the log
/// is as before, and the clause stays there for those who read it.
fn note_end(alloc: Global, log: &mut Option<Log>, clause: &[Lit])
    ensures { MayEnd log.old log.new clause.now }
{
    if let Some(log) = log
        && let Ok(clause) = Clause::of(alloc, clause)
    {
        let _noted = log.push(Step::Drop(clause));
    }
}

/// Deletes the learnt clause of a number, if it is there, and notes it in the log, if one is kept.
fn forget_one(alloc: Global, learnt: &mut Learnt, log: &mut Option<Log>, i: usize)
    ensures thins { Thins learnt.old learnt.new }
    ensures recorded { (given : List (List Lit)) → IsRecorded given learnt.old log.old → IsRecorded given learnt.new log.new }
{
    if let Some(clause) = learnt.get(i) {
        note_end(alloc, log, clause);
        learnt.take_out(i);
    }
}

/// Deletes the learnt clauses that are marked.
fn forget_marked(alloc: Global, learnt: &mut Learnt, log: &mut Option<Log>, marked: &[bool])
    ensures thins { Thins learnt.old learnt.new }
    ensures recorded { (given : List (List Lit)) → IsRecorded given learnt.old log.old → IsRecorded given learnt.new log.new }
{
    for i in 0..marked.len() {
        if marked[i] {
            forget_one(alloc, learnt, log, i);
        }
    }
}

impl Clauses {
    /// No clause, and no log. It takes no memory.
    pub fn new(alloc: Global) -> Clauses
        ensures { result.given ≡ [] }
    {
        Clauses {
            alloc,
            pool: Pool::new(alloc),
            given: Vec::new(alloc),
            learnt: Learnt::new(alloc),
            log: None,
        }
    }

    /// The number of given clauses.
    pub fn count(&self) -> usize
        ensures { result ≡ length self.now.given }
    {
        self.given.len()
    }

    /// The given clause of this number.
    pub fn given(&self, i: usize) -> Option<&[Lit]>
        ensures { MatchOption result (length self.now.given ≤ i) (λ c. slice_get self.now.given i ≡ Some c.now) }
    {
        clause_at(&self.pool, self.given.as_slice(), i)
    }

    /// The clause of this name.
    pub fn get(&self, id: ClauseId) -> Option<&[Lit]>
        ensures entailed { IfSome result (λ c. Entails self.now.given c.now) }
        ensures known { IfSome result (λ c. IsKnown self.now c.now) }
    {
        match id {
            ClauseId::Given(i) => clause_at(&self.pool, self.given.as_slice(), i as usize),
            ClauseId::Learnt(i) => self.learnt.get(i as usize),
        }
    }

    /// The name of the clause that is added next. There may be 2^32 of them.
    pub fn next_id(&self) -> Result<ClauseId, OutOfMemory> {
        ClauseId::given(self.given.len()).ok_or(OutOfMemory)
    }

    /// Adds a given clause.
    pub fn add(&mut self, clause: &[Lit]) -> Result<(), OutOfMemory>
        ensures ok { IfOk result (λ _. self.new.given ≡ self.old.given ++ clause.now ∷ []) }
        ensures err { OnErr result (self.new.given ≡ self.old.given) }
    {
        let r = self.pool.put(clause)?;
        self.given.push(r)?;
        Ok(())
    }

    /// The numbers of learnt clauses are below this one.
    pub fn learnt_count(&self) -> usize {
        self.learnt.count()
    }

    /// Adds a clause that follows from those given, and by unit propagation from those that are held.
    pub fn learn(&mut self, clause: &[Lit]) -> Result<ClauseId, OutOfMemory>
        requires entailed { Entails self.old.given clause.now }
        requires inferred { IsInferred self.old clause.now }
        ensures { self.new.given ≡ self.old.given }
    {
        note_step(self.alloc, &mut self.log, clause)?;
        let number = self.learnt.push(clause)?;
        Ok(ClauseId::Learnt(number))
    }

    /// Deletes the learnt clauses that are marked, and lays out those that are left where there is
    /// memory for it.
    pub fn forget(&mut self, marked: &[bool])
        ensures { self.new.given ≡ self.old.given }
    {
        forget_marked(self.alloc, &mut self.learnt, &mut self.log, marked);
        self.learnt.lay_out();
    }

    /// Begins a log, and deletes all learnt clauses, which it does not derive.
    pub fn begin_log(&mut self)
        ensures { self.new.given ≡ self.old.given }
    {
        self.learnt = Learnt::new(self.alloc);
        self.log = Some(Log::new(self.alloc));
    }

    /// Ends the log, if one is kept.
    pub fn drop_log(&mut self)
        ensures { self.new.given ≡ self.old.given }
    {
        self.log = None;
    }

    /// Ends the log with the empty clause, and hands it out.
    pub fn finish_log(&mut self, assumed: &[Lit]) -> Result<Log, OutOfMemory>
        requires { IsRefuted self.old assumed.now }
        ensures given { self.new.given ≡ self.old.given }
        ensures certificate { IfOk result (λ log. IsCertificate (self.old.given ++ units assumed.now) log) }
    {
        let mut log = match self.log.take() {
            None => return Err(OutOfMemory),
            Some(log) => log,
        };
        let empty = Clause::of(self.alloc, &[])?;
        log.push(Step::Add(empty))?;
        Ok(log)
    }
}
