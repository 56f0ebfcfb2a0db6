// `Cdcl`: the solver. From question to question it keeps its clauses, those learnt among them, the
// order of the variables and their signs. The assumptions of a question are on the trail alone, which
// is empty when a question begins.

ghost use Rattle.std.specs.Prelude.{◌≡◌, ◌≤◌, [], IfOk, OnOk, OnErr};
ghost use Rattle.sat_base.specs.Logic.{LitsBelow, Answers};
ghost use Rattle.sat_cdcl.specs.Certified.{Certifies};

use crate::backjump::reopen;
use crate::certify::conclude;
use crate::resolvent::Resolvent;
use crate::search::find_model;
use crate::state::Search;
use sat_base::{Answer, Lit, Log, OutOfMemory, Solver};
use sat_clauses::{ClauseId, Clauses, LAST_VARIABLE, Watches};
use sat_trail::{Activity, Trail};
use std::alloc::Global;
use std::marker::Model;

/// A solver that learns from its conflicts. Contracts see the number of variables, the clauses that
/// were added, and the values that were found last.
#[derive(Debug, Drop)]
pub struct Cdcl {
    vars: usize,
    search: Search,
    found: Vec<bool>,
}

impl Model for Cdcl {
    ghost use Rattle.sat_cdcl.specs.CdclState.{CdclState};
    ghost use Rattle.sat_base.specs.Logic.{ClausesBelow};

    ghost Value = { CdclState };

    ghost view = { λ s. record { vars = s.vars; clauses = s.search.clauses.given; found = s.found.items } };

    ghost invariant = { λ s. ClausesBelow s.vars s.search.clauses.given };
}

impl Cdcl {
    /// A solver with no variable and no clause. It takes no memory.
    pub fn new(alloc: Global) -> Cdcl
        ensures vars { result.vars ≡ 0 }
        ensures clauses { result.clauses ≡ [] }
    {
        let search = Search {
            alloc,
            trail: Trail::empty(alloc),
            clauses: Clauses::new(alloc),
            watches: Watches::new(alloc),
            activity: Activity::new(alloc),
            resolvent: Resolvent::new(alloc),
            conflict: None,
        };
        Cdcl {
            vars: 0,
            search,
            found: Vec::new(alloc),
        }
    }

    /// Answers as `solve` does. After `NoModel` the log is a certificate of the clauses with one clause of
    /// one literal for each assumed literal: its steps add each clause that was learnt, which follows by
    /// unit propagation from those that are there, take it out when it is deleted, and add the empty clause
    /// last; what it had before is dropped. After `Model` and after `OutOfMemory` the log is as before. The
    /// learnt clauses of earlier questions are deleted.
    pub fn solve_logged(&mut self, assumed: &[Lit], log: &mut Log) -> Result<Answer, OutOfMemory>
        requires { LitsBelow self.old.vars assumed.now }
        ensures vars { self.new.vars ≡ self.old.vars }
        ensures clauses { self.new.clauses ≡ self.old.clauses }
        ensures answer { IfOk result (λ answer. Answers answer self.old.vars self.old.clauses assumed.now self.new.found) }
        ensures certificate { IfOk result (λ answer. Certifies answer self.old.clauses assumed.now log.old log.new) }
        ensures err { OnErr result (log.new ≡ log.old) }
    {
        begin_log(&mut self.search);
        let outcome = self.answer_logged(assumed, log);
        self.search.clauses.drop_log();
        outcome
    }

    /// The answer, and after `NoModel` the log that was kept.
    fn answer_logged(&mut self, assumed: &[Lit], log: &mut Log) -> Result<Answer, OutOfMemory>
        requires { LitsBelow self.old.vars assumed.now }
        ensures vars { self.new.vars ≡ self.old.vars }
        ensures clauses { self.new.clauses ≡ self.old.clauses }
        ensures answer { IfOk result (λ answer. Answers answer self.old.vars self.old.clauses assumed.now self.new.found) }
        ensures certificate { IfOk result (λ answer. Certifies answer self.old.clauses assumed.now log.old log.new) }
        ensures err { OnErr result (log.new ≡ log.old) }
    {
        let answer = self.solve(assumed)?;
        match answer {
            Answer::Model => Ok(Answer::Model),
            Answer::NoModel => {
                *log = conclude(&mut self.search, assumed)?;
                Ok(Answer::NoModel)
            }
        }
    }
}

/// Deletes all learnt clauses, and begins a log.
fn begin_log(search: &mut Search)
    ensures { search.new.clauses.given ≡ search.old.clauses.given }
{
    search.conflict = None;
    search.watches.drop_learnt();
    search.activity.drop_learnt();
    search.clauses.begin_log();
}

/// Takes all steps back, and also all variables where there are more than so many.
fn empty_trail(alloc: Global, trail: &mut Trail, vars: usize)
    ensures { (trail.new.steps ≡ []) × (trail.new.vars ≤ vars) }
{
    trail.clear();
    if trail.vars() > vars {
        *trail = Trail::empty(alloc);
    }
}

/// Makes the trail one of so many variables and no step. It takes time for new variables alone.
fn prepare(alloc: Global, trail: &mut Trail, vars: usize) -> Result<(), OutOfMemory>
    ensures { OnOk result (trail.new ≡ record { vars = vars; steps = [] }) }
{
    empty_trail(alloc, trail, vars);
    while trail.vars() < vars {
        trail.grow()?;
    }
    Ok(())
}

/// Begins to watch the clause that is added next, at two literals of it that differ. One that has no
/// two such literals is noted, also the clause without a literal.
fn attach(watches: &mut Watches, id: ClauseId, clause: &[Lit]) -> Result<(), OutOfMemory> {
    let one = clause.first().copied();
    let other = clause.iter().copied().find(|lit| Some(*lit) != one);
    match (one, other) {
        (Some(one), Some(other)) => watches.watch(id, one, other, clause.len()),
        _ => watches.note_short(id, one),
    }
}

impl Solver for Cdcl {
    ghost vars = { λ s. s.vars };

    ghost clauses = { λ s. s.clauses };

    ghost found = { λ s. s.found };

    fn fresh(&mut self) -> Result<usize, OutOfMemory> {
        let var = self.vars;
        let next = var.checked_add(1).ok_or(OutOfMemory)?;
        if var > LAST_VARIABLE {
            return Err(OutOfMemory);
        }
        self.search.watches.grow(var)?;
        self.search.activity.grow()?;
        self.search.resolvent.grow()?;
        self.vars = next;
        Ok(var)
    }

    fn add(&mut self, clause: &[Lit]) -> Result<(), OutOfMemory> {
        let id = self.search.clauses.next_id()?;
        attach(&mut self.search.watches, id, clause)?;
        self.search.clauses.add(clause)?;
        self.search.activity.note_lits(clause);
        Ok(())
    }

    fn solve(&mut self, assumed: &[Lit]) -> Result<Answer, OutOfMemory> {
        let search = &mut self.search;
        search.activity.allow_for(search.clauses.count());
        reopen(&search.trail, &mut search.activity, 0)?;
        prepare(search.alloc, &mut search.trail, self.vars)?;
        let found = find_model(search, assumed)?;
        match found {
            None => Ok(Answer::NoModel),
            Some(values) => {
                self.found = values;
                Ok(Answer::Model)
            }
        }
    }

    fn prefer(&mut self, lits: Vec<Lit>) {
        self.search.activity.prefer(lits);
    }

    #[tactic(auto, unfolding(sat_base::specs::Logic::at))]
    fn model(&self, var: usize) -> bool {
        self.found[var]
    }
}
