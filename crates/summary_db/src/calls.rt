//! The calls on a database: looking at words, claiming a function, and what follows a claim.

ghost use Rattle.std.specs.Prelude.{◌≡◌, ℕ, ◌<◌, ◌+◌, List, length, true, if◌then◌else◌, slice_index, IfSome, IfNone, vec_len};
ghost use Rattle.std.specs.List.{All};
ghost use Rattle.std.specs.Arc.{arc_value};
ghost use Rattle.plan_core.specs.Graph.{callees};
ghost use Rattle.summary_db.specs.Views.{member, looked, heard, put, left, both, ends, Looks};
ghost use Rattle.summary_db.specs.Places.{callers};
ghost use Rattle.summary_db.specs.Passes.{rows_of, work_of, view, job_view, job_function, job_asked, IsPassOf, IsJobOf, IsClaim, IsSeen};

use crate::db::Db;
use crate::{Claim, Job, Pass, Seen, Work};
use sc_base::RowList;
use std::sync::Arc;

impl<W: Work> Db<W> {
    /// Whether the function is published. The pass keeps the word that was found.
    pub fn published(&self, pass: &mut Pass<W>, function: u32) -> Seen
        requires pass { IsPassOf self.now pass.old }
        requires inside { function < length (rows_of self.now) }
        ensures pass { IsPassOf self.now pass.new }
        ensures found { (word : ℕ) × IsSeen word result × (view pass.new ≡ looked function word (view pass.old)) }
    {
        let found = self.look(&mut pass.seat, function);
        if found == 2 {
            Seen::Yes
        } else {
            Seen::No(found)
        }
    }

    /// Whether a job was abandoned. The pass keeps what was found.
    pub fn stopped(&self, pass: &mut Pass<W>) -> bool
        requires pass { IsPassOf self.now pass.old }
        ensures pass { IsPassOf self.now pass.new }
        ensures found { view pass.new ≡ heard (length (rows_of self.now)) (if result then 1 else 0) (view pass.old) }
    {
        self.hear(&mut pass.seat) == 1
    }

    /// The first callee of the function that a load found not published, with its word.
    fn waits_for(&self, pass: &mut Pass<W>, function: u32) -> Option<(u32, u64)>
        requires pass { IsPassOf self.now pass.old }
        requires inside { function < length (rows_of self.now) }
        ensures pass { IsPassOf self.now pass.new }
        ensures looks { Looks (view pass.old) (view pass.new) }
        ensures waits { IfSome result (λ r. (member r.0 (callees (rows_of self.now) function) ≡ true) × (r.1 < 2) × ((view pass.new).place ≡ r.0)
            × ((view pass.new).word ≡ r.1) × ((view pass.old).finds < (view pass.new).finds)) }
        ensures seen { IfNone result ((g : ℕ) → member g (callees (rows_of self.now) function) ≡ true → member g (view pass.new).seen ≡ true) }
    {
        let callees = self.callees_of(function);
        for callee in callees {
            match self.published(pass, *callee) {
                Seen::Yes => {}
                Seen::No(found) => return Some((*callee, found)),
            }
        }
        None
    }

    /// Tries to claim the function: it is claimed where its word was 0 and a load found each kept
    /// callee published. A pass may have several open claims, each with its own job.
    pub fn try_claim(&self, pass: &mut Pass<W>, function: u32) -> Claim<W>
        requires pass { IsPassOf self.now pass.old }
        requires inside { function < length (rows_of self.now) }
        ensures pass { IsPassOf self.now pass.new }
        ensures claim { IsClaim W.defined self.now function (view pass.old) (view pass.new) result }
    {
        if let Some((callee, found)) = self.waits_for(pass, function) {
            return Claim::Waiting { callee, found };
        }
        self.look(&mut pass.seat, function);
        let mut seat = self.begin(&mut pass.seat);
        let found = self.take_word(&mut seat, function);
        if found == 0 {
            return Claim::Claimed(Job {
                seat,
                function,
                asked: 0,
            });
        }
        self.end(&mut pass.seat, seat);
        Claim::Taken(found)
    }

    /// The output of the job's k-th kept callee, moved out of its place. The outputs are asked for
    /// in order, each once.
    pub fn callee(&self, job: &mut Job<W>, k: usize) -> Arc<W::Out>
        requires job { IsJobOf W.defined self.now job.old }
        requires next { (k ≡ job_asked job.old) × (k < length (callees (rows_of self.now) (job_function job.old))) }
        ensures job { IsJobOf W.defined self.now job.new }
        ensures asked { (job_function job.new ≡ job_function job.old) × (job_asked job.new ≡ k + 1) × (job_view job.new ≡ job_view job.old) }
        ensures output { arc_value result ≡ W.defined (work_of self.now) (slice_index (callees (rows_of self.now) (job_function job.old)) k) }
    {
        let takes = self.takes(job.function);
        let slot = takes[k];
        let output = self.swap(&mut job.seat, slot, None);
        job.asked = k + 1;
        output.unwrap()
    }

    /// How many outputs a publication of the job's function wants: one for each function that has
    /// it as a kept callee, and one for its result.
    pub fn copies(&self, job: &Job<W>) -> usize
        requires { IsJobOf W.defined self.now job.now }
        ensures { result ≡ callers (rows_of self.now) (job_function job.now) + 1 }
    {
        self.gives(job.function).len()
    }

    /// Publishes the job's function. Its result and the places to its callers are filled first, so
    /// that whoever finds it published finds its output there.
    pub fn publish(&self, pass: &mut Pass<W>, job: Job<W>, rows: RowList<W::Out>)
        requires pass { IsPassOf self.now pass.old }
        requires job { IsJobOf W.defined self.now job × (member (job_function job) (view pass.old).jobs ≡ true) }
        requires count { vec_len rows.list ≡ callers (rows_of self.now) (job_function job) + 1 }
        requires rows { All (λ row. arc_value row ≡ W.defined (work_of self.now) (job_function job)) rows.list.items }
        ensures pass { IsPassOf self.now pass.new }
        ensures published { view pass.new ≡ ends (view pass.old) (put (job_function job) (job_view job)) }
    {
        let Job {
            mut seat,
            function,
            asked,
        } = job;
        self.skip(&mut seat, function, asked);
        self.fill(&mut seat, function, rows);
        self.put_word(&mut seat, function);
        self.end(&mut pass.seat, seat);
    }

    /// Gives the job's function up. The stop word is set, the function's places come home empty,
    /// and its word stays 1 for ever.
    pub fn abandon(&self, pass: &mut Pass<W>, job: Job<W>)
        requires pass { IsPassOf self.now pass.old }
        requires job { IsJobOf W.defined self.now job × (member (job_function job) (view pass.old).jobs ≡ true) }
        ensures pass { IsPassOf self.now pass.new }
        ensures abandoned { view pass.new ≡ ends (view pass.old) (left (job_function job) (job_view job)) }
    {
        let Job {
            mut seat,
            function,
            asked,
        } = job;
        self.clear(&mut seat, function, asked);
        self.leave(&mut seat);
        self.end(&mut pass.seat, seat);
    }

    /// Takes in what the other pass stands for.
    pub fn join(&self, into: &mut Pass<W>, other: Pass<W>)
        requires { IsPassOf self.now into.old × IsPassOf self.now other }
        ensures pass { IsPassOf self.now into.new }
        ensures both { view into.new ≡ both (view into.old) (view other) }
    {
        let Pass { seat } = other;
        self.unite(&mut into.seat, seat);
    }
}
