//! The state of the core: a mark for each function of a plan, and the two steps that change it.

ghost use Rattle.std.specs.Prelude.{◌≡◌, ◌==◌, ◌<◌, ◌^◌, ℕ, List, length, true, false, IfSome, IfNone, IfOk, IsSome};

use crate::{Mark, Plan};
use sc_base::OutOfMemory;
use std::alloc::Global;
use std::marker::Model;

/// How far each function of a plan has come, in program order. Contracts see the list of marks.
/// A state is used with the plan that it was made for, or another of as many functions.
#[derive(Debug, Drop)]
pub struct CoreState {
    marks: Vec<Mark>,
}

impl Model for CoreState {
    ghost use Rattle.std.specs.Prelude.{List, length, ◌<◌, ◌^◌};
    ghost use Rattle.plan_core.specs.declared.mark.Mark.{Mark};

    ghost Value = { List Mark };

    ghost view = { λ s. s.marks.items };

    ghost invariant = { λ s. length s.marks.items < 2 ^ 32 };
}

impl CoreState {
    ghost use Rattle.plan_core.specs.Graph.{callees, IsPlan};
    ghost use Rattle.plan_core.specs.Core.{mark_of, start, all_published, may_claim, applies, after, is_claimed_by, is_free, is_published, Claim, Publish, IsSound, IsLeastClaimable, NoneIsClaimed, SomeIsFree};

    /// The state in which every function of the plan is free.
    pub fn new(alloc: Global, plan: &Plan) -> Result<CoreState, OutOfMemory>
        requires { length plan.now.callees < 2 ^ 32 }
        ensures { IfOk result (λ state. state ≡ start plan.now.callees) }
    {
        let marks = vec![in alloc; Mark::Free; plan.len()]?;
        Ok(CoreState { marks })
    }

    /// The number of functions.
    pub fn len(&self) -> usize
        ensures { result ≡ length self.now }
    {
        self.marks.len()
    }

    /// Whether there is no function.
    pub fn is_empty(&self) -> bool
        ensures { result ≡ (length self.now == 0) }
    {
        self.marks.is_empty()
    }

    #[tactic(auto, using(crate::proofs::Marks::claim_sound))]
    /// Gives the function to the worker where it is free and all callees that the plan keeps are
    /// published, and says whether it did. Where it did not, nothing changes.
    pub fn claim(&mut self, plan: &Plan, worker: u32, function: u32) -> bool
        requires inside { function < length self.old }
        requires same { length plan.now.callees ≡ length self.old }
        ensures applied { result ≡ applies plan.now.callees self.old (Claim worker function) }
        ensures after { self.new ≡ after plan.now.callees self.old (Claim worker function) }
        ensures size { length self.new ≡ length self.old }
        ensures sound { IsSound plan.now.callees (mark_of self.old) → IsSound plan.now.callees (mark_of self.new) }
    {
        let may = self.may_claim(plan, function);
        if may {
            self.marks[function as usize] = Mark::Claimed(worker);
        }
        may
    }

    /// Publishes the function where this worker has claimed it, and says whether it did. Where it
    /// did not, nothing changes. What the callees are does not matter any more.
    pub fn publish(&mut self, worker: u32, function: u32) -> bool
        requires { function < length self.old }
        ensures applied { (rows : List (List ℕ)) → result ≡ applies rows self.old (Publish worker function) }
        ensures after { (rows : List (List ℕ)) → self.new ≡ after rows self.old (Publish worker function) }
        ensures size { length self.new ≡ length self.old }
        ensures sound { (rows : List (List ℕ)) → IsSound rows (mark_of self.old) → IsSound rows (mark_of self.new) }
    {
        let owned = self.is_claimed_by(worker, function);
        if owned {
            self.marks[function as usize] = Mark::Published;
        }
        owned
    }

    /// The first function in program order that may be claimed. Where no function is claimed and
    /// some function is free there is one, since a plan has no cycle.
    pub fn claimable(&self, plan: &Plan) -> Option<u32>
        requires { length plan.now.callees ≡ length self.now }
        ensures least { IfSome result (IsLeastClaimable plan.now.callees self.now) }
        ensures none { IfNone result ((f : ℕ) → may_claim plan.now.callees self.now f ≡ false) }
        ensures some { IsPlan plan.now.callees → NoneIsClaimed self.now → SomeIsFree self.now → IsSome result }
    {
        for function in 0..self.marks.len() {
            if self.may_claim(plan, function as u32) {
                return Some(function as u32);
            }
        }
        None
    }

    /// The mark of a function; a function outside the plan counts as published.
    fn mark(&self, function: u32) -> Mark
        ensures { result ≡ mark_of self.now function }
    {
        self.marks
            .get(function as usize)
            .copied()
            .unwrap_or(Mark::Published)
    }

    /// Whether the function is free.
    fn is_free(&self, function: u32) -> bool
        ensures { result ≡ is_free (mark_of self.now function) }
    {
        match self.mark(function) {
            Mark::Free => true,
            Mark::Claimed(_) | Mark::Published => false,
        }
    }

    /// Whether the function is published.
    fn is_published(&self, function: u32) -> bool
        ensures { result ≡ is_published (mark_of self.now function) }
    {
        match self.mark(function) {
            Mark::Published => true,
            Mark::Free | Mark::Claimed(_) => false,
        }
    }

    /// Whether this worker has claimed the function.
    fn is_claimed_by(&self, worker: u32, function: u32) -> bool
        ensures { result ≡ is_claimed_by worker (mark_of self.now function) }
    {
        match self.mark(function) {
            Mark::Claimed(owner) => owner == worker,
            Mark::Free | Mark::Published => false,
        }
    }

    /// Whether all these functions are published.
    fn all_published(&self, functions: &[u32]) -> bool
        ensures { result ≡ all_published self.now functions.now }
    {
        functions
            .iter()
            .all(|function| self.is_published(*function))
    }

    /// Whether the function is free and all its kept callees are published.
    fn may_claim(&self, plan: &Plan, function: u32) -> bool
        requires { function < length plan.now.callees }
        ensures { result ≡ may_claim plan.now.callees self.now function }
    {
        self.is_free(function) && self.all_published(plan.callees_of(function))
    }
}
