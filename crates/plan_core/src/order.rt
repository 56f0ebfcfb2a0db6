//! Whether the kept edges of a plan have a cycle: they have none exactly where the functions can be
//! put in an order in which each stands behind its callees (Kahn's order). A function gets its place
//! once its callees have theirs, and until then it waits for the first one that has none. So each
//! edge is looked at once, and the time is linear in the functions and the edges.

ghost use Rattle.std.specs.Prelude.{◌≡◌, ◌≤◌, ◌<◌, ◌+◌, ◌↔◌, ℕ, List, length, slice_index, true, false};
ghost use Rattle.std.specs.Prelude.{IsTrue, IfOk, OnOk, Contains};
ghost use Rattle.plan_core.specs.Graph.{callees, IsGraph};
ghost use Rattle.plan_core.specs.Order.{is_placed, IsKept, IsSettled, HasNoCycle};

use crate::Plan;
use sc_base::{List, OutOfMemory};
use std::alloc::Global;
use std::mem;

/// The functions of a plan, some of which are in order already.
#[derive(Drop)]
pub(crate) struct Order {
    /// Whether the function has its place.
    placed: Vec<bool>,
    /// How many of its first callees were found to have their places.
    met: Vec<usize>,
    /// The functions that wait for it.
    waiting: Vec<List<u32>>,
    /// The functions that have their places, in order.
    order: Vec<u32>,
}

impl Order {
    /// No function has its place.
    fn new(alloc: Global, plan: &Plan) -> Result<Order, OutOfMemory>
        ensures { IfOk result (λ s. IsKept plan.now.callees s) }
    {
        let mut waiting = Vec::new(alloc);
        for _function in 0..plan.len() {
            waiting.push(List::new(alloc))?;
        }
        let placed = vec![in alloc; false; plan.len()]?;
        let met = vec![in alloc; 0usize; plan.len()]?;
        Ok(Order {
            placed,
            met,
            waiting,
            order: Vec::new(alloc),
        })
    }

    /// The first of these functions, from `from` on, that has no place; their number where there is
    /// none.
    fn first_open(&self, functions: &[u32], from: usize) -> usize
        requires from { from ≤ length functions.now }
        requires inside { (k : ℕ) → k < length functions.now → slice_index functions.now k < length self.now.placed.items }
        ensures range { (from ≤ result) × (result ≤ length functions.now) }
        ensures placed { (k : ℕ) → from ≤ k → k < result → is_placed self.now.placed.items (slice_index functions.now k) ≡ true }
        ensures unplaced { result < length functions.now → is_placed self.now.placed.items (slice_index functions.now result) ≡ false }
    {
        for k in from..functions.len() {
            if !self.placed[functions[k] as usize] {
                return k;
            }
        }
        functions.len()
    }

    /// How many of the function's first callees have their places. The number is kept.
    fn meet(&mut self, plan: &Plan, function: u32) -> usize
        requires inside { function < length plan.now.callees }
        requires graph { IsGraph plan.now.callees }
        requires kept { IsKept plan.now.callees self.old }
        ensures kept { IsKept plan.now.callees self.new }
        ensures same { (self.new.placed ≡ self.old.placed) × (self.new.waiting ≡ self.old.waiting) × (self.new.order ≡ self.old.order) }
        ensures few { result ≤ length (callees plan.now.callees function) }
        ensures placed { (k : ℕ) → k < result
            → is_placed self.new.placed.items (slice_index (callees plan.now.callees function) k) ≡ true }
        ensures unplaced { result < length (callees plan.now.callees function)
            → is_placed self.new.placed.items (slice_index (callees plan.now.callees function) result) ≡ false }
    {
        let met = self.first_open(plan.callees_of(function), self.met[function as usize]);
        self.met[function as usize] = met;
        met
    }

    /// The function waits for this callee, which has no place.
    fn wait(&mut self, callee: u32, function: u32) -> Result<(), OutOfMemory>
        requires inside { callee < length self.old.waiting.items }
        requires unplaced { is_placed self.old.placed.items callee ≡ false }
        ensures kept { OnOk result ((rows : List (List ℕ)) → function < length rows → IsKept rows self.old → IsKept rows self.new) }
        ensures settled { OnOk result ((rows : List (List ℕ)) (turn : ℕ) → Contains (callees rows function) callee → IsSettled rows self.new turn function) }
        ensures others { OnOk result ((rows : List (List ℕ)) (turn f : ℕ) → IsSettled rows self.old turn f → IsSettled rows self.new turn f) }
        ensures order { self.new.order ≡ self.old.order }
    {
        self.waiting[callee as usize].push(function)?;
        Ok(())
    }

    /// The function, which has no place, gets the next one.
    fn place(&mut self, function: u32) -> Result<(), OutOfMemory>
        requires inside { function < length self.old.placed.items }
        requires unplaced { is_placed self.old.placed.items function ≡ false }
        ensures kept { OnOk result ((rows : List (List ℕ)) → IsKept rows self.old
            → ((g : ℕ) → Contains (callees rows function) g → is_placed self.old.placed.items g ≡ true) → IsKept rows self.new) }
        ensures settled { OnOk result (is_placed self.new.placed.items function ≡ true) }
        ensures others { OnOk result ((rows : List (List ℕ)) (turn f : ℕ) → turn ≤ length self.old.order.items
            → IsSettled rows self.old turn f → IsSettled rows self.new turn f) }
        ensures longer { OnOk result (length self.old.order.items ≤ length self.new.order.items) }
    {
        self.placed[function as usize] = true;
        self.order.push(function)?;
        Ok(())
    }

    /// Gives the function its place where all its callees have theirs. Else it waits for the first
    /// one that has none.
    fn settle(&mut self, plan: &Plan, function: u32) -> Result<(), OutOfMemory>
        requires inside { function < length plan.now.callees }
        requires graph { IsGraph plan.now.callees }
        requires kept { IsKept plan.now.callees self.old }
        ensures kept { OnOk result (IsKept plan.now.callees self.new) }
        ensures settled { OnOk result ((turn : ℕ) → IsSettled plan.now.callees self.new turn function) }
        ensures others { OnOk result ((turn f : ℕ) → turn ≤ length self.old.order.items
            → IsSettled plan.now.callees self.old turn f → IsSettled plan.now.callees self.new turn f) }
        ensures longer { OnOk result (length self.old.order.items ≤ length self.new.order.items) }
    {
        let met = self.meet(plan, function);
        let callees = plan.callees_of(function);
        if met < callees.len() {
            return self.wait(callees[met], function);
        }
        if self.placed[function as usize] {
            return Ok(());
        }
        self.place(function)
    }

    /// Settles the functions that wait for the one that stands at `turn` in the order, if any.
    fn wake(&mut self, alloc: Global, plan: &Plan, turn: usize) -> Result<(), OutOfMemory>
        requires graph { IsGraph plan.now.callees }
        requires kept { IsKept plan.now.callees self.old }
        ensures kept { OnOk result (IsKept plan.now.callees self.new) }
        ensures settled { OnOk result ((f : ℕ) → IsSettled plan.now.callees self.old turn f → IsSettled plan.now.callees self.new (turn + 1) f) }
    {
        if turn >= self.order.len() {
            return Ok(());
        }
        let placed = self.order[turn] as usize;
        let waiting = mem::replace(&mut self.waiting[placed], List::new(alloc));
        for function in waiting.as_slice() {
            self.settle(plan, *function)?;
        }
        Ok(())
    }

    /// Whether all functions have their places.
    fn is_whole(&self) -> bool
        ensures { IsTrue result ↔ ((f : ℕ) → f < length self.now.placed.items → is_placed self.now.placed.items f ≡ true) }
    {
        for placed in &self.placed {
            if !*placed {
                return false;
            }
        }
        true
    }
}

/// Whether the kept edges of the plan have no cycle.
pub(crate) fn has_no_cycle(alloc: Global, plan: &Plan) -> Result<bool, OutOfMemory>
    requires { IsGraph plan.now.callees }
    ensures { IfOk result (λ answer. IsTrue answer ↔ HasNoCycle plan.now.callees) }
{
    let mut order = Order::new(alloc, plan)?;
    for function in 0..plan.len() {
        order.settle(plan, function as u32)?;
    }
    for turn in 0..plan.len() {
        order.wake(alloc, plan, turn)?;
    }
    Ok(order.is_whole())
}
