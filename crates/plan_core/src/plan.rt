//! The plan of a call graph: for each function the callees that are analysed before it, and the
//! edges that were cut so that the others have no cycle.

ghost use Rattle.std.specs.Prelude.{◌≡◌, ◌==◌, ◌<◌, ◌↔◌, List, ℕ, length, IsTrue, IfOk};
ghost use Rattle.plan_core.specs.Graph.{callees, Reaches, IsCut, IsPlan};
ghost use Rattle.plan_core.specs.Order.{IsRow};

use crate::order::has_no_cycle;
use sc_base::{List, OutOfMemory};
use std::alloc::Global;

/// Whether the row is ascending, with each callee once and below the number of functions.
fn is_row(row: &[u32], count: usize) -> bool
    ensures { IsTrue result ↔ IsRow count row.now }
{
    for k in 0..row.len() {
        if row[k] as usize >= count {
            return false;
        }
        if k > 0 && row[k - 1] >= row[k] {
            return false;
        }
    }
    true
}

/// An edge of the call graph: the caller's body calls the callee by name. Both are functions by
/// their number in program order.
#[derive(Clone, Copy, Debug, PartialEq, Eq)]
pub struct Edge {
    pub caller: u32,
    pub callee: u32,
}

impl Edge {
    /// Whether the edge is cut, where `back` says whether its callee reaches its caller in the
    /// call graph: an edge that lies on a cycle is cut where it does not lead forward in program
    /// order.
    pub fn is_cut(&self, back: bool) -> bool
        ensures { (rows : List (List ℕ)) → (IsTrue back ↔ Reaches rows self.now.callee self.now.caller)
            → (IsTrue result ↔ IsCut rows self.now.caller self.now.callee) }
    {
        back && self.callee <= self.caller
    }
}

/// The plan of a call graph. `callees` has a row for each function, in program order: its kept
/// callees, ascending. `cut` has the edges that were cut, ascending by caller and then by callee.
#[derive(Debug, Drop, PartialEq, Eq)]
pub struct Plan {
    pub callees: List<List<u32>>,
    pub cut: List<Edge>,
}

impl Plan {
    /// The number of functions.
    pub fn len(&self) -> usize
        ensures { result ≡ length self.now.callees }
    {
        self.callees.len()
    }

    /// Whether there is no function.
    pub fn is_empty(&self) -> bool
        ensures { result ≡ (length self.now.callees == 0) }
    {
        self.callees.is_empty()
    }

    /// The kept callees of a function, ascending.
    pub fn callees_of(&self, function: u32) -> &[u32]
        requires { function < length self.now.callees }
        ensures { result.now ≡ callees self.now.callees function }
    {
        self.callees.as_slice()[function as usize].as_slice()
    }

    /// Whether every row of kept callees is ascending, with each callee once and a function of the
    /// plan.
    fn has_rows(&self) -> bool
        ensures { IsTrue result ↔ ((f : ℕ) → f < length self.now.callees → IsRow (length self.now.callees) (callees self.now.callees f)) }
    {
        for row in self.callees.as_slice() {
            if !is_row(row.as_slice(), self.len()) {
                return false;
            }
        }
        true
    }

    /// Whether the plan is well formed: it has fewer than 2^32 functions, each row of kept callees
    /// is ascending, with each callee once and a function of the plan, and the kept edges have no
    /// cycle. The time is linear in the functions and the edges.
    pub fn is_well_formed(&self, alloc: Global) -> Result<bool, OutOfMemory>
        ensures { IfOk result (λ answer. IsTrue answer ↔ IsPlan self.now.callees) }
    {
        if self.len() > u32::MAX as usize {
            return Ok(false);
        }
        if !self.has_rows() {
            return Ok(false);
        }
        has_no_cycle(alloc, self)
    }
}
