//! The plan: for each function the callees that it keeps, and the edges that are cut.

ghost use Rattle.std.specs.Prelude.{◌≡◌, ◌<◌, ◌++◌, [], ◌∷◌, ℕ, not, if◌then◌else◌, map, filter, length, IfOk, OnOk, IsTrue, Contains};
ghost use Rattle.std.specs.List.Sorted.{IsStrictlyIncreasing};
ghost use Rattle.plan_core.specs.Graph.{IsGraph, callees, is_cut, plan_of, reaches};
ghost use Rattle.call_graph.specs.Plans as spec;

use crate::components::search;
use crate::evidence::{self, Evidence};
use crate::tables::{self, table_of};
use plan_core::{Edge, Plan};
use sc_base::{List, OutOfMemory};
use std::alloc::Global;

/// What tells who reaches whom.
#[derive(Drop)]
enum Reaching {
    /// Good evidence of components.
    Components(Evidence),
    /// The whole table.
    Table(List<List<bool>>),
}

impl Reaching {
    /// Whether the callee of an edge reaches its caller.
    fn is_back(&self, caller: usize, callee: usize) -> bool
        ensures { result ≡ spec.is_back self.now caller callee }
    {
        match self {
            Reaching::Components(evidence) => evidence::is_back(evidence, caller, callee),
            Reaching::Table(table) => tables::is_back(table.as_slice(), caller, callee),
        }
    }

    /// Whether an edge is cut: its callee reaches its caller, and does not stand behind it.
    fn cuts(&self, edge: Edge) -> bool
        ensures { result ≡ spec.cuts self.now edge.caller edge.callee }
    {
        self.is_back(edge.caller as usize, edge.callee as usize) && edge.callee <= edge.caller
    }
}

/// Finds out who reaches whom.
fn find_reaching(alloc: Global, rows: &[List<u32>]) -> Result<Reaching, OutOfMemory>
    requires { IsGraph rows.now }
    ensures { IfOk result (spec.Tells rows.now) }
{
    let evidence = search(alloc, rows)?;
    if evidence::is_evidence(rows, &evidence) {
        Ok(Reaching::Components(evidence))
    } else {
        Ok(Reaching::Table(table_of(alloc, rows)?))
    }
}

/// Puts an edge among those that are cut, or its callee among those that are kept.
fn put_edge(
    kept: &mut List<u32>,
    cut: &mut List<Edge>,
    edge: Edge,
    is_cut: bool,
) -> Result<(), OutOfMemory>
    ensures kept { OnOk result (kept.new ≡ kept.old ++ (if not is_cut then edge.callee ∷ [] else [])) }
    ensures cut { OnOk result (cut.new ≡ cut.old ++ (if is_cut then edge ∷ [] else [])) }
{
    if is_cut {
        cut.push(edge)
    } else {
        kept.push(edge.callee)
    }
}

/// The callees that a function keeps; the edges to the others go behind those that are cut already.
fn kept(
    alloc: Global,
    rows: &[List<u32>],
    reaching: &Reaching,
    caller: u32,
    row: &[u32],
    cut: &mut List<Edge>,
) -> Result<List<u32>, OutOfMemory>
    requires tells { spec.Tells rows.now reaching.now }
    requires row { (caller < length rows.now) × (callees rows.now caller ≡ row.now) }
    ensures kept { IfOk result (λ kept. kept ≡ filter (λ g. not (is_cut rows.now caller g)) row.now) }
    ensures cut { OnOk result (cut.new ≡ cut.old ++ map (spec.edge caller) (filter (is_cut rows.now caller) row.now)) }
{
    let mut kept = List::new(alloc);
    for callee in row {
        let edge = Edge {
            caller,
            callee: *callee,
        };
        put_edge(&mut kept, cut, edge, reaching.cuts(edge))?;
    }
    Ok(kept)
}

/// The plan, by what tells who reaches whom.
fn split(alloc: Global, rows: &[List<u32>], reaching: &Reaching) -> Result<Plan, OutOfMemory>
    requires graph { IsGraph rows.now }
    requires ascending { (f : ℕ) → IsStrictlyIncreasing (callees rows.now f) }
    requires tells { spec.Tells rows.now reaching.now }
    ensures { IfOk result (λ plan. plan ≡ plan_of rows.now) }
{
    let mut callees = List::new(alloc);
    let mut cut = List::new(alloc);
    for (caller, row) in rows.iter().enumerate() {
        let row = row.as_slice();
        callees.push(kept(alloc, rows, reaching, caller as u32, row, &mut cut)?)?;
    }
    Ok(Plan { callees, cut })
}

/// The plan of a call graph: each row has the functions that a function calls, ascending, each once.
pub fn plan_of(alloc: Global, rows: &[List<u32>]) -> Result<Plan, OutOfMemory>
    requires graph { IsGraph rows.now }
    requires ascending { (f : ℕ) → IsStrictlyIncreasing (callees rows.now f) }
    ensures { IfOk result (λ plan. plan ≡ plan_of rows.now) }
{
    let reaching = find_reaching(alloc, rows)?;
    split(alloc, rows, &reaching)
}
