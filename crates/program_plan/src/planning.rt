// The plan of a program.

ghost use Rattle.std.specs.Prelude.{◌≡◌, ◌<◌, ◌≤◌, ◌^◌, IfOk, length};
ghost use Rattle.program_verdicts.specs.CallGraph as graph;
ghost use Rattle.program_plan.specs.Planned as spec;

use crate::PlanAnswer;
use crate::rows::rows;
use call_graph::plan_of;
use plan_core::Plan;
use sc_base::{LimitKind, List, OutOfMemory};
use sc_typed::Program;
use std::alloc::Global;

/// No program that is taken has more edges.
const MOST_EDGES: u64 = 65_535;

// The number of edges. One that does not fit into 64 bits is answered as want of memory.
fn edges(rows: &[List<u32>]) -> Result<u64, OutOfMemory>
    ensures { IfOk result (λ n. n ≡ spec.edges rows.now) }
{
    let mut count = 0u64;
    for row in rows {
        match count.checked_add(row.len() as u64) {
            None => return Err(OutOfMemory),
            Some(more) => count = more,
        }
    }
    Ok(count)
}

// The plan of a call graph with that many edges.
#[tactic(auto, using(crate::proofs::CallRows::rows_are_graph, crate::proofs::CallRows::rows_ascend))]
fn planned(
    alloc: Global,
    program: &Program,
    rows: &[List<u32>],
    count: u64,
) -> Result<Plan, PlanAnswer>
    requires few { length program.now.functions < 2 ^ 32 }
    requires graph { rows.now ≡ graph.rows program.now }
    requires count { count ≡ spec.edges_of program.now }
    ensures { spec.Answers program.now result }
{
    if count > MOST_EDGES {
        return Err(PlanAnswer::Limit(LimitKind::Edges, count));
    }
    Ok(plan_of(alloc, rows)?)
}

/// The plan of a program's call graph: for each function the callees that it keeps, ascending, and the edges that are
/// cut, ascending. A function calls another one where its body has a call by a name that means the other's body; a
/// name with a meaning of its own, as `malloc` or an operation of the machine, means none.
///
/// `Limit` of edges comes exactly where there are more than 65,535, with their number: a pair of a caller and a callee
/// counts once. `OutOfMemory` may come at any time.
pub fn plan(alloc: Global, program: &Program) -> Result<Plan, PlanAnswer>
    ensures { spec.Answers program.now result }
{
    if program.functions.len() > u32::MAX as usize {
        return Err(PlanAnswer::OutOfMemory);
    }
    let rows = rows(alloc, program)?;
    let count = edges(rows.as_slice())?;
    planned(alloc, program, rows.as_slice(), count)
}
