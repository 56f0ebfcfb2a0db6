//! A work whose outputs are the odd numbers, and plans for it.

ghost use Rattle.std.specs.Prelude.{◌≡◌, IfOk};
ghost use Rattle.plan_core.specs.Graph.{IsPlan};

use plan_core::Plan;
use sc_base::{List, OutOfMemory, RowList};
use std::alloc::Global;
use std::process::Abort;
use std::snapshot::Snapshot;
use summary_db::Work;

/// How often each run is made.
pub const RUNS: u32 = 100;

/// A work over a plan whose output of f is 2 f + 1. Memory is refused for the function `refused`.
#[derive(Drop)]
pub struct Odd {
    pub plan: Snapshot<Plan>,
    pub refused: u32,
}

impl Work for Odd {
    type Out = u64;

    ghost use Rattle.std.specs.Prelude.{◌*◌, ◌+◌};

    ghost rows = { λ w. w.plan.value.callees };

    ghost defined = { λ w f. 2 * f + 1 };

    fn row(&self, function: u32, _given: &RowList<u64>) -> Result<u64, OutOfMemory> {
        if function == self.refused {
            return Err(OutOfMemory);
        }
        Ok(2 * u64::from(function) + 1)
    }
}

/// The work of a plan that gets all memory.
pub fn work_of(plan: &Plan) -> Odd
    ensures { result.plan.value ≡ plan.now }
{
    Odd {
        plan: Snapshot::of(plan),
        refused: u32::MAX,
    }
}

/// A well-formed plan of so many functions. In a chain each calls the one before it, or the one
/// behind it where `forward`.
pub fn plan<R: Abort>(
    rt: &R,
    alloc: Global,
    functions: u32,
    chain: bool,
    forward: bool,
) -> Result<Plan, OutOfMemory>
    ensures { IfOk result (λ plan. IsPlan plan.callees) }
{
    let mut callees = List::new(alloc);
    for function in 0..functions {
        let mut row = List::new(alloc);
        if chain && forward && function < functions - 1 {
            row.push(function + 1)?;
        }
        if chain && !forward && function > 0 {
            row.push(function - 1)?;
        }
        callees.push(row)?;
    }
    let plan = Plan {
        callees,
        cut: List::new(alloc),
    };
    let good = plan.is_well_formed(alloc)?;
    assert!(rt; good);
    Ok(plan)
}
