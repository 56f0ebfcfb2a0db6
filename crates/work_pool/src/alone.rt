//! One worker without a database, which always returns.

ghost use Rattle.std.specs.Prelude.{◌≡◌, ℕ, ◌<◌, length, map, true, vec_len, slice_set, IfOk, OnOk};
ghost use Rattle.std.specs.Arc.{arc_value};
ghost use Rattle.plan_core.specs.declared.mark.Mark.TheVariants.{Published};
ghost use Rattle.plan_core.specs.Graph.{IsPlan};
ghost use Rattle.plan_core.specs.Core.{may_claim};
ghost use Rattle.work_pool.specs.Outputs.{outputs_of, ArePublishedMade};

use crate::outputs::{collected, nothing, shared_all};
use plan_core::{CoreState, Plan};
use sc_base::{OutOfMemory, RowList};
use std::alloc::Global;
use std::sync::Arc;
use summary_db::Work;

/// Makes the output of a function that may be claimed, and publishes it.
fn turn<W: Work>(
    alloc: Global,
    work: &W,
    plan: &Plan,
    state: &mut CoreState,
    made: &mut Vec<Option<Arc<W::Out>>>,
    function: u32,
) -> Result<(), OutOfMemory>
    requires plan { IsPlan plan.now.callees × (W.rows work.now ≡ plan.now.callees) }
    requires state { (length state.old ≡ length plan.now.callees) × (vec_len made.old ≡ length state.old) }
    requires function { (function < length state.old) × (may_claim plan.now.callees state.old function ≡ true) }
    requires made { ArePublishedMade (W.defined work.now) state.old made.old.items }
    ensures state { OnOk result (state.new ≡ slice_set state.old function Published) }
    ensures made { OnOk result ((vec_len made.new ≡ vec_len made.old) × ArePublishedMade (W.defined work.now) state.new made.new.items) }
{
    let given = shared_all(alloc, made.as_slice(), plan.callees_of(function))?;
    let output = Arc::new(alloc, work.row(function, &given)?)?;
    state.claim(plan, 0, function);
    made[function as usize] = Some(output);
    state.publish(0, function);
    Ok(())
}

/// Every output of the work, in order, made on the calling thread. Each turn takes the first function
/// that may be claimed. It always returns.
///
/// Where the callees of most functions stand behind them, the search for the next function reads the
/// marks from the first one on in each turn. So the time beside the work's own is quadratic in the
/// functions at worst.
///
/// # Errors
///
/// OutOfMemory, from a list, a shared output or the work.
pub fn run_alone<W: Work>(
    alloc: Global,
    work: &W,
    plan: &Plan,
) -> Result<RowList<W::Out>, OutOfMemory>
    requires { IsPlan plan.now.callees × (W.rows work.now ≡ plan.now.callees) }
    ensures { IfOk result (λ outputs. map arc_value outputs.list.items ≡ outputs_of (W.defined work.now) (length plan.now.callees)) }
{
    let mut state = CoreState::new(alloc, plan)?;
    let mut made = nothing(alloc, plan.len())?;
    while let Some(function) = state.claimable(plan) {
        turn(alloc, work, plan, &mut state, &mut made, function)?;
    }
    collected(alloc, made)
}
