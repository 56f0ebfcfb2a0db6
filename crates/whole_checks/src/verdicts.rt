// The verdicts of all functions of a program, in its order.

ghost use Rattle.std.specs.Prelude.{◌≡◌, ◌<◌, ◌≤◌, ◌^◌, IfOk, length, map};
ghost use Rattle.std.specs.Arc.{arc_value};
ghost use Rattle.program_verdicts.specs.Verdicts.{verdicts};

use crate::analysis::Analysis;
use plan_core::laws::no_cycle;
use sc_base::{OutOfMemory, RowList};
use std::sync::Wait;
use std::thread::Threads;
use sum_rows::Verdict;
use work_pool::{Gate, run_all, run_alone};

/// The verdicts of all functions, in the order of the program, made on the calling thread. It always returns.
///
/// # Errors
///
/// `OutOfMemory` where memory is refused.
pub fn verdicts_alone(work: &Analysis<'_>) -> Result<RowList<Verdict>, OutOfMemory>
    requires few { length work.now.program.now.functions < 2 ^ 32 }
    ensures { IfOk result (λ vs. map arc_value vs.list.items ≡ verdicts work.now.program.now work.now.depth work.now.reach) }
{
    no_cycle();
    run_alone(work.alloc, work, work.plan)
}

/// The same verdicts, made by `jobs` workers; the calling thread is one of them. `gate` is told of each function before
/// its analysis. It may wait for ever: what is promised of the result holds if it returns.
///
/// # Errors
///
/// `OutOfMemory` where memory is refused.
pub fn verdicts_by<R: Threads + Wait + Sync, G: Gate + Sync>(
    rt: &R,
    work: &Analysis<'_>,
    jobs: u32,
    gate: &G,
) -> Result<RowList<Verdict>, OutOfMemory>
    requires few { length work.now.program.now.functions < 2 ^ 32 }
    requires jobs { (0 < jobs) × (jobs ≤ 64) }
    ensures { IfOk result (λ vs. map arc_value vs.list.items ≡ verdicts work.now.program.now work.now.depth work.now.reach) }
{
    no_cycle();
    let ran = run_all(rt, work.alloc, work, work.plan, jobs, gate)?;
    Ok(ran.rows)
}
