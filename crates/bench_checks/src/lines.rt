// The counts of the verdicts of a generated program.

ghost use Rattle.std.specs.Prelude.{◌≡◌, ◌<◌, ◌≤◌, ℕ, IfErr, IfOk, map};
ghost use Rattle.std.specs.Arc.{arc_value};
ghost use Rattle.check_counts.specs.Counts.{counts_of, counts_text};
ghost use Rattle.bench_checks.specs.Bench.{counts_lines, AreLines, HasNoProgram, IsGenerated};

use crate::program::{NoProgram, generated};
use check_counts::{count, text};
use fsm_spec::whole_machines;
use plan_core::Plan;
use sc_base::{OutOfMemory, RowList};
use sc_typed::Program;
use std::alloc::Global;
use std::sync::Wait;
use std::thread::Threads;
use sum_rows::Verdict;
use whole_checks::{Analysis, verdicts_alone, verdicts_by};
use work_pool::Gate;

/// So many turns of a loop are run at most.
const DEPTH: u32 = 2;

/// Over so many pointers in a row objects at entry are reached.
const REACH: u32 = 2;

// The seven lines of the counts of these verdicts.
fn lines_of(alloc: Global, verdicts: RowList<Verdict>) -> Result<Vec<u8>, OutOfMemory>
    ensures { IfOk result (λ t. t.items ≡ counts_text (counts_of (map arc_value verdicts.list.items))) }
{
    text(alloc, &count(verdicts.list.as_slice())?)
}

// The seven lines of this program. Its verdicts are made on the calling thread.
fn counted(alloc: Global, program: &Program, plan: &Plan) -> Result<Vec<u8>, OutOfMemory>
    requires { (count : ℕ) × (seed : ℕ) × IsGenerated count seed program.now plan.now }
    ensures { IfOk result (λ t. t.items ≡ counts_lines program.now) }
{
    whole_machines();
    let work = Analysis {
        alloc,
        program,
        plan,
        depth: DEPTH,
        reach: REACH,
    };
    let verdicts = verdicts_alone(&work)?;
    lines_of(alloc, verdicts)
}

// The same, where workers make the verdicts.
fn counted_by<R: Threads + Wait + Sync, G: Gate + Sync>(
    rt: &R,
    alloc: Global,
    program: &Program,
    plan: &Plan,
    jobs: u32,
    gate: &G,
) -> Result<Vec<u8>, OutOfMemory>
    requires generated { (count : ℕ) × (seed : ℕ) × IsGenerated count seed program.now plan.now }
    requires jobs { (0 < jobs) × (jobs ≤ 64) }
    ensures { IfOk result (λ t. t.items ≡ counts_lines program.now) }
{
    whole_machines();
    let work = Analysis {
        alloc,
        program,
        plan,
        depth: DEPTH,
        reach: REACH,
    };
    let verdicts = verdicts_by(rt, &work, jobs, gate)?;
    lines_of(alloc, verdicts)
}

/// The seven lines of counts of the program that is generated for this number of functions and this seed, checked at
/// depth 2 and reach 2. The verdicts are made on the calling thread, and it always returns.
///
/// # Errors
///
/// As `generated`.
pub fn lines_alone(alloc: Global, count: u32, seed: u32) -> Result<Vec<u8>, NoProgram>
    ensures lines { IfOk result (λ t. AreLines count seed t.items) }
    ensures none { IfErr result (HasNoProgram count seed) }
{
    let (program, plan) = generated(alloc, count, seed)?;
    Ok(counted(alloc, &program, &plan)?)
}

/// The same lines, where `jobs` workers make the verdicts; the calling thread is one of them. `gate` is told of each
/// function before its analysis. It may wait for ever: what is promised of the result holds if it returns.
///
/// # Errors
///
/// As `generated`.
pub fn lines_by<R: Threads + Wait + Sync, G: Gate + Sync>(
    rt: &R,
    alloc: Global,
    count: u32,
    seed: u32,
    jobs: u32,
    gate: &G,
) -> Result<Vec<u8>, NoProgram>
    requires jobs { (0 < jobs) × (jobs ≤ 64) }
    ensures lines { IfOk result (λ t. AreLines count seed t.items) }
    ensures none { IfErr result (HasNoProgram count seed) }
{
    let (program, plan) = generated(alloc, count, seed)?;
    Ok(counted_by(rt, alloc, &program, &plan, jobs, gate)?)
}
