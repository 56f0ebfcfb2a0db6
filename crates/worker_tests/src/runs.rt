//! Runs of workers. What the outputs are is proved. The tests show that the calls run, that memory
//! suffices, and what no contract says: that two workers run side by side, and that the gate is told
//! of each function once.

ghost use Rattle.std.specs.Prelude.{◌≡◌, ◌<◌, ◌≤◌};
ghost use Rattle.plan_core.specs.Graph.{IsPlan};

use crate::odd::{Odd, RUNS, plan, work_of};
use plan_core::Plan;
use sc_base::{OutOfMemory, RowList};
use std::alloc::Global;
use std::process::Abort;
use std::snapshot::Snapshot;
use std::sync::Wait;
use std::sync::atomic::{AtomicU64, Ordering};
use std::thread;
use std::thread::Threads;
use work_pool::{FreeGate, Gate, run_all, run_alone};

/// Counts the calls for each function.
#[derive(Drop)]
struct Noting {
    calls: Vec<AtomicU64>,
}

impl Gate for Noting {
    fn at(&self, _worker: u32, function: u32) {
        if let Some(count) = self.calls.get(function as usize) {
            count.fetch_add(1, Ordering::SeqCst);
        }
    }
}

/// Holds the first call until there is a second one, and notes if that takes too long.
#[derive(Drop)]
struct Held {
    calls: AtomicU64,
    late: AtomicU64,
}

impl Gate for Held {
    fn at(&self, _worker: u32, _function: u32) {
        if self.calls.fetch_add(1, Ordering::SeqCst) > 0 {
            return;
        }
        for _turn in 0..10_000_000u32 {
            if self.calls.load(Ordering::SeqCst) > 1 {
                return;
            }
            thread::yield_now();
        }
        self.late.store(1, Ordering::SeqCst);
    }
}

/// Whether the outputs are 1, 3, 5 and so on, so many of them.
fn are_odd(rows: &RowList<u64>, count: usize) -> bool {
    let mut expected = 1u64;
    for row in &rows.list {
        if **row != expected {
            return false;
        }
        expected = expected.wrapping_add(2);
    }
    rows.list.len() == count
}

/// A gate that has counted nothing.
fn counting(alloc: Global, functions: usize) -> Result<Noting, OutOfMemory> {
    let mut calls = Vec::new(alloc);
    for _function in 0..functions {
        calls.push(AtomicU64::new(0))?;
    }
    Ok(Noting { calls })
}

/// Whether the gate was called once for each function.
fn is_called_once(gate: &Noting) -> bool {
    for count in &gate.calls {
        if count.load(Ordering::SeqCst) != 1 {
            return false;
        }
    }
    true
}

/// Whether one thread makes these outputs, and so many workers make the same.
fn are_made<R: Abort + Threads + Wait + Sync>(
    rt: &R,
    alloc: Global,
    work: &Odd,
    plan: &Plan,
    jobs: u32,
    count: usize,
) -> Result<bool, OutOfMemory>
    requires plan { IsPlan plan.now.callees × (work.now.plan.value ≡ plan.now) }
    requires jobs { (0 < jobs) × (jobs ≤ 64) }
{
    let alone = run_alone(alloc, work, plan)?;
    let together = run_all(rt, alloc, work, plan, jobs, &FreeGate)?;
    Ok(are_odd(&alone, count) && are_odd(&together.rows, count))
}

/// The same for each number of jobs.
fn are_made_by_all<R: Abort + Threads + Wait + Sync>(
    rt: &R,
    alloc: Global,
) -> Result<bool, OutOfMemory> {
    let plan = plan(rt, alloc, 2, true, false)?;
    let work = work_of(&plan);
    for _run in 0..RUNS {
        let made = are_made(rt, alloc, &work, &plan, 1, 2)?
            && are_made(rt, alloc, &work, &plan, 2, 2)?
            && are_made(rt, alloc, &work, &plan, 4, 2)?
            && are_made(rt, alloc, &work, &plan, 64, 2)?;
        if !made {
            return Ok(false);
        }
    }
    Ok(true)
}

#[test]
fn outputs_are_the_same_for_every_number_of_jobs(rt: HostRuntime) {
    assert!(rt; are_made_by_all(&rt, rt.alloc()) == Ok(true));
}

/// Whether so many workers make the outputs of a plan, and call the gate once for each function.
fn are_noted_once<R: Abort + Threads + Wait + Sync>(
    rt: &R,
    alloc: Global,
    work: &Odd,
    plan: &Plan,
    jobs: u32,
    count: usize,
) -> Result<bool, OutOfMemory>
    requires plan { IsPlan plan.now.callees × (work.now.plan.value ≡ plan.now) }
    requires jobs { (0 < jobs) × (jobs ≤ 64) }
{
    let gate = counting(alloc, count)?;
    let made = run_all(rt, alloc, work, plan, jobs, &gate)?;
    Ok(are_odd(&made.rows, count) && is_called_once(&gate))
}

/// The same each time, over a plan of so many functions, which is a chain or has no edges.
fn are_noted_once_each_time<R: Abort + Threads + Wait + Sync>(
    rt: &R,
    alloc: Global,
    functions: u32,
    chain: bool,
    forward: bool,
    jobs: u32,
) -> Result<bool, OutOfMemory>
    requires { (0 < jobs) × (jobs ≤ 64) }
{
    let plan = plan(rt, alloc, functions, chain, forward)?;
    let work = work_of(&plan);
    for _run in 0..RUNS {
        if !are_noted_once(rt, alloc, &work, &plan, jobs, functions as usize)? {
            return Ok(false);
        }
    }
    Ok(true)
}

#[test]
fn more_jobs_than_functions(rt: HostRuntime) {
    assert!(rt; are_noted_once_each_time(&rt, rt.alloc(), 3, false, false, 64) == Ok(true));
}

#[test]
fn two_jobs_on_chains_of_64(rt: HostRuntime) {
    assert!(rt; are_noted_once_each_time(&rt, rt.alloc(), 64, true, false, 2) == Ok(true));
    assert!(rt; are_noted_once_each_time(&rt, rt.alloc(), 64, true, true, 2) == Ok(true));
}

#[test]
fn two_jobs_on_64_functions_without_edges(rt: HostRuntime) {
    assert!(rt; are_noted_once_each_time(&rt, rt.alloc(), 64, false, false, 2) == Ok(true));
}

/// Whether two workers make the outputs, of which the first waits in the gate until the second is there.
fn are_side_by_side<R: Abort + Threads + Wait + Sync>(
    rt: &R,
    alloc: Global,
    work: &Odd,
    plan: &Plan,
) -> Result<bool, OutOfMemory>
    requires { IsPlan plan.now.callees × (work.now.plan.value ≡ plan.now) }
{
    let gate = Held {
        calls: AtomicU64::new(0),
        late: AtomicU64::new(0),
    };
    let made = run_all(rt, alloc, work, plan, 2, &gate)?;
    Ok(are_odd(&made.rows, 2) && gate.late.load(Ordering::SeqCst) == 0)
}

fn are_side_by_side_each_time<R: Abort + Threads + Wait + Sync>(
    rt: &R,
    alloc: Global,
) -> Result<bool, OutOfMemory> {
    let plan = plan(rt, alloc, 2, false, false)?;
    let work = work_of(&plan);
    for _run in 0..RUNS {
        if !are_side_by_side(rt, alloc, &work, &plan)? {
            return Ok(false);
        }
    }
    Ok(true)
}

#[test]
fn two_workers_run_side_by_side(rt: HostRuntime) {
    assert!(rt; are_side_by_side_each_time(&rt, rt.alloc()) == Ok(true));
}

/// Whether memory that is refused for one function ends each run.
fn all_are_stopped<R: Abort + Threads + Wait + Sync>(
    rt: &R,
    alloc: Global,
) -> Result<bool, OutOfMemory> {
    let plan = plan(rt, alloc, 3, false, false)?;
    let work = Odd {
        plan: Snapshot::of(&plan),
        refused: 1,
    };
    for _run in 0..RUNS {
        let stopped = run_all(rt, alloc, &work, &plan, 2, &FreeGate).is_err()
            && run_alone(alloc, &work, &plan).is_err();
        if !stopped {
            return Ok(false);
        }
    }
    Ok(true)
}

#[test]
fn refused_memory_stops_all_workers(rt: HostRuntime) {
    assert!(rt; all_are_stopped(&rt, rt.alloc()) == Ok(true));
}
