// Runs with workers. That they answer as the call without workers is proved; the tests show that the calls run, that two
// workers run side by side, and that the gate is told of each function once, behind its callees.

use crate::json_values::JSON;
use crate::locks::LOCKS;
use crate::rows::{Ran, Row, held, owned, written};
use saturn_top::{Status, check_main};
use sc_base::{MemFiles, MemSink, OutOfMemory};
use std::alloc::Global;
use std::process::Abort;
use std::sync::Wait;
use std::sync::atomic::{AtomicU64, Ordering};
use std::thread;
use std::thread::Threads;
use work_pool::{FreeGate, Gate};

/// Notes for each of two functions the number of the call that told of it, and counts the calls.
#[derive(Drop)]
struct Noting {
    calls: AtomicU64,
    first: AtomicU64,
    second: AtomicU64,
}

impl Gate for Noting {
    fn at(&self, _worker: u32, function: u32) {
        let call = self.calls.fetch_add(1, Ordering::SeqCst).wrapping_add(1);
        match function {
            0 => self.first.store(call, Ordering::SeqCst),
            1 => self.second.store(call, Ordering::SeqCst),
            _ => {}
        }
    }
}

/// Holds the first call until there is a second one, and notes if that takes too long.
#[derive(Drop)]
struct Held {
    calls: AtomicU64,
    late: AtomicU64,
}

impl Gate for Held {
    fn at(&self, _worker: u32, _function: u32) {
        if self.calls.fetch_add(1, Ordering::SeqCst) > 0 {
            return;
        }
        for _turn in 0..10_000_000u32 {
            if self.calls.load(Ordering::SeqCst) > 1 {
                return;
            }
            thread::yield_now();
        }
        self.late.store(1, Ordering::SeqCst);
    }
}

// Checks these files by these words with workers.
fn run_by<R: Threads + Wait + Sync, G: Gate + Sync>(
    rt: &R,
    alloc: Global,
    words: &[&str],
    files: &[(&str, &str)],
    gate: &G,
) -> Result<Ran, OutOfMemory> {
    let words = owned(alloc, words)?;
    let mut files = MemFiles::new(held(alloc, files)?, Vec::new(alloc));
    let mut out = MemSink::new(alloc, 10_000)?;
    let mut err = MemSink::new(alloc, 1000)?;
    let status = check_main(rt, alloc, &words, &mut files, &mut out, &mut err, gate);
    written(alloc, status, &out, &err)
}

// Whether what is written for this row does not depend on the number of workers.
fn is_the_same<R: Threads + Wait + Sync>(
    rt: &R,
    alloc: Global,
    row: &Row,
    jobs: &str,
) -> Result<bool, OutOfMemory> {
    let mut words = row.words.to_vec(alloc)?;
    words.push("--jobs")?;
    words.push(jobs)?;
    let ran = run_by(rt, alloc, words.as_slice(), row.files, &FreeGate)?;
    Ok(ran.is_as_worked_out(row))
}

// The same of these rows.
fn expect_the_same<R: Threads + Wait + Sync + Abort>(
    rt: &R,
    alloc: Global,
    rows: &[Row],
    jobs: &str,
) {
    for row in rows {
        assert!(rt;
            matches!(is_the_same(rt, alloc, row, jobs), Ok(true)),
            "{} by {jobs}",
            row.name
        );
    }
}

#[test]
fn workers_write_the_rows_of_locks(rt: HostRuntime) {
    for jobs in ["1", "2", "64"] {
        expect_the_same(&rt, rt.alloc(), LOCKS, jobs);
    }
}

#[test]
fn workers_write_the_same_json(rt: HostRuntime) {
    expect_the_same(&rt, rt.alloc(), JSON, "2");
}

// The status of a check of this file by two workers.
fn status_by_two<R: Threads + Wait + Sync, G: Gate + Sync>(
    rt: &R,
    alloc: Global,
    text: &str,
    gate: &G,
) -> Option<Status> {
    let words = ["saturn_check", "--jobs", "2", "a.c"];
    match run_by(rt, alloc, &words, &[("a.c", text)], gate) {
        Ok(ran) => Some(ran.status),
        Err(_) => None,
    }
}

const TWO_WITHOUT_CALLS: &str = "int f(void){return 1;}\nint g(void){return 2;}";

#[test]
fn two_workers_of_a_check_run_side_by_side(rt: HostRuntime) {
    let gate = Held {
        calls: AtomicU64::new(0),
        late: AtomicU64::new(0),
    };
    let status = status_by_two(&rt, rt.alloc(), TWO_WITHOUT_CALLS, &gate);
    assert!(rt; matches!(status, Some(Status::Clean)));
    assert!(rt; gate.calls.load(Ordering::SeqCst) == 2);
    assert!(rt; gate.late.load(Ordering::SeqCst) == 0);
}

// `h` stands before `g`, which it calls.
const CALLEE_BEHIND: &str = "typedef struct{int v;}spinlock_t;
void g(spinlock_t*l);
void h(spinlock_t*l){g(l);g(l);}
void g(spinlock_t*l){spin_lock(l);}";

#[test]
fn the_gate_is_told_of_each_function_behind_its_callees(rt: HostRuntime) {
    let gate = Noting {
        calls: AtomicU64::new(0),
        first: AtomicU64::new(0),
        second: AtomicU64::new(0),
    };
    let status = status_by_two(&rt, rt.alloc(), CALLEE_BEHIND, &gate);
    assert!(rt; matches!(status, Some(Status::Reports)));
    assert!(rt; gate.calls.load(Ordering::SeqCst) == 2);
    assert!(rt; gate.first.load(Ordering::SeqCst) == 2);
    assert!(rt; gate.second.load(Ordering::SeqCst) == 1);
}
