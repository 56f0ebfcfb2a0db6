// Counted checks of generated programs, over sinks in memory. How many rows and reports each shape has was worked out by
// hand: a function that locks and unlocks has 3 rows, one that may lock twice 5 and a double report, one that tries to lock
// 5, one that locks 3, and one that calls that one and unlocks 3. And generated texts, of few functions and of the most,
// which all give a program: that none is refused is not proved.

use crate::rows::{Ran, owned, written};
use bench_programs::bench_text;
use bench_top::{bench_alone, bench_main, generated};
use saturn_top::Status;
use sc_base::{MemSink, OutOfMemory};
use std::alloc::Global;
use std::sync::Wait;
use std::thread::Threads;
use work_pool::FreeGate;

// A run by these words on the calling thread, where the output has this room.
fn counted(alloc: Global, words: &[&str], room: usize) -> Result<Ran, OutOfMemory> {
    let words = owned(alloc, words)?;
    let mut out = MemSink::new(alloc, room)?;
    let mut err = MemSink::new(alloc, 10_000)?;
    let status = bench_alone(alloc, &words, &mut out, &mut err);
    written(alloc, status, &out, &err)
}

// The same with workers.
fn counted_by<R: Threads + Wait + Sync>(
    rt: &R,
    alloc: Global,
    words: &[&str],
) -> Result<Ran, OutOfMemory> {
    let words = owned(alloc, words)?;
    let mut out = MemSink::new(alloc, 1000)?;
    let mut err = MemSink::new(alloc, 1000)?;
    let status = bench_main(rt, alloc, &words, &mut out, &mut err, &FreeGate);
    written(alloc, status, &out, &err)
}

// The lines of the first three shapes.
const THREE: &str = "\
functions 3
skipped 0
rows 13
double 1
ambiguous 0
inner 0
leak 0
";

const CALLER: &str = "\
functions 2
skipped 0
rows 6
double 0
ambiguous 0
inner 0
leak 0
";

// Whether the run ends and tells these lines.
fn tells(alloc: Global, words: &[&str], lines: &str) -> bool {
    match counted(alloc, words, 1000) {
        Ok(ran) => ran.ended(Status::Clean, lines.as_bytes(), b""),
        Err(_) => false,
    }
}

#[test]
fn the_first_three_shapes_are_counted(rt: HostRuntime) {
    for seed in ["0", "8", "4294967288"] {
        assert!(rt;
            tells(rt.alloc(), &["saturn_bench", "3", seed], THREE),
            "seed {seed}"
        );
    }
}

#[test]
fn a_caller_is_counted(rt: HostRuntime) {
    assert!(rt; tells(rt.alloc(), &["saturn_bench", "2", "4"], CALLER));
}

// Whether the first function is the same where it would call one as where it would not.
fn first_calls_none(alloc: Global) -> Result<bool, OutOfMemory> {
    let locks = counted(alloc, &["saturn_bench", "1", "4"], 1000)?;
    let unlocks = counted(alloc, &["saturn_bench", "1", "5"], 1000)?;
    Ok(unlocks.ended(Status::Clean, locks.out.as_slice(), locks.err.as_slice()))
}

#[test]
fn the_first_function_calls_none(rt: HostRuntime) {
    assert!(rt; matches!(first_calls_none(rt.alloc()), Ok(true)));
}

// Whether workers tell these lines.
fn tell_by<R: Threads + Wait + Sync>(rt: &R, alloc: Global, jobs: &str) -> bool {
    match counted_by(rt, alloc, &["saturn_bench", "--jobs", jobs, "3", "0"]) {
        Ok(ran) => ran.ended(Status::Clean, THREE.as_bytes(), b""),
        Err(_) => false,
    }
}

#[test]
fn workers_count_the_same(rt: HostRuntime) {
    for jobs in ["1", "2", "64"] {
        assert!(rt; tell_by(&rt, rt.alloc(), jobs), "jobs {jobs}");
    }
}

// ---- sinks that fail, and words that ask for nothing

// Whether an output of this room, which is at most the length of the lines, takes the front of the lines.
fn has_the_front(alloc: Global, room: usize) -> bool {
    let Some(front) = THREE.as_bytes().get(..room) else {
        return false;
    };
    let status = if room < THREE.len() {
        Status::WriteFault
    } else {
        Status::Clean
    };
    match counted(alloc, &["saturn_bench", "3", "0"], room) {
        Ok(ran) => ran.ended(status, front, b""),
        Err(_) => false,
    }
}

#[test]
fn a_full_sink_has_the_front_of_the_lines(rt: HostRuntime) {
    for room in 0..=THREE.len() {
        assert!(rt; has_the_front(rt.alloc(), room), "room {room}");
    }
}

fn are_bad(alloc: Global, words: &[&str]) -> bool {
    match counted(alloc, words, 1000) {
        Ok(ran) => ran.only_erred(Status::BadWords),
        Err(_) => false,
    }
}

fn is_helped(alloc: Global) -> bool {
    match counted(alloc, &["saturn_bench", "--help"], 10_000) {
        Ok(ran) => ran.only_told(Status::Helped),
        Err(_) => false,
    }
}

#[test]
fn words_that_count_nothing_are_bad_or_get_help(rt: HostRuntime) {
    let bad: [&[&str]; 8] = [
        &["saturn_bench"],
        &["saturn_bench", "3"],
        &["saturn_bench", "0", "0"],
        &["saturn_bench", "4097", "0"],
        &["saturn_bench", "3", "4294967296"],
        &["saturn_bench", "3", "0", "0"],
        &["saturn_bench", "--jobs", "65", "3", "0"],
        &["saturn_bench", "3", "a"],
    ];
    for words in bad {
        assert!(rt; are_bad(rt.alloc(), words));
    }
    assert!(rt; is_helped(rt.alloc()));
}

// ---- generated texts

const LOSES: &str =
    "typedef struct{int v;}spinlock_t;\nvoid f0(int n){char*p=kmalloc(n,0);if(n)kfree(p);}\n";

fn first_loses(alloc: Global) -> bool {
    match bench_text(alloc, 1, 7) {
        Ok(text) => text.as_slice() == LOSES.as_bytes(),
        Err(_) => false,
    }
}

#[test]
fn the_first_function_that_would_free_loses(rt: HostRuntime) {
    assert!(rt; first_loses(rt.alloc()));
}

// How many functions the generated program has; none where there is no program.
fn functions_of(alloc: Global, count: u32, seed: u32) -> usize {
    match generated(alloc, count, seed) {
        Ok((program, _)) => program.functions.len(),
        Err(_) => 0,
    }
}

#[test]
fn a_text_of_the_most_functions_gives_a_program(rt: HostRuntime) {
    assert!(rt; functions_of(rt.alloc(), 4096, 0) == 4096);
}

#[test]
fn large_texts_give_a_program(rt: HostRuntime) {
    for seed in 0..8 {
        assert!(rt; functions_of(rt.alloc(), 500, seed) == 500, "seed {seed}");
    }
}

#[test]
fn small_texts_give_a_program(rt: HostRuntime) {
    for count in 1..20 {
        for seed in 0..8 {
            assert!(rt;
                functions_of(rt.alloc(), count, seed) == count as usize,
                "{count} {seed}"
            );
        }
    }
}
