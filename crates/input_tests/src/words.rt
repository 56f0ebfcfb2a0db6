//! What the words of the three command lines ask for: defaults, each option with its bounds, a call for help, and words
//! that have a fault. Of the texts of help and of faults it is tested alone that there are some.

use crate::given::owned;
use saturn_words::{
    BenchWords, CheckWords, Format, NoWords, RunWords, bench_words, check_words, run_words,
};
use sc_base::OutOfMemory;
use sc_tree::ctype::Widths;
use std::alloc::Global;

/// What becomes of words.
#[derive(Clone, Copy, PartialEq, Eq)]
enum Outcome {
    /// They ask for something.
    Asked,
    /// They call for help or for the version, and there is a text.
    Helped,
    /// They have another fault, and there is a text.
    Bad,
    /// There is no text.
    Silent,
}

fn ending_of(why: &NoWords) -> Result<Outcome, OutOfMemory> {
    match why {
        NoWords::Memory => Err(OutOfMemory),
        NoWords::Help(text) => Ok(if text.is_empty() {
            Outcome::Silent
        } else {
            Outcome::Helped
        }),
        NoWords::Bad(text) => Ok(if text.is_empty() {
            Outcome::Silent
        } else {
            Outcome::Bad
        }),
    }
}

fn check_outcome(alloc: Global, words: &[&str]) -> Result<Outcome, OutOfMemory> {
    let words = owned(alloc, words)?;
    match check_words(alloc, words.as_slice()) {
        Ok(_) => Ok(Outcome::Asked),
        Err(why) => ending_of(&why),
    }
}

fn run_outcome(alloc: Global, words: &[&str]) -> Result<Outcome, OutOfMemory> {
    let words = owned(alloc, words)?;
    match run_words(alloc, words.as_slice()) {
        Ok(_) => Ok(Outcome::Asked),
        Err(why) => ending_of(&why),
    }
}

fn bench_outcome(alloc: Global, words: &[&str]) -> Result<Outcome, OutOfMemory> {
    let words = owned(alloc, words)?;
    match bench_words(alloc, words.as_slice()) {
        Ok(_) => Ok(Outcome::Asked),
        Err(why) => ending_of(&why),
    }
}

fn is_word(found: Option<&str>, want: &str) -> bool {
    match found {
        Some(word) => word == want,
        None => false,
    }
}

fn has_defaults(asked: &CheckWords) -> bool {
    asked.options.depth == 2
        && asked.options.reach == 2
        && asked.options.widths == Widths::Ilp32
        && asked.options.machine.is_none()
        && asked.options.files.len() == 1
        && asked.options.files[0] == "a.c"
        && asked.format == Format::Text
        && asked.jobs == 1
}

fn defaults(alloc: Global) -> Option<bool> {
    let words = owned(alloc, &["saturn_check", "a.c"]).ok()?;
    let asked = check_words(alloc, words.as_slice()).ok()?;
    Some(has_defaults(&asked))
}

#[test]
fn what_is_not_given_has_its_default(rt: HostRuntime) {
    assert!(rt; defaults(rt.alloc()) == Some(true));
}

const CHECK: &[&str] = &[
    "saturn_check",
    "--depth",
    "3",
    "a.c",
    "--reach=4",
    "--model",
    "lp64",
    "b.c",
    "--machine",
    "m",
    "--format",
    "json",
    "--jobs",
    "64",
    "a.c",
];

fn has_options(asked: &CheckWords) -> bool {
    asked.options.depth == 3
        && asked.options.reach == 4
        && asked.options.widths == Widths::Lp64
        && is_word(asked.options.machine, "m")
        && asked.format == Format::Json
        && asked.jobs == 64
}

fn has_files(asked: &CheckWords) -> bool {
    asked.options.files.len() == 3
        && asked.options.files[0] == "a.c"
        && asked.options.files[1] == "b.c"
        && asked.options.files[2] == "a.c"
}

fn options(alloc: Global) -> Option<bool> {
    let words = owned(alloc, CHECK).ok()?;
    let asked = check_words(alloc, words.as_slice()).ok()?;
    Some(has_options(&asked) && has_files(&asked))
}

#[test]
fn each_option_is_read(rt: HostRuntime) {
    assert!(rt; options(rt.alloc()) == Some(true));
}

const RUN: &[&str] = &[
    "saturn_run",
    "--choice",
    "4f",
    "a.c",
    "--function",
    "f",
    "--depth",
    "8",
    "--model",
    "ilp32",
];

fn is_run_of_f(asked: &RunWords) -> bool {
    asked.function == "f"
        && asked.choice == "4f"
        && asked.format == Format::Text
        && asked.options.depth == 8
        && asked.options.reach == 2
        && asked.options.widths == Widths::Ilp32
        && asked.options.machine.is_none()
        && asked.options.files.len() == 1
        && asked.options.files[0] == "a.c"
}

fn run_is_asked(alloc: Global) -> Option<bool> {
    let words = owned(alloc, RUN).ok()?;
    let asked = run_words(alloc, words.as_slice()).ok()?;
    Some(is_run_of_f(&asked))
}

#[test]
fn a_run_has_a_function_and_a_choice(rt: HostRuntime) {
    assert!(rt; run_is_asked(rt.alloc()) == Some(true));
}

/// Whether the words of a bench ask for so many functions, this seed and so many jobs.
fn is_bench(alloc: Global, words: &[&str], functions: u32, seed: u32, jobs: u32) -> bool {
    let Ok(words) = owned(alloc, words) else {
        return false;
    };
    let want = BenchWords {
        functions,
        seed,
        jobs,
    };
    match bench_words(alloc, words.as_slice()) {
        Ok(asked) => asked == want,
        Err(_) => false,
    }
}

#[test]
fn a_bench_has_two_numbers(rt: HostRuntime) {
    let words = ["saturn_bench", "4096", "--jobs", "3", "4294967295"];
    assert!(rt; is_bench(rt.alloc(), &words, 4096, 4294967295, 3));
    assert!(rt; is_bench(rt.alloc(), &["saturn_bench", "1", "0"], 1, 0, 1));
}

/// Words of a check, and what becomes of them.
const CHECKS: &[(&[&str], Outcome)] = &[
    // Numbers have bounds: one below the least, the least, the greatest, one above, and what is no such number.
    (&["saturn_check", "--depth", "0", "a.c"], Outcome::Bad),
    (&["saturn_check", "--depth", "1", "a.c"], Outcome::Asked),
    (&["saturn_check", "--depth", "8", "a.c"], Outcome::Asked),
    (&["saturn_check", "--depth", "9", "a.c"], Outcome::Bad),
    (&["saturn_check", "--depth", "-1", "a.c"], Outcome::Bad),
    (&["saturn_check", "--depth", "x", "a.c"], Outcome::Bad),
    (&["saturn_check", "--depth", "", "a.c"], Outcome::Bad),
    (&["saturn_check", "--depth", "1.5", "a.c"], Outcome::Bad),
    (&["saturn_check", "--reach", "0", "a.c"], Outcome::Bad),
    (&["saturn_check", "--reach", "1", "a.c"], Outcome::Asked),
    (&["saturn_check", "--reach", "4", "a.c"], Outcome::Asked),
    (&["saturn_check", "--reach", "5", "a.c"], Outcome::Bad),
    (&["saturn_check", "--reach", "-1", "a.c"], Outcome::Bad),
    (&["saturn_check", "--reach", "x", "a.c"], Outcome::Bad),
    (&["saturn_check", "--reach", "", "a.c"], Outcome::Bad),
    (&["saturn_check", "--reach", "1.5", "a.c"], Outcome::Bad),
    (&["saturn_check", "--jobs", "0", "a.c"], Outcome::Bad),
    (&["saturn_check", "--jobs", "1", "a.c"], Outcome::Asked),
    (&["saturn_check", "--jobs", "64", "a.c"], Outcome::Asked),
    (&["saturn_check", "--jobs", "65", "a.c"], Outcome::Bad),
    (&["saturn_check", "--jobs", "-1", "a.c"], Outcome::Bad),
    (&["saturn_check", "--jobs", "x", "a.c"], Outcome::Bad),
    (&["saturn_check", "--jobs", "", "a.c"], Outcome::Bad),
    (&["saturn_check", "--jobs", "1.5", "a.c"], Outcome::Bad),
    // Words have faults.
    (&["saturn_check"], Outcome::Bad),
    (&["saturn_check", "--depth", "2"], Outcome::Bad),
    (&["saturn_check", "a.c", "--depth"], Outcome::Bad),
    (&["saturn_check", "a.c", "--machine"], Outcome::Bad),
    (&["saturn_check", "a.c", "--fast"], Outcome::Bad),
    (
        &["saturn_check", "--depth", "2", "--depth", "2", "a.c"],
        Outcome::Bad,
    ),
    (&["saturn_check", "--model", "lp32", "a.c"], Outcome::Bad),
    (&["saturn_check", "--function", "f", "a.c"], Outcome::Bad),
    (&["saturn_check", "-d", "2", "a.c"], Outcome::Bad),
    // Help and the version are given.
    (&["saturn_check", "--help"], Outcome::Helped),
    (&["saturn_check", "-h"], Outcome::Helped),
    (&["saturn_check", "--version"], Outcome::Helped),
    (&["saturn_check", "-V"], Outcome::Helped),
];

#[test]
fn words_of_a_check(rt: HostRuntime) {
    for &(words, want) in CHECKS {
        assert!(rt; check_outcome(rt.alloc(), words) == Ok(want), "{words:?}");
    }
}

/// Words of a run, and what becomes of them.
const RUNS: &[(&[&str], Outcome)] = &[
    (&["saturn_run", "--function", "f", "a.c"], Outcome::Bad),
    (&["saturn_run", "--choice", "4", "a.c"], Outcome::Bad),
    (
        &["saturn_run", "--function", "f", "--choice", "4"],
        Outcome::Bad,
    ),
    (
        &[
            "saturn_run",
            "--function",
            "f",
            "--choice",
            "4",
            "--jobs",
            "1",
            "a.c",
        ],
        Outcome::Bad,
    ),
    (&["saturn_run", "a.c", "--help"], Outcome::Helped),
    (&["saturn_run", "a.c", "-h"], Outcome::Helped),
    (&["saturn_run", "a.c", "--version"], Outcome::Helped),
    (&["saturn_run", "a.c", "-V"], Outcome::Helped),
    (
        &[
            "saturn_run",
            "--function",
            "f",
            "--choice",
            "4",
            "--format",
            "sarif",
            "a.c",
        ],
        Outcome::Bad,
    ),
];

/// Words of a bench, and what becomes of them.
const BENCHES: &[(&[&str], Outcome)] = &[
    (&["saturn_bench", "1"], Outcome::Bad),
    (&["saturn_bench", "0", "0"], Outcome::Bad),
    (&["saturn_bench", "4097", "0"], Outcome::Bad),
    (&["saturn_bench", "1", "4294967296"], Outcome::Bad),
    (&["saturn_bench", "1", "0", "0"], Outcome::Bad),
    (&["saturn_bench", "--jobs", "65", "1", "0"], Outcome::Bad),
    (&["saturn_bench", "1", "--help"], Outcome::Helped),
    (&["saturn_bench", "1", "-h"], Outcome::Helped),
    (&["saturn_bench", "1", "--version"], Outcome::Helped),
    (&["saturn_bench", "1", "-V"], Outcome::Helped),
];

#[test]
fn words_of_the_others(rt: HostRuntime) {
    for &(words, want) in RUNS {
        assert!(rt; run_outcome(rt.alloc(), words) == Ok(want), "{words:?}");
    }
    for &(words, want) in BENCHES {
        assert!(rt; bench_outcome(rt.alloc(), words) == Ok(want), "{words:?}");
    }
}
