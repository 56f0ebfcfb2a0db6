// Files and sinks that fail, words that ask for nothing, and limits.

use crate::rows::{Call, Ran, run};
use saturn_top::Status;
use sc_base::OutOfMemory;
use std::alloc::Global;

const FILES: [(&str, &str); 1] = [(
    "a.c",
    "typedef struct{int v;}spinlock_t;\nvoid f(spinlock_t*l){spin_lock(l);}",
)];

const TEXT: &str = "\
function f at a.c:2:6
  entry l
  exits
    1 -> -
  lock *l
    1 U -> - L
    1 L -> - !
total functions 1 skipped 0 rows 3 reports 0
";

// Checks the file by these words, where these calls of the files fail and the output has this room.
fn checked(
    alloc: Global,
    words: &[&str],
    failing: &[u64],
    room: usize,
) -> Result<Ran, OutOfMemory> {
    run(alloc, Call::Check, words, &FILES, failing, room)
}

// Whether the check ends so where this call of the files fails.
fn fails_so(alloc: Global, call: u64, status: Status, out: &str, err: &str) -> bool {
    match checked(alloc, &["saturn_check", "a.c"], &[call], 10_000) {
        Ok(ran) => ran.ended(status, out.as_bytes(), err.as_bytes()),
        Err(_) => false,
    }
}

#[test]
fn a_file_that_fails_is_named(rt: HostRuntime) {
    let line = "saturn_check: cannot read a.c\n";
    for call in 1..4 {
        assert!(rt;
            fails_so(rt.alloc(), call, Status::ReadFault, "", line),
            "call {call}"
        );
    }
    assert!(rt; fails_so(rt.alloc(), 4, Status::Clean, TEXT, ""));
}

// Whether an output of this room, which is at most the length of the text, takes the front of the text.
fn has_the_front(alloc: Global, room: usize) -> bool {
    let Some(front) = TEXT.as_bytes().get(..room) else {
        return false;
    };
    let status = if room < TEXT.len() {
        Status::WriteFault
    } else {
        Status::Clean
    };
    match checked(alloc, &["saturn_check", "a.c"], &[], room) {
        Ok(ran) => ran.ended(status, front, b""),
        Err(_) => false,
    }
}

#[test]
fn a_full_sink_has_the_front_of_the_text(rt: HostRuntime) {
    for room in 0..=TEXT.len() {
        assert!(rt; has_the_front(rt.alloc(), room), "room {room}");
    }
}

fn are_bad(alloc: Global, words: &[&str]) -> bool {
    match checked(alloc, words, &[], 10_000) {
        Ok(ran) => ran.only_erred(Status::BadWords),
        Err(_) => false,
    }
}

fn is_helped(alloc: Global) -> bool {
    match checked(alloc, &["saturn_check", "--help"], &[], 10_000) {
        Ok(ran) => ran.only_told(Status::Helped),
        Err(_) => false,
    }
}

// Whether the words may ask for the most of what has a limit.
fn are_taken_to_their_limits(alloc: Global) -> bool {
    let words = ["saturn_check", "a.c", "--jobs", "64", "--reach", "4"];
    match checked(alloc, &words, &[], 10_000) {
        Ok(ran) => ran.ended(Status::Clean, TEXT.as_bytes(), b""),
        Err(_) => false,
    }
}

#[test]
fn words_that_ask_for_nothing_are_bad_or_get_help(rt: HostRuntime) {
    let bad: [&[&str]; 5] = [
        &["saturn_check"],
        &["saturn_check", "--depth", "9", "a.c"],
        &["saturn_check", "--reach", "0", "a.c"],
        &["saturn_check", "--model", "lp32", "a.c"],
        &["saturn_check", "--jobs", "65", "a.c"],
    ];
    for words in bad {
        assert!(rt; are_bad(rt.alloc(), words));
    }
    assert!(rt; is_helped(rt.alloc()));
    assert!(rt; are_taken_to_their_limits(rt.alloc()));
}
