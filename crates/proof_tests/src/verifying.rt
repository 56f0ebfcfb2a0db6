//! Whole runs of `saturn_verify` over files and sinks in memory. The expected lines were worked out by hand from the
//! definitions.

use sc_base::{MemFiles, MemSink, OutOfMemory};
use std::alloc::Global;
use verify_runs::{Verified, verify_main};

// Two opposite units, and the empty clause.
const REFUTED: &str = "p cnf 1 2\n1 0\n-1 0\nc drat\n0\n";

// A step that follows, and one that does not.
const NOT_REFUTED: &str = "p cnf 2 2\n1 2 0\n-1 2 0\nc drat\n2 0\n0\n";

// The same without the line that divides: a third clause begins in line 4.
const NOT_DIVIDED: &str = "p cnf 2 2\n1 2 0\n-1 2 0\n2 0\n0\n";

// How a run ended, and what the two sinks took.
#[derive(Drop)]
struct Ran {
    verified: Verified,
    out: Vec<u8>,
    err: Vec<u8>,
}

// Whether a run ended so, with these bytes.
fn is_run(ran: &Ran, verified: Verified, out: &str, err: &str) -> bool {
    ran.verified == verified
        && ran.out.as_slice() == out.as_bytes()
        && ran.err.as_slice() == err.as_bytes()
}

fn named(alloc: Global, words: &[&str]) -> Result<Vec<String>, OutOfMemory> {
    let mut owned = Vec::new(alloc);
    for word in words {
        owned.push(String::from_str(alloc, word)?)?;
    }
    Ok(owned)
}

// A file `a.cnf` of this text.
fn one_file(alloc: Global, text: &str) -> Result<MemFiles, OutOfMemory> {
    let mut held = Vec::new(alloc);
    held.push((
        String::from_str(alloc, "a.cnf")?,
        text.as_bytes().to_vec(alloc)?,
    ))?;
    Ok(MemFiles::new(held, Vec::new(alloc)))
}

// Verifies a file `a.cnf` of this text by these words, where the output has this room.
fn run(alloc: Global, words: &[&str], text: &str, room: usize) -> Result<Ran, OutOfMemory> {
    let words = named(alloc, words)?;
    let mut files = one_file(alloc, text)?;
    let mut out = MemSink::new(alloc, room)?;
    let mut err = MemSink::new(alloc, 1000)?;
    let verified = verify_main(alloc, &words, &mut files, &mut out, &mut err);
    Ok(Ran {
        verified,
        out: out.bytes().to_vec(alloc)?,
        err: err.bytes().to_vec(alloc)?,
    })
}

// Whether a file of this text gets this judgement, and these lines.
fn judges(
    alloc: Global,
    text: &str,
    verified: Verified,
    out: &str,
    err: &str,
) -> Result<bool, OutOfMemory> {
    let ran = run(alloc, &["saturn_verify", "a.cnf"], text, 100)?;
    Ok(is_run(&ran, verified, out, err))
}

fn all_are_judged(alloc: Global) -> Result<bool, OutOfMemory> {
    Ok(
        judges(alloc, REFUTED, Verified::Accepted, "verified 2 1\n", "")?
            && judges(alloc, NOT_REFUTED, Verified::Rejected, "rejected 2\n", "")?
            && judges(
                alloc,
                NOT_DIVIDED,
                Verified::Refused,
                "",
                "saturn_verify: a.cnf:4: malformed\n",
            )?,
    )
}

// Whether these words are bad ones: only the second sink gets a text.
fn are_bad(alloc: Global, words: &[&str]) -> Result<bool, OutOfMemory> {
    let ran = run(alloc, words, REFUTED, 1000)?;
    Ok(ran.verified == Verified::BadWords && ran.out.is_empty() && !ran.err.is_empty())
}

// Whether this word is a call for a text: only the first sink gets one.
fn is_call(alloc: Global, word: &str) -> Result<bool, OutOfMemory> {
    let ran = run(alloc, &["saturn_verify", word], REFUTED, 1000)?;
    Ok(ran.verified == Verified::Helped && !ran.out.is_empty() && ran.err.is_empty())
}

fn words_are_told_apart(alloc: Global) -> Result<bool, OutOfMemory> {
    Ok(
        are_bad(alloc, &["saturn_verify"])?
            && are_bad(alloc, &["saturn_verify", "a.cnf", "a.cnf"])?
            && are_bad(alloc, &["saturn_verify", "--fast", "a.cnf"])?
            && is_call(alloc, "--help")?
            && is_call(alloc, "--version")?,
    )
}

fn faults_are_answered(alloc: Global) -> Result<bool, OutOfMemory> {
    let missing = run(alloc, &["saturn_verify", "b.cnf"], REFUTED, 100)?;
    let full = run(alloc, &["saturn_verify", "a.cnf"], REFUTED, 5)?;
    Ok(
        is_run(
            &missing,
            Verified::ReadFault,
            "",
            "saturn_verify: cannot read b.cnf\n",
        ) && is_run(&full, Verified::WriteFault, "verif", ""),
    )
}

#[test]
fn certificates_are_judged(rt: HostRuntime) {
    assert!(rt; matches!(all_are_judged(rt.alloc()), Ok(true)));
}

#[test]
fn the_words_name_one_file(rt: HostRuntime) {
    assert!(rt; matches!(words_are_told_apart(rt.alloc()), Ok(true)));
}

#[test]
fn a_fault_has_its_answer(rt: HostRuntime) {
    assert!(rt; matches!(faults_are_answered(rt.alloc()), Ok(true)));
}
