// Whole runs over files and sinks in memory, each held to the text, the line and the status that were worked out from
// the definitions.

use crate::json_values::JSON;
use crate::locks::LOCKS;
use crate::memory::MEMORY;
use crate::numbers::NUMBERS;
use crate::options::OPTIONS;
use crate::refusals::REFUSALS;
use crate::replays::{JSON_REPLAYS, REPLAYS, UNREPLAYED};
use crate::skips::SKIPS;
use run_top::run_main;
use saturn_top::{Status, check_alone};
use sc_base::{MemFiles, MemSink, OutOfMemory};
use std::alloc::Global;
use std::process::Abort;

/// The machine of locks, spelled.
pub const LOCK_MACHINE: &str = "\
machine lock
states U L
op spin_lock void U>L L>!
op mutex_lock void U>L L>!
op pthread_mutex_lock zero U>L L>!
op spin_unlock void U>! L>U
op mutex_unlock void U>! L>U
op pthread_mutex_unlock zero U>! L>U
";

/// A machine of three states.
pub const INTERRUPTS: &str = "\
machine irq
states off on nested
op irq_on void off>on on>nested nested>!
op irq_off void off>! on>off nested>on
";

/// The call that a run is one of.
#[derive(Clone, Copy)]
pub enum Call {
    Check,
    Replay,
}

/// A run: its words, the files, and what is written.
pub struct Row {
    pub name: &'static str,
    pub status: Status,
    pub words: &'static [&'static str],
    /// The name and the text of each file.
    pub files: &'static [(&'static str, &'static str)],
    /// What the output takes if the status is that of a text, and standard error else; the other of the two takes nothing.
    pub said: &'static str,
}

/// Rows: of each run its name, its status, its words, the files, and what is written.
macro_rules! rows {
    ($($name:literal: $status:ident $words:tt $files:tt => $said:expr),* $(,)?) => {
        &[$($crate::rows::Row {
            name: $name,
            status: saturn_top::Status::$status,
            words: &$words,
            files: &$files,
            said: $said,
        }),*]
    };
}

pub(crate) use rows;

/// How a run ended, and what the two sinks took.
#[derive(Drop)]
pub struct Ran {
    pub status: Status,
    pub out: Vec<u8>,
    pub err: Vec<u8>,
}

impl Ran {
    /// Whether the run ended so, and these bytes went to the output and to standard error.
    pub fn ended(&self, status: Status, out: &[u8], err: &[u8]) -> bool {
        self.status == status && self.out.as_slice() == out && self.err.as_slice() == err
    }

    /// Whether the run ended and wrote as the row says.
    pub fn is_as_worked_out(&self, row: &Row) -> bool {
        match row.status {
            Status::Clean | Status::Reports => self.ended(row.status, row.said.as_bytes(), b""),
            _ => self.ended(row.status, b"", row.said.as_bytes()),
        }
    }

    /// Whether the run ended so, and a text went to standard error alone.
    pub fn only_erred(&self, status: Status) -> bool {
        self.status == status && self.out.is_empty() && !self.err.is_empty()
    }

    /// Whether the run ended so, and a text went to the output alone.
    pub fn only_told(&self, status: Status) -> bool {
        self.status == status && !self.out.is_empty() && self.err.is_empty()
    }
}

/// These words, owned.
pub fn owned(alloc: Global, words: &[&str]) -> Result<Vec<String>, OutOfMemory> {
    let mut all = Vec::new(alloc);
    for word in words {
        all.push(String::from_str(alloc, word)?)?;
    }
    Ok(all)
}

/// Files of these names and texts.
pub fn held(alloc: Global, files: &[(&str, &str)]) -> Result<Vec<(String, Vec<u8>)>, OutOfMemory> {
    let mut all = Vec::new(alloc);
    for (name, text) in files {
        let bytes = text.as_bytes().to_vec(alloc)?;
        all.push((String::from_str(alloc, name)?, bytes))?;
    }
    Ok(all)
}

/// What a run with these sinks has written.
pub fn written(
    alloc: Global,
    status: Status,
    out: &MemSink,
    err: &MemSink,
) -> Result<Ran, OutOfMemory> {
    Ok(Ran {
        status,
        out: out.bytes().to_vec(alloc)?,
        err: err.bytes().to_vec(alloc)?,
    })
}

/// How many bytes the output and standard error take.
#[derive(Clone, Copy)]
pub struct Room {
    pub out: usize,
    pub err: usize,
}

/// Runs the call by these words on these files, where the sinks have this room.
pub fn run_on(
    alloc: Global,
    call: Call,
    words: &[&str],
    files: &mut MemFiles,
    room: Room,
) -> Result<Ran, OutOfMemory> {
    let words = owned(alloc, words)?;
    let mut out = MemSink::new(alloc, room.out)?;
    let mut err = MemSink::new(alloc, room.err)?;
    let status = match call {
        Call::Check => check_alone(alloc, &words, files, &mut out, &mut err),
        Call::Replay => run_main(alloc, &words, files, &mut out, &mut err),
    };
    written(alloc, status, &out, &err)
}

/// The same on files of these names and texts, where the calls of these numbers fail and the output has this room.
pub fn run(
    alloc: Global,
    call: Call,
    words: &[&str],
    files: &[(&str, &str)],
    failing: &[u64],
    room: usize,
) -> Result<Ran, OutOfMemory> {
    let mut files = MemFiles::new(held(alloc, files)?, failing.to_vec(alloc)?);
    let room = Room {
        out: room,
        err: 1000,
    };
    run_on(alloc, call, words, &mut files, room)
}

// Whether the run of this row ends and writes as the row says.
fn is_as_worked_out(alloc: Global, call: Call, row: &Row) -> bool {
    match run(alloc, call, row.words, row.files, &[], 10_000) {
        Ok(ran) => ran.is_as_worked_out(row),
        Err(_) => false,
    }
}

// The runs of these rows end and write as the rows say.
fn expect(rt: &impl Abort, alloc: Global, call: Call, rows: &[Row]) {
    for row in rows {
        assert!(rt; is_as_worked_out(alloc, call, row), "{}", row.name);
    }
}

#[test]
fn locks_have_the_rows_of_their_runs(rt: HostRuntime) {
    expect(&rt, rt.alloc(), Call::Check, LOCKS);
}

#[test]
fn numbers_take_all_values_of_their_widths(rt: HostRuntime) {
    expect(&rt, rt.alloc(), Call::Check, NUMBERS);
}

#[test]
fn objects_are_freed_or_lost(rt: HostRuntime) {
    expect(&rt, rt.alloc(), Call::Check, MEMORY);
}

#[test]
fn other_functions_are_skipped(rt: HostRuntime) {
    expect(&rt, rt.alloc(), Call::Check, SKIPS);
}

#[test]
fn options_change_widths_and_machine(rt: HostRuntime) {
    expect(&rt, rt.alloc(), Call::Check, OPTIONS);
}

#[test]
fn json_is_the_value_of_the_check(rt: HostRuntime) {
    expect(&rt, rt.alloc(), Call::Check, JSON);
}

#[test]
fn each_refusal_has_its_line(rt: HostRuntime) {
    expect(&rt, rt.alloc(), Call::Check, REFUSALS);
}

#[test]
fn each_choice_has_its_run(rt: HostRuntime) {
    expect(&rt, rt.alloc(), Call::Replay, REPLAYS);
    expect(&rt, rt.alloc(), Call::Replay, JSON_REPLAYS);
}

#[test]
fn where_there_is_no_run_there_is_a_line(rt: HostRuntime) {
    expect(&rt, rt.alloc(), Call::Replay, UNREPLAYED);
}
