// Files that are made to break a check: cut off, very long, nested very deep, with very many calls; and errors that cannot be
// written.

use crate::numbers::DRIVER;
use crate::rows::{Call, Ran, Room, run_on};
use saturn_top::Status;
use sc_base::{MemFiles, OutOfMemory};
use std::alloc::Global;

// Checks one file of these bytes, where standard error has this room.
fn checked(alloc: Global, bytes: Vec<u8>, room: usize) -> Result<Ran, OutOfMemory> {
    let mut held = Vec::new(alloc);
    held.push((String::from_str(alloc, "a.c")?, bytes))?;
    let mut files = MemFiles::new(held, Vec::new(alloc));
    let room = Room {
        out: 10_000,
        err: room,
    };
    run_on(
        alloc,
        Call::Check,
        &["saturn_check", "a.c"],
        &mut files,
        room,
    )
}

// Whether a check of these bytes ends and writes so.
fn ends_so(
    alloc: Global,
    bytes: Vec<u8>,
    status: Status,
    out: &str,
    err: &str,
) -> Result<bool, OutOfMemory> {
    let ran = checked(alloc, bytes, 1000)?;
    Ok(ran.ended(status, out.as_bytes(), err.as_bytes()))
}

fn put_text(bytes: &mut Vec<u8>, text: &str) -> Result<(), OutOfMemory> {
    bytes.extend_from_slice(text.as_bytes())?;
    Ok(())
}

fn put_often(bytes: &mut Vec<u8>, byte: u8, times: usize) -> Result<(), OutOfMemory> {
    for _ in 0..times {
        bytes.push(byte)?;
    }
    Ok(())
}

// ---- errors that cannot be written

// Whether a refusal ends as a fault of writing, with nothing written, where standard error takes no byte.
fn is_write_fault(alloc: Global) -> Result<bool, OutOfMemory> {
    let mut bytes = Vec::new(alloc);
    put_text(&mut bytes, "int a[;")?;
    let ran = checked(alloc, bytes, 0)?;
    Ok(ran.ended(Status::WriteFault, b"", b""))
}

#[test]
fn a_refusal_that_cannot_be_written_is_a_write_fault(rt: HostRuntime) {
    assert!(rt; matches!(is_write_fault(rt.alloc()), Ok(true)));
}

// ---- files that are cut off

// Whether a check ended with a text, or with a refusal and no text.
fn is_defined(ran: &Ran) -> bool {
    match ran.status {
        Status::Clean | Status::Reports => !ran.out.is_empty() && ran.err.is_empty(),
        Status::Refused => ran.out.is_empty() && !ran.err.is_empty(),
        _ => false,
    }
}

// Whether each front of the bytes has an answer.
fn fronts_are_answered(alloc: Global, bytes: &[u8]) -> Result<bool, OutOfMemory> {
    for end in 0..bytes.len() {
        let ran = checked(alloc, bytes[..end].to_vec(alloc)?, 1000)?;
        if !is_defined(&ran) {
            return Ok(false);
        }
    }
    Ok(true)
}

#[test]
fn a_file_cut_after_each_byte_has_an_answer(rt: HostRuntime) {
    let bytes = DRIVER.as_bytes();
    assert!(rt; bytes.len() > 1000);
    assert!(rt; matches!(fronts_are_answered(rt.alloc(), bytes), Ok(true)));
}

// ---- brackets

const ANALYSED: &str = "\
function f at a.c:1:6
  entry -
  exits
    - -> -
total functions 1 skipped 0 rows 1 reports 0
";

const TOO_DEEP: &str = "\
function f at a.c:1:6
  skipped grammar 1:13
total functions 1 skipped 1 rows 0 reports 0
";

// A function with a number in so many brackets.
fn nested(alloc: Global, times: usize) -> Result<Vec<u8>, OutOfMemory> {
    let mut bytes = Vec::new(alloc);
    put_text(&mut bytes, "void f(void){")?;
    put_often(&mut bytes, b'(', times)?;
    put_text(&mut bytes, "1")?;
    put_often(&mut bytes, b')', times)?;
    put_text(&mut bytes, ";}")?;
    Ok(bytes)
}

fn nested_says(alloc: Global, times: usize, text: &str) -> Result<bool, OutOfMemory> {
    let bytes = nested(alloc, times)?;
    ends_so(alloc, bytes, Status::Clean, text, "")
}

#[test]
fn brackets_are_taken_to_a_limit(rt: HostRuntime) {
    assert!(rt; matches!(nested_says(rt.alloc(), 125, ANALYSED), Ok(true)));
    assert!(rt; matches!(nested_says(rt.alloc(), 126, TOO_DEEP), Ok(true)));
    assert!(rt; matches!(nested_says(rt.alloc(), 4_000_000, TOO_DEEP), Ok(true)));
}

// ---- bytes

const MOST_BYTES: usize = 8_388_608;

fn feeds_end_so(
    alloc: Global,
    times: usize,
    status: Status,
    out: &str,
    err: &str,
) -> Result<bool, OutOfMemory> {
    let mut bytes = Vec::new(alloc);
    put_often(&mut bytes, b'\n', times)?;
    ends_so(alloc, bytes, status, out, err)
}

#[test]
fn bytes_are_taken_to_a_limit(rt: HostRuntime) {
    let nothing = "total functions 0 skipped 0 rows 0 reports 0\n";
    let refusal = "saturn_check: limit input 8388609\n";
    assert!(rt;
        matches!(
            feeds_end_so(rt.alloc(), MOST_BYTES, Status::Clean, nothing, ""),
            Ok(true)
        )
    );
    assert!(rt;
        matches!(
            feeds_end_so(rt.alloc(), MOST_BYTES + 1, Status::Refused, "", refusal),
            Ok(true)
        )
    );
}

// ---- calls

// A letter with a number below 256.
fn put_name(bytes: &mut Vec<u8>, number: u8) -> Result<(), OutOfMemory> {
    put_text(bytes, "f")?;
    bytes.push(b'0' + number / 100)?;
    bytes.push(b'0' + number / 10 % 10)?;
    bytes.push(b'0' + number % 10)?;
    Ok(())
}

// 256 functions, each of which calls each.
fn all_call_all(alloc: Global) -> Result<Vec<u8>, OutOfMemory> {
    let mut bytes = Vec::new(alloc);
    for i in 0..=255u8 {
        put_text(&mut bytes, "int ")?;
        put_name(&mut bytes, i)?;
        put_text(&mut bytes, "();")?;
    }
    for i in 0..=255u8 {
        put_text(&mut bytes, "int ")?;
        put_name(&mut bytes, i)?;
        put_text(&mut bytes, "(){")?;
        for j in 0..=255u8 {
            put_name(&mut bytes, j)?;
            put_text(&mut bytes, "();")?;
        }
        put_text(&mut bytes, "}")?;
    }
    Ok(bytes)
}

fn edges_are_too_many(alloc: Global) -> Result<bool, OutOfMemory> {
    let bytes = all_call_all(alloc)?;
    ends_so(
        alloc,
        bytes,
        Status::Refused,
        "",
        "saturn_check: limit edges 65536\n",
    )
}

#[test]
fn calls_are_taken_to_a_limit(rt: HostRuntime) {
    assert!(rt; matches!(edges_are_too_many(rt.alloc()), Ok(true)));
}
