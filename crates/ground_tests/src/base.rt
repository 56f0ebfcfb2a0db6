//! The ground, `sc_base`. What no clause says: that the calls succeed with ample memory, and what the real
//! files and streams do.

use name_interner::Interner;
use sc_base::{
    Failed, Files, IllTyped, LimitKind, List, MemFiles, MemSink, NameId, OutOfMemory, Pos,
    RealFiles, RealSink, Sink, Skip, Unsupported,
};
use std::alloc::Global;
use std::{fs, io};

fn list_holds_its_items(alloc: Global) -> Result<bool, OutOfMemory> {
    let mut list: List<u32> = List::new(alloc);
    let empty = list.is_empty();
    list.push(7)?;
    list.push(9)?;
    let two = list.len() == 2 && list == List::from_vec(vec![in alloc; 7, 9]?);
    Ok(empty && two && list.into_vec().as_slice() == [7, 9].as_slice())
}

#[test]
fn a_list_holds_its_items(rt: HostRuntime) {
    assert!(rt; list_holds_its_items(rt.alloc()) == Ok(true));
}

fn text_is_kept_once(alloc: Global) -> Result<bool, OutOfMemory> {
    let mut names = Interner::new(alloc);
    for (text, at) in [("spin_lock", 0), ("l", 1), ("spin_lock", 0)] {
        if names.len() > 2 || names.intern(text)?.at != at {
            return Ok(false);
        }
    }
    let names = names.into_names()?;
    Ok(names.len() == 2 && names.text(NameId { at: 1 }) == "l")
}

#[test]
fn a_text_is_kept_once(rt: HostRuntime) {
    assert!(rt; text_is_kept_once(rt.alloc()) == Ok(true));
}

#[test]
fn skips_have_their_order(rt: HostRuntime) {
    let pos = Pos {
        file: 0,
        line: 1,
        col: 1,
    };
    assert!(rt; Skip::Grammar { pos }.number() == 1);
    let limit = Skip::Limit {
        kind: LimitKind::Nodes,
        count: 4097,
    };
    assert!(rt; limit.number() == 4);
    assert!(rt; Unsupported::Float < Unsupported::Wide);
    assert!(rt; IllTyped::Incomplete < IllTyped::Again);
    assert!(rt; LimitKind::Edges < LimitKind::Params);
}

fn sink_takes_what_fits(alloc: Global) -> Result<bool, OutOfMemory> {
    let mut sink = MemSink::new(alloc, 3)?;
    Ok(
        sink.write(b"ab") == Ok(2)
            && sink.write(b"cd") == Ok(1)
            && sink.write(b"d") == Err(Failed)
            && sink.bytes() == b"abc".as_slice(),
    )
}

#[test]
fn a_sink_in_memory_takes_what_fits(rt: HostRuntime) {
    assert!(rt; sink_takes_what_fits(rt.alloc()) == Ok(true));
}

// A file `a` with the bytes `one`, then one of the same name, then `b` with `two`.
fn some_files(alloc: Global, failing: &[u64]) -> Result<MemFiles, OutOfMemory> {
    let mut files = Vec::new(alloc);
    for (name, bytes) in [("a", "one"), ("a", "no"), ("b", "two")] {
        let name = String::from_str(alloc, name)?;
        files.push((name, bytes.as_bytes().to_vec(alloc)?))?;
    }
    Ok(MemFiles::new(files, failing.to_vec(alloc)?))
}

// Whether the file of that name has the bytes `one`, of which two are read at a time.
fn has_one<F: Files>(files: &mut F, name: &str) -> Result<bool, Failed> {
    let mut room = [0; 2];
    files.start(name)?;
    let first = files.read(&mut room)? == 2 && room == *b"on";
    let second = files.read(&mut room)? == 1 && room == *b"en";
    Ok(first && second && files.read(&mut room)? == 0)
}

// Whether the first two bytes of the file of that name are these.
fn begins_with(files: &mut MemFiles, name: &str, bytes: [u8; 2]) -> Result<bool, Failed> {
    let mut room = [0; 2];
    files.start(name)?;
    Ok(files.read(&mut room)? == 2 && room == bytes)
}

fn files_are_read_to_their_end(alloc: Global) -> Result<bool, OutOfMemory> {
    let mut files = some_files(alloc, &[])?;
    Ok(
        has_one(&mut files, "a") == Ok(true)
            && files.start("c") == Err(Failed)
            && begins_with(&mut files, "b", *b"tw") == Ok(true),
    )
}

#[test]
fn files_in_memory_are_read_to_their_end(rt: HostRuntime) {
    assert!(rt; files_are_read_to_their_end(rt.alloc()) == Ok(true));
}

// The first call and the third fail: one that starts the file, and one that reads it.
fn two_calls_fail(alloc: Global) -> Result<bool, OutOfMemory> {
    let mut files = some_files(alloc, &[1, 3])?;
    Ok(
        files.start("a") == Err(Failed)
            && begins_with(&mut files, "a", *b"on") == Err(Failed)
            && begins_with(&mut files, "a", *b"on") == Ok(true),
    )
}

#[test]
fn the_calls_that_are_to_fail_do(rt: HostRuntime) {
    assert!(rt; two_calls_fail(rt.alloc()) == Ok(true));
}

#[test]
fn real_files_give_their_bytes(rt: HostRuntime) {
    assert!(rt; fs::write(&rt, "real_files", "one").is_ok());
    let mut files = RealFiles::new(&rt);
    assert!(rt; files.start("no_such_file") == Err(Failed));
    assert!(rt; has_one(&mut files, "real_files") == Ok(true));
}

fn stream_takes_bytes(rt: &HostRuntime) -> io::Result<bool> {
    let mut sink = RealSink::new(fs::File::create(rt, "real_sink")?);
    let taken = sink.write(b"ab") == Ok(2) && sink.write(b"c") == Ok(1);
    let written = fs::read(rt, "real_sink")?;
    Ok(taken && written.as_slice() == b"abc".as_slice())
}

// A stream that is open for reading alone takes nothing.
fn reader_takes_nothing(rt: &HostRuntime) -> io::Result<bool> {
    let mut closed = RealSink::new(fs::open(rt, "real_sink")?);
    Ok(closed.write(b"d") == Err(Failed))
}

#[test]
fn a_real_stream_takes_bytes(rt: HostRuntime) {
    assert!(rt; matches!(stream_takes_bytes(&rt), Ok(true)));
    assert!(rt; matches!(reader_takes_nothing(&rt), Ok(true)));
}
