//! Why there is no input: each cause with its place, and which of them is the first.

use crate::given::files_of;
use sc_base::{OutOfMemory, Pos};
use sc_input::{Refusal, read_input};
use std::alloc::Global;

/// A machine file.
const MACHINE: &str = "machine m\nstates a b\nop f void a>b b>a\n";

/// The same without its second line.
const BROKEN: &str = "machine m\nop f void a>b b>a\n";

/// Why these files give no input, in memory that holds some, where the calls of these numbers fail.
fn told<'a>(
    alloc: Global,
    failing: &[u64],
    machine: Option<&'a str>,
    named: &[&'a str],
) -> Result<Option<Refusal<'a>>, OutOfMemory> {
    let held = [
        ("good.c", "int f(int x){return x;}"),
        ("odd.c", "int x;\n int y@;"),
        ("open.c", "int f(void){\nif(x];}"),
        ("both.c", "]\n@"),
        ("m", MACHINE),
        ("broken", BROKEN),
    ];
    let mut files = files_of(alloc, &held, failing)?;
    Ok(read_input(alloc, &mut files, machine, named).err())
}

/// The calls that fail, the machine, the files that are named, and why there is no input; none where there is one.
type Row = (
    &'static [u64],
    Option<&'static str>,
    &'static [&'static str],
    Option<Refusal<'static>>,
);

/// Where `odd.c` has what begins no token, as the first file.
const ODD: Pos = Pos {
    file: 0,
    line: 2,
    col: 7,
};

/// Where `open.c` has a bracket without its other half, as the first file.
const OPEN: Pos = Pos {
    file: 0,
    line: 2,
    col: 5,
};

/// The same as the third file.
const OPEN_THIRD: Pos = Pos {
    file: 2,
    line: 2,
    col: 5,
};

/// Where `both.c` has what begins no token, as the second file.
const BOTH: Pos = Pos {
    file: 1,
    line: 2,
    col: 1,
};

/// The first two files that are named are `good.c` and `odd.c`.
const GOOD_ODD: &[&str] = &["good.c", "odd.c"];

/// More names than files may have.
const MANY: [&str; 65] = ["none.c"; 65];

const ROWS: &[Row] = &[
    (&[], None, &["good.c"], None),
    (
        &[],
        None,
        &["good.c", "none.c"],
        Some(Refusal::Unread("none.c")),
    ),
    // Each file has a call that starts it, one that reads its bytes, and one that finds its end.
    (&[1], None, GOOD_ODD, Some(Refusal::Unread("good.c"))),
    (&[2], None, GOOD_ODD, Some(Refusal::Unread("good.c"))),
    (&[3], None, GOOD_ODD, Some(Refusal::Unread("good.c"))),
    (&[4], None, GOOD_ODD, Some(Refusal::Unread("odd.c"))),
    (&[5], None, GOOD_ODD, Some(Refusal::Unread("odd.c"))),
    (&[6], None, GOOD_ODD, Some(Refusal::Unread("odd.c"))),
    // A machine file comes before the others.
    (
        &[],
        Some("none"),
        &["none.c"],
        Some(Refusal::Unread("none")),
    ),
    (&[2], Some("m"), &["good.c"], Some(Refusal::Unread("m"))),
    (&[4], Some("broken"), &["good.c"], Some(Refusal::Machine(2))),
    (
        &[4],
        Some("m"),
        &["good.c"],
        Some(Refusal::Unread("good.c")),
    ),
    // What has no tokens is placed.
    (&[], None, &["odd.c"], Some(Refusal::Lexical("odd.c", ODD))),
    (
        &[],
        None,
        &["good.c", "good.c", "open.c"],
        Some(Refusal::Unbalanced("open.c", OPEN_THIRD)),
    ),
    // A place where nothing begins counts before a bracket, wherever they stand.
    (
        &[],
        Some("m"),
        &["good.c", "both.c"],
        Some(Refusal::Lexical("both.c", BOTH)),
    ),
    // The first refusal is told.
    (
        &[],
        None,
        &["odd.c", "none.c"],
        Some(Refusal::Lexical("odd.c", ODD)),
    ),
    (
        &[],
        None,
        &["open.c", "odd.c"],
        Some(Refusal::Unbalanced("open.c", OPEN)),
    ),
    (
        &[],
        None,
        &["none.c", "odd.c"],
        Some(Refusal::Unread("none.c")),
    ),
    // Too many files are told before all.
    (&[], Some("none"), &MANY, Some(Refusal::Files(65))),
];

#[test]
fn each_refusal_is_told(rt: HostRuntime) {
    for &(failing, machine, named, want) in ROWS {
        assert!(rt;
            told(rt.alloc(), failing, machine, named) == Ok(want),
            "{named:?}"
        );
    }
}

#[test]
fn as_many_files_as_the_limit_are_not_too_many(rt: HostRuntime) {
    let missing = Some(Refusal::Unread("none"));
    assert!(rt; told(rt.alloc(), &[], Some("none"), &MANY[..64]) == Ok(missing));
}
