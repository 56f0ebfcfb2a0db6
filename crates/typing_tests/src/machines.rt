//! Files that are checked with a machine: its operations stand in place of those on locks.

use crate::found::{Found, checked_with, column};
use fsm_spec::machine;
use sc_base::{IllTyped, Skip};
use std::alloc::Global;

/// One operation that gives an `int`, and one that gives nothing.
const MACHINE: &[u8] = b"machine m\nstates a b\nop up zero a>b b>!\nop down void a>! b>a\n";

/// The file, and what its last function is skipped for, with the column where that stands.
const FILES: &[(&str, Option<(IllTyped, u32)>)] = &[
    ("int f(void*p){return up(p);}", None),
    ("void f(void*p){down(p);}", None),
    ("void f(void){up();}", Some((IllTyped::Call, 14))),
    (
        "int f(void*p){return down(p);}",
        Some((IllTyped::Return, 15)),
    ),
    ("void f(void){spin_lock();}", None),
    ("void f(void){kfree();}", Some((IllTyped::Call, 14))),
];

fn by_the_machine(alloc: Global, text: &str) -> Option<Found> {
    let machine = machine(alloc, MACHINE).ok()?;
    checked_with(alloc, machine, text)
}

fn is_told(found: Option<Found>, want: Option<(IllTyped, u32)>) -> bool {
    let due = match want {
        None => None,
        Some((kind, col)) => Some(Skip::IllTyped {
            kind,
            pos: column(col),
        }),
    };
    match found {
        Some(found) => found.skip == due && found.note == None,
        None => false,
    }
}

#[test]
fn a_machine_has_its_operations(rt: HostRuntime) {
    for &(text, want) in FILES {
        assert!(rt; is_told(by_the_machine(rt.alloc(), text), want), "{text}");
    }
}
