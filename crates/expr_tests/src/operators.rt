//! Each operator over two numbers of three bits, for each type, sign and width, on every choice (C11 6.5.3.3, 6.5.5 to 6.5.12,
//! 6.5.16, 6.5.2.4).

use crate::beside::beside;
use sc_tree::ctype::Widths;
use std::alloc::Global;

const TYPES: [&str; 12] = [
    "_Bool",
    "char",
    "signed char",
    "unsigned char",
    "short",
    "unsigned short",
    "int",
    "unsigned",
    "long",
    "unsigned long",
    "long long",
    "unsigned long long",
];

// The bits of two numbers; the first number is -4 to 3, the other -1 to 6.
const BITS: &str = "_Bool a,_Bool b,_Bool c,_Bool d,_Bool e,_Bool g";

const FIRST: &str = "((a*4+b*2+c&7)-4)";

const SECOND: &str = "((d*4+e*2+g&7)-1)";

/// The choices of two numbers, in two widths.
const ALL: u64 = 128;

// On how many choices a function comes to its end, with one width; none where gates and runs do not agree on each of 64.
fn exits(alloc: Global, text: &str, widths: Widths) -> Option<u64> {
    let tally = beside(alloc, text, widths)?;
    if tally.choices == 64 {
        Some(tally.exits)
    } else {
        None
    }
}

// The same in both widths together.
fn both_widths(alloc: Global, text: &str) -> Option<u64> {
    let small = exits(alloc, text, Widths::Ilp32)?;
    Some(small.saturating_add(exits(alloc, text, Widths::Lp64)?))
}

// The same of an operator between two numbers of these types.
fn between_types(alloc: Global, op: &str, t: &str, u: &str) -> Option<u64> {
    let Ok(text) = format!(in alloc; "long long f({BITS}){{return({t}){FIRST}{op}({u}){SECOND};}}")
    else {
        return None;
    };
    both_widths(alloc, text.as_str())
}

// Of these operators between two numbers of each type.
fn between(alloc: Global, ops: &[&str]) -> Option<u64> {
    let mut exits = 0u64;
    for op in ops {
        for t in TYPES {
            exits = exits.saturating_add(between_types(alloc, op, t, t)?);
        }
    }
    Some(exits)
}

// How many choices so many functions have.
fn all_of(functions: u64) -> u64 {
    functions.saturating_mul(ALL)
}

#[test]
fn sums_and_bits(rt: HostRuntime) {
    assert!(rt; between(rt.alloc(), &["*", "+", "-", "&", "^", "|", ","]) == Some(all_of(84)));
}

#[test]
fn comparisons(rt: HostRuntime) {
    assert!(rt; between(rt.alloc(), &["<", ">", "<=", ">=", "==", "!="]) == Some(all_of(72)));
}

// One divisor of eight is 0, in each type.
#[test]
fn quotients(rt: HostRuntime) {
    assert!(rt; between(rt.alloc(), &["/"]) == Some(12 * 112));
}

#[test]
fn remainders(rt: HostRuntime) {
    assert!(rt; between(rt.alloc(), &["%"]) == Some(12 * 112));
}

// One count of eight is -1, but as `_Bool` it is 1.
#[test]
fn shifts(rt: HostRuntime) {
    assert!(rt; between(rt.alloc(), &["<<", ">>"]) == Some(2 * (128 + 11 * 112)));
}

const MIXED: [(&str, &str); 6] = [
    ("int", "unsigned"),
    ("unsigned", "int"),
    ("long", "unsigned"),
    ("unsigned long", "long long"),
    ("signed char", "unsigned short"),
    ("_Bool", "long"),
];

fn mixed(alloc: Global) -> Option<u64> {
    let mut exits = 0u64;
    for (t, u) in MIXED {
        for op in ["<", "+", "==", ">="] {
            exits = exits.saturating_add(between_types(alloc, op, t, u)?);
        }
    }
    Some(exits)
}

#[test]
fn operands_of_two_types(rt: HostRuntime) {
    assert!(rt; mixed(rt.alloc()) == Some(all_of(24)));
}

// What stands before a number of each type.
fn before(alloc: Global, ops: &[&str]) -> Option<u64> {
    let mut exits = 0u64;
    for op in ops {
        for t in TYPES {
            let Ok(text) = format!(in alloc; "long long f({BITS}){{return{op}({t}){FIRST};}}")
            else {
                return None;
            };
            exits = exits.saturating_add(both_widths(alloc, text.as_str())?);
        }
    }
    Some(exits)
}

#[test]
fn operators_of_one_number(rt: HostRuntime) {
    assert!(rt; before(rt.alloc(), &["+", "-", "~", "!"]) == Some(all_of(48)));
}

#[test]
fn conversions(rt: HostRuntime) {
    let from = [
        "(_Bool)",
        "(char)",
        "(signed char)",
        "(unsigned char)",
        "(short)",
        "(unsigned short)",
        "(int)",
        "(unsigned)",
        "(long)",
        "(unsigned long)",
        "(long long)",
        "(unsigned long long)",
    ];
    assert!(rt; before(rt.alloc(), &from) == Some(all_of(144)));
}

// An object of each type is changed by an operator, and read again.
fn changed(alloc: Global, before: &str, behind: &str) -> Option<u64> {
    let mut exits = 0u64;
    for t in TYPES {
        let Ok(text) = format!(in alloc;
            "long long f({BITS}){{{t} x;long long y;x={FIRST};y=({before}x{behind});return y*64+x;}}"
        ) else {
            return None;
        };
        exits = exits.saturating_add(both_widths(alloc, text.as_str())?);
    }
    Some(exits)
}

fn counted(alloc: Global) -> Option<u64> {
    let mut exits = 0u64;
    for (before, behind) in [("++", ""), ("--", ""), ("", "++"), ("", "--")] {
        exits = exits.saturating_add(changed(alloc, before, behind)?);
    }
    Some(exits)
}

#[test]
fn counts(rt: HostRuntime) {
    assert!(rt; counted(rt.alloc()) == Some(all_of(48)));
}

// These assignments of the second number.
fn assigned(alloc: Global, ops: &[&str]) -> Option<u64> {
    let mut exits = 0u64;
    for op in ops {
        let Ok(right) = format!(in alloc; "{op}{SECOND}") else {
            return None;
        };
        exits = exits.saturating_add(changed(alloc, "", right.as_str())?);
    }
    Some(exits)
}

#[test]
fn assignments(rt: HostRuntime) {
    let ops = ["=", "*=", "+=", "-=", "&=", "^=", "|="];
    assert!(rt; assigned(rt.alloc(), &ops) == Some(all_of(84)));
}

// One divisor of eight is 0, and one count of eight is -1.
#[test]
fn assignments_that_may_fail(rt: HostRuntime) {
    assert!(rt; assigned(rt.alloc(), &["/=", "%=", "<<=", ">>="]) == Some(48 * 112));
}
