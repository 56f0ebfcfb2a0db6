//! How many locations and bits small functions have, counted by hand, and the two limits of a function.

use crate::known::writes_only;
use crate::runs::checked;
use places::{PlaceAnswer, places};
use sc_base::LimitKind;
use sc_typed::Program;
use std::alloc::Global;
use sum_rows::Verdict;

/// A file, how often a loop of its function turns, how far is reached from a parameter, and how many locations and bits
/// the function has.
const ROWS: &[(&str, u32, u32, usize, usize)] = &[
    // Both, what `o` points to with its state, and behind it a `char` with its state.
    ("void m(char**o,_Bool c){}", 2, 2, 4, 13),
    // In two turns: two calls, each with an object and one bit.
    ("void f(void){while(1)malloc(1);}", 2, 2, 2, 2),
    // Three structs behind the parameter, each with its two members, and then a stub.
    (
        "struct s{struct s*n;int v;};void f(struct s*p){p->n->n->v;}",
        2,
        3,
        11,
        109,
    ),
];

// Whether the first function of a program has so many.
fn is_laid(
    alloc: Global,
    program: &Program,
    depth: u32,
    reach: u32,
    locations: usize,
    bits: usize,
) -> bool {
    match places(alloc, program, 0, &[], &[], depth, reach) {
        Ok(laid) => laid.count() == locations && laid.choice_len() == bits,
        Err(_) => false,
    }
}

#[test]
fn functions_have_locations_and_bits(rt: HostRuntime) {
    for &(text, depth, reach, locations, bits) in ROWS {
        let program = checked(rt.alloc(), text);
        let holds = matches!(&program, Some(program)
            if is_laid(rt.alloc(), program, depth, reach, locations, bits));
        assert!(rt; holds, "{text}");
    }
}

// Whether there is one place of a call, and a call in each turn.
fn has_two_calls(alloc: Global, program: &Program) -> bool {
    match places(alloc, program, 0, &[], &[], 2, 2) {
        Ok(laid) => laid.sites.len() == 1 && laid.occurrences.len() == 2,
        Err(_) => false,
    }
}

#[test]
fn a_call_in_each_turn(rt: HostRuntime) {
    let program = checked(rt.alloc(), ROWS[1].0);
    assert!(rt; matches!(&program, Some(program) if has_two_calls(rt.alloc(), program)));
}

/// A call of a function that writes the pointer behind its parameter.
const GIVEN: &str = "void mk(_Bool**o){}void user(_Bool c){_Bool*p;mk(&p);}";

// Whether the second function has so many locations, bits and objects that are given.
fn is_given(alloc: Global, program: &Program, verdicts: &[Verdict]) -> bool {
    match places(alloc, program, 1, &[0], verdicts, 2, 2) {
        Ok(laid) => laid.count() == 3 && laid.choice_len() == 4 && laid.spots.len() == 1,
        Err(_) => false,
    }
}

// The parameter, the local, and the object that `p` may then point to; one bit of `c`, two of what becomes of `p`, and
// one of the object.
#[test]
fn a_known_call_that_gives_through_a_parameter(rt: HostRuntime) {
    let program = checked(rt.alloc(), GIVEN);
    let verdicts = writes_only(rt.alloc());
    let holds = matches!((&program, &verdicts), (Some(program), Ok(verdicts))
        if is_given(rt.alloc(), program, verdicts.as_slice()));
    assert!(rt; holds);
}

/// A file, how often a loop of its function turns, of what the function has too much, and the first count that is.
const LIMITS: &[(&str, u32, LimitKind, u64)] = &[
    // 1 + 8 + 64 + 512 locations.
    (
        "void f(void){int a[8][8][8];}",
        2,
        LimitKind::Locations,
        257,
    ),
    // Sixteen loops in one another, of eight turns each: more than 8^15 nodes.
    (
        "void f(void){while(1)while(1)while(1)while(1)while(1)while(1)while(1)while(1)\
         while(1)while(1)while(1)while(1)while(1)while(1)while(1)while(1);}",
        8,
        LimitKind::Nodes,
        4097,
    ),
];

// Whether the first function passes that limit.
fn is_limited(alloc: Global, program: &Program, depth: u32, kind: LimitKind, count: u64) -> bool {
    match places(alloc, program, 0, &[], &[], depth, 2) {
        Ok(_) => false,
        Err(answer) => answer == PlaceAnswer::Limit(kind, count),
    }
}

#[test]
fn functions_that_pass_a_limit(rt: HostRuntime) {
    for &(text, depth, kind, count) in LIMITS {
        let program = checked(rt.alloc(), text);
        let holds = matches!(&program, Some(program)
            if is_limited(rt.alloc(), program, depth, kind, count));
        assert!(rt; holds, "{text}");
    }
}
