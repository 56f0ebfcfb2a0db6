// A graph walked beside the interpreter.

use crate::setting::{Given, checked, context, laid_out, machine, nothing, reserved};
use crate::walk::{Stop, Walk};
use choice_search::step;
use run_world::{Ended, Value};
use sc_base::OutOfMemory;
use sc_flow::{Flow, unroll};
use sc_interp::{Machine, Outcome};
use sc_typed::Program;
use std::alloc::Global;
use std::process::Abort;
use sum_rows::Verdict;

/// No function here has more bits.
const MOST_BITS: usize = 16;

/// How many choices a function has, and on how many of them it comes to its end.
pub type Tally = (u64, u64);

// How a walk ends, in the words of a run; none of a walk that went wrong.
fn outcome_of(walked: Result<Value, Stop>) -> Option<Outcome> {
    match walked {
        Ok(value) => Some(Outcome::Exit(value)),
        Err(Stop::Ended(Ended::Error(at))) => Some(Outcome::Error(at)),
        Err(Stop::Ended(Ended::Inner(at))) => Some(Outcome::Inner(at)),
        Err(Stop::Ended(Ended::Aside(reason))) => Some(Outcome::Aside(reason)),
        Err(Stop::Wrong | Stop::Memory) => None,
    }
}

// On a choice walk and run have to end alike, and to leave one store and one trace. Answers whether they come to the end.
fn agree<'p>(
    rt: &impl Abort,
    alloc: Global,
    runs: &mut Machine<'p, '_, '_>,
    flow: &Flow<'p>,
    choice: &[bool],
    number: u64,
) -> Result<bool, OutOfMemory> {
    let outcome = runs.run(choice);
    let mut walk = Walk::begin(alloc, runs.given, runs.places, choice, flow)?;
    let walked = outcome_of(walk.walk(flow));
    let holds = walked == Some(outcome)
        && walk.world.slots.as_slice() == runs.world.slots.as_slice()
        && walk.world.trace.as_slice() == runs.trace();
    assert!(rt; holds, "choice {number}");
    Ok(matches!(outcome, Outcome::Exit(_)))
}

// So many bits, none of them set.
fn none_set(alloc: Global, count: usize) -> Result<Vec<bool>, OutOfMemory> {
    let mut bits = Vec::new(alloc);
    for _bit in 0..count {
        bits.push(false)?;
    }
    Ok(bits)
}

// The same on every choice; none where the function has more bits than any here.
fn all_agree<'p>(
    rt: &impl Abort,
    alloc: Global,
    runs: &mut Machine<'p, '_, '_>,
    flow: &Flow<'p>,
) -> Result<Tally, OutOfMemory> {
    let bits = runs.places.choice_len();
    if bits > MOST_BITS {
        return Ok((0, 0));
    }
    let mut choice = none_set(alloc, bits)?;
    let choices = 1u64 << bits;
    let mut exits = 0u64;
    for number in 0..choices {
        if agree(rt, alloc, runs, flow, choice.as_slice(), number)? {
            exits = exits.saturating_add(1);
        }
        step(&mut choice);
    }
    Ok((choices, exits))
}

// The same of a function whose loops turn so often.
fn beside(rt: &impl Abort, alloc: Global, given: Given, depth: u32) -> Option<Tally> {
    let Ok(table) = machine(alloc) else {
        return None;
    };
    let here = context(given, &table, depth);
    let Ok(laid) = laid_out(alloc, given, depth) else {
        return None;
    };
    let found = nothing(alloc);
    let Ok(flow) = unroll(alloc, &here) else {
        return None;
    };
    match reserved(alloc, &here, &found, &laid) {
        Ok(mut runs) => all_agree(rt, alloc, &mut runs, &flow).ok(),
        Err(_) => None,
    }
}

// On every choice of a function, walk and run agree, and the tallies are those at depth 1, 2 and 3.
fn agrees(rt: &impl Abort, alloc: Global, given: Given, tallies: [Tally; 3]) -> bool {
    let [first, second, third] = tallies;
    beside(rt, alloc, given, 1) == Some(first)
        && beside(rt, alloc, given, 2) == Some(second)
        && beside(rt, alloc, given, 3) == Some(third)
}

// The same of the first function of a text, which keeps no callee.
fn first_beside(rt: &impl Abort, alloc: Global, text: &str, tallies: [Tally; 3]) -> bool {
    match checked(alloc, text) {
        Some(program) => {
            let given = Given {
                program: &program,
                function: 0,
                kept: &[],
                verdicts: &[],
            };
            agrees(rt, alloc, given, tallies)
        }
        None => false,
    }
}

/// The same of the first function of each text.
pub fn all_beside(rt: &impl Abort, alloc: Global, rows: &[(&str, [Tally; 3])]) {
    for &(text, tallies) in rows {
        assert!(rt; first_beside(rt, alloc, text, tallies), "{text}");
    }
}

/// The same of the second function of a text, which keeps the first, with that verdict.
pub fn second_beside(
    rt: &impl Abort,
    alloc: Global,
    text: &str,
    verdict: Result<Verdict, OutOfMemory>,
    tallies: [Tally; 3],
) -> bool {
    match (checked(alloc, text), verdict) {
        (Some(program), Ok(verdict)) => keeps_the_first(rt, alloc, &program, verdict, tallies),
        _ => false,
    }
}

fn keeps_the_first(
    rt: &impl Abort,
    alloc: Global,
    program: &Program,
    verdict: Verdict,
    tallies: [Tally; 3],
) -> bool {
    let Ok(verdicts) = vec![in alloc; verdict] else {
        return false;
    };
    let given = Given {
        program,
        function: 1,
        kept: &[0],
        verdicts: verdicts.as_slice(),
    };
    agrees(rt, alloc, given, tallies)
}

// Sets these bits, as far as there are so many.
fn set_bits(choice: &mut [bool], set: &[usize]) {
    for at in set {
        if *at < choice.len() {
            choice[*at] = true;
        }
    }
}

// The same of one choice: whether the function comes to its end.
fn beside_on(rt: &impl Abort, alloc: Global, given: Given, set: &[usize]) -> Option<bool> {
    let Ok(table) = machine(alloc) else {
        return None;
    };
    let here = context(given, &table, 2);
    let Ok(laid) = laid_out(alloc, given, 2) else {
        return None;
    };
    let found = nothing(alloc);
    let Ok(flow) = unroll(alloc, &here) else {
        return None;
    };
    let Ok(mut choice) = none_set(alloc, laid.choice_len()) else {
        return None;
    };
    set_bits(choice.as_mut_slice(), set);
    match reserved(alloc, &here, &found, &laid) {
        Ok(mut runs) => agree(rt, alloc, &mut runs, &flow, choice.as_slice(), 0).ok(),
        Err(_) => None,
    }
}

/// On the choice with these bits walk and run of the first function of a text agree. Answers whether they come to its
/// end.
pub fn first_agrees_on(rt: &impl Abort, alloc: Global, text: &str, set: &[usize]) -> Option<bool> {
    let program = checked(alloc, text)?;
    let given = Given {
        program: &program,
        function: 0,
        kept: &[],
        verdicts: &[],
    };
    beside_on(rt, alloc, given, set)
}
