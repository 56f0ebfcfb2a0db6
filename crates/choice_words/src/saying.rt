// What a choice says of each thing.

ghost use Rattle.std.specs.Prelude.{◌≡◌, ◌+◌, ◌≤◌, ◌<◌, ◌++◌, min, IfOk, map};
ghost use Rattle.fsm_spec.specs.Table as table;
ghost use Rattle.sc_world.specs.World as world;
ghost use Rattle.choice_words.specs.Words as spec;
ghost use Rattle.choice_words.specs.declared.sayings.Word.TheVariants as words;

use crate::sayings::{Said, Word};
use crate::subjects::{Reading, Thing};
use run_entry::{bit_at, number_at};
use sc_base::{List, OutOfMemory};
use sc_types::signed;
use std::alloc::Global;

// How many bits a state takes, of so many states.
fn state_bits(states: usize) -> u32
    ensures value { result ≡ table.bits_of_states states }
    ensures few { result ≤ 3 }
{
    if states <= 2 {
        1
    } else if states <= 4 {
        2
    } else {
        3
    }
}

// The state that a number names, of so many states.
fn named_state(states: usize, number: u64) -> u64
    ensures { result ≡ table.state_of_number states number }
{
    let states = states as u64;
    if number < states {
        number
    } else {
        states.saturating_sub(1)
    }
}

// A number of so many bits, as C has it.
fn number_word(choice: &[bool], bit: u32, width: u32, sign: bool) -> Word
    ensures { result ≡ spec.number_word choice.now bit width sign }
{
    let width = width.min(64);
    let number = number_at(choice, bit, width);
    Word::Number(if sign {
        signed(width, number)
    } else {
        i128::from(number)
    })
}

// The state that so many bits name.
fn state_word(states: usize, choice: &[bool], bit: u32, width: u32) -> Word
    requires { width ≤ 64 }
    ensures { result ≡ spec.state_word states choice.now bit width }
{
    Word::State(named_state(states, number_at(choice, bit, width)))
}

fn object(at: Option<u32>) -> Word
    ensures { result ≡ spec.to_object words.Object at }
{
    match at {
        Some(at) => Word::Object(at),
        None => Word::Null,
    }
}

fn fresh(at: Option<u32>) -> Word
    ensures { result ≡ spec.to_object words.Fresh at }
{
    match at {
        Some(at) => Word::Fresh(at),
        None => Word::Null,
    }
}

fn other(at: Option<u32>) -> Word
    ensures { result ≡ spec.to_object words.Other at }
{
    match at {
        Some(at) => Word::Other(at),
        None => Word::Null,
    }
}

// The pointer that a known call gives.
#[tactic(auto, using(crate::proofs::Numbers::given_many))]
fn given(object: Option<u32>, number: u64) -> Word
    ensures { result ≡ spec.given object number }
{
    match number {
        0 => Word::Null,
        1 => fresh(object),
        2 => other(object),
        _ => Word::NoRow,
    }
}

// What becomes of a parameter's object.
#[tactic(auto, using(crate::proofs::Numbers::fate_many))]
fn fate(number: u64) -> Word
    ensures { result ≡ spec.fate number }
{
    match number {
        0 => Word::Held,
        1 => Word::Escaped,
        2 => Word::Freed,
        _ => Word::NoRow,
    }
}

// What the pointer that a parameter points to is then.
#[tactic(auto, using(crate::proofs::Numbers::pointed_many))]
fn pointed(object: Option<u32>, number: u64) -> Word
    ensures { result ≡ spec.pointed object number }
{
    match number {
        0 => Word::Null,
        1 => fresh(object),
        2 => other(object),
        _ => Word::Same,
    }
}

fn pointer_word(choice: &[bool], bit: u32, at: Option<u32>) -> Word
    ensures { result ≡ spec.pointer_word choice.now bit at }
{
    if bit_at(choice, bit as usize) {
        object(at)
    } else {
        Word::Null
    }
}

fn success_word(choice: &[bool], bit: u32) -> Word
    ensures { result ≡ spec.success_word choice.now bit }
{
    if bit_at(choice, bit as usize) {
        Word::Succeeds
    } else {
        Word::Fails
    }
}

// The state afterwards, or that the operation errs.
fn after_word(states: usize, choice: &[bool], bit: u32) -> Word
    ensures { result ≡ spec.after_word states choice.now bit }
{
    if bit_at(choice, bit as usize) {
        Word::Errs
    } else {
        state_word(states, choice, bit, 1 + state_bits(states))
    }
}

// What is said of a thing.
fn word_of(states: usize, choice: &[bool], bit: u32, reading: Reading) -> Word
    ensures { result ≡ spec.word_of states choice.now bit reading }
{
    match reading {
        Reading::Number { width, signed } => number_word(choice, bit, width, signed),
        Reading::Pointer(object) => pointer_word(choice, bit, object),
        Reading::Success => success_word(choice, bit),
        Reading::State => state_word(states, choice, bit, state_bits(states)),
        Reading::StateAfter => after_word(states, choice, bit),
        Reading::Given(object) => given(object, number_at(choice, bit, 2)),
        Reading::Fate => fate(number_at(choice, bit, 2)),
        Reading::Pointed(object) => pointed(object, number_at(choice, bit, 2)),
    }
}

fn say(states: usize, choice: &[bool], thing: Thing) -> Said
    ensures { result ≡ spec.say states choice.now thing }
{
    Said {
        of: thing.of,
        word: word_of(states, choice, thing.bit, thing.reading),
    }
}

/// What a choice says of some things, in their order, where the machine has so many states. The time is linear in the bits
/// that are read.
///
/// # Errors
///
/// `OutOfMemory` where memory is refused.
#[tactic(auto, unfolding(crate::specs::Words::said))]
pub fn said(
    alloc: Global,
    states: usize,
    things: &[Thing],
    choice: &[bool],
) -> Result<List<Said>, OutOfMemory>
    ensures { IfOk result (λ l. l ≡ spec.said states choice.now things.now) }
{
    let mut said = Vec::new(alloc);
    for thing in things {
        said.push(say(states, choice, *thing))?;
    }
    Ok(List::from_vec(said))
}
