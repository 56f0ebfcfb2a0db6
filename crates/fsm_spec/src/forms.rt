//! The forms of the lines of a machine file. Each function reads one line; `None` says that the line breaks
//! its form.
#![tactic(auto)]

ghost use Rattle.std.specs.Prelude.{◌≡◌, IfOk, IfSome, IsTrue, None, Some, if◌then◌else◌, option_map, true};
ghost use Rattle.fsm_spec.specs.Words.{is_among, is_word, words};
ghost use Rattle.fsm_spec.specs.Forms.{after, are_states, goal_in, head_in, is_function, name_in, operation_in, returns_in, states_in, target_in, targets_in};

use crate::words::{Words, is_word, number_of};
use crate::{List, Operation, OutOfMemory, Returns, Word};
use std::alloc::Global;

/// How many states a machine has at most.
const MAX_STATES: usize = 8;

/// How many states it has at least.
const MIN_STATES: usize = 2;

/// Functions whose meaning no machine changes: all built-in ones but those that lock, unlock and try to lock.
const BUILT_IN: [&[u8]; 12] = [
    b"malloc",
    b"kmalloc",
    b"calloc",
    b"kzalloc",
    b"free",
    b"kfree",
    b"exit",
    b"_exit",
    b"abort",
    b"panic",
    b"__assert_fail",
    b"__builtin_expect",
];

/// Line 1: the name of the machine.
pub(crate) fn name(alloc: Global, line: &[u8]) -> Result<Option<Word>, OutOfMemory>
    ensures { IfOk result (λ name. name ≡ name_in (words line.now)) }
{
    let Some(name) = word_of_name(line) else {
        return Ok(None);
    };
    Ok(Some(Word::of(alloc, name)?))
}

/// The word behind `machine`, where it is the last.
#[tactic(auto, unfolding(crate::specs::Forms::name_in))]
fn word_of_name(line: &[u8]) -> Option<&[u8]>
    ensures gives { option_map (λ name. name.now) result ≡ name_in (words line.now) }
    ensures word { IfSome result (λ name. is_word name.now ≡ true) }
{
    let mut words = Words::of(line);
    let key = words.next()?;
    let name = words.next()?;
    if words.next().is_some() {
        return None;
    }
    if key == b"machine".as_slice() && is_word(name) {
        Some(name)
    } else {
        None
    }
}

/// Line 2: the names of the states.
#[tactic(auto, unfolding(crate::specs::Forms::states_in))]
pub(crate) fn states(alloc: Global, line: &[u8]) -> Result<Option<List<Word>>, OutOfMemory>
    ensures { IfOk result (λ states. states ≡ states_in (words line.now)) }
{
    let mut words = Words::of(line);
    let Some(key) = words.next() else {
        return Ok(None);
    };
    if key != b"states".as_slice() {
        return Ok(None);
    }
    state_words(alloc, words)
}

/// The state words: two to eight, all different.
fn state_words(alloc: Global, mut words: Words<'_>) -> Result<Option<List<Word>>, OutOfMemory>
    ensures { IfOk result (λ states. states ≡ (if are_states words.entry then Some words.entry else None)) }
{
    let mut states = List::new(alloc);
    while let Some(word) = words.next() {
        if states.len() == MAX_STATES || !is_word(word) || is_among(word, states.as_slice()) {
            return Ok(None);
        }
        states.push(Word::of(alloc, word)?)?;
    }
    if states.len() < MIN_STATES {
        return Ok(None);
    }
    Ok(Some(states))
}

/// Whether one of the words has these bytes.
fn is_among(bytes: &[u8], words: &[Word]) -> bool
    ensures { result ≡ is_among bytes.now words.now }
{
    words.iter().any(|word| word.is(bytes))
}

/// Whether a word may be the function of an operation.
#[tactic(auto, unfolding(crate::specs::Forms::is_function))]
fn is_function(word: &[u8]) -> bool
    ensures gives { result ≡ is_function word.now }
    ensures word { IsTrue result → is_word word.now ≡ true }
{
    is_word(word) && !BUILT_IN.contains(&word)
}

/// What the function returns.
#[tactic(auto, unfolding(crate::specs::Forms::returns_in))]
fn returns(word: &[u8]) -> Option<Returns>
    ensures { result ≡ returns_in word.now }
{
    if word == b"void".as_slice() {
        Some(Returns::Nothing)
    } else if word == b"zero".as_slice() {
        Some(Returns::Zero)
    } else {
        None
    }
}

/// The bytes behind a front, where they begin with it.
fn after<'a>(front: &[u8], bytes: &'a [u8]) -> Option<&'a [u8]>
    ensures { option_map (λ x. x.now) result ≡ after front.now bytes.now }
{
    bytes.strip_prefix(front)
}

/// The state of this name, none for `!`.
#[tactic(auto, unfolding(crate::specs::Forms::goal_in))]
fn goal(states: &[Word], goal: &[u8]) -> Option<Option<usize>>
    ensures { result ≡ goal_in states.now goal.now }
{
    if goal == b"!".as_slice() {
        return Some(None);
    }
    let state = number_of(goal, states)?;
    Some(Some(state))
}

/// The target of a state S, of a word `S>T`.
#[tactic(auto, unfolding(crate::specs::Forms::target_in))]
fn target(states: &[Word], state: &Word, word: &[u8]) -> Option<Option<usize>>
    ensures { result ≡ target_in states.now state.now word.now }
{
    let rest = after(state.as_str().as_bytes(), word)?;
    let rest = after(b">", rest)?;
    goal(states, rest)
}

/// The targets of all states, one word for each.
fn targets(
    alloc: Global,
    states: &[Word],
    mut words: Words<'_>,
) -> Result<Option<List<Option<usize>>>, OutOfMemory>
    ensures { IfOk result (λ targets. targets ≡ targets_in states.now states.now words.entry) }
{
    let mut targets = List::new(alloc);
    for state in states {
        let Some(word) = words.next() else {
            return Ok(None);
        };
        let Some(target) = target(states, state, word) else {
            return Ok(None);
        };
        targets.push(target)?;
    }
    if words.next().is_some() {
        return Ok(None);
    }
    Ok(Some(targets))
}

/// What stands before the targets: the function, what it returns, and the words behind.
#[tactic(auto, unfolding(crate::specs::Forms::head_in))]
fn head(mut words: Words<'_>) -> Option<(&[u8], Returns, Words<'_>)>
    ensures gives { option_map (λ h. (h.0.now, h.1, h.2)) result ≡ head_in words.entry }
    ensures word { IfSome result (λ h. is_word h.0.now ≡ true) }
{
    let key = words.next()?;
    let function = words.next()?;
    let result_word = words.next()?;
    if key != b"op".as_slice() || !is_function(function) {
        return None;
    }
    let returns = returns(result_word)?;
    Some((function, returns, words))
}

/// A line behind line 2: one operation.
#[tactic(auto, unfolding(crate::specs::Forms::operation_in))]
pub(crate) fn operation(
    alloc: Global,
    states: &[Word],
    line: &[u8],
) -> Result<Option<Operation>, OutOfMemory>
    ensures { IfOk result (λ operation. operation ≡ operation_in states.now (words line.now)) }
{
    let Some((function, returns, words)) = head(Words::of(line)) else {
        return Ok(None);
    };
    let Some(targets) = targets(alloc, states, words)? else {
        return Ok(None);
    };
    let function = Word::of(alloc, function)?;
    Ok(Some(Operation {
        function,
        returns,
        targets,
    }))
}
