// The rows of a run.

ghost use Rattle.std.specs.Prelude.{◌≡◌, IfOk};
ghost use Rattle.sum_rows.specs.declared.row.State.TheVariants as names;
ghost use Rattle.sum_rows.specs.declared.row.Gives.TheVariants as gifts;
ghost use Rattle.sc_world.specs.Known as known;
ghost use Rattle.sc_world.specs.Shows as spec;
ghost use Rattle.sc_world.specs.Tree as tree;
ghost use Rattle.sc_world.specs.View.{type};
ghost use Rattle.run_world.specs.Seen as world;
ghost use Rattle.run_answers.specs.Seen as seen;

use crate::ended::{errs_at, exits, result_value};
use crate::entry::{given, is_given, is_met, param_object, state_before};
use crate::objects::{fate, kind_of_result, out_fate};
use crate::over::{Over, state_now};
use run_world::Value;
use sc_base::OutOfMemory;
use sc_gather::{is_integer, is_pointer};
use sc_tree::ctype::CType;
use std::alloc::Global;
use sum_rows::{Gives, Row, State};

fn same_state(a: State, b: State) -> bool
    ensures { result ≡ known.same_state a b }
{
    match (a, b) {
        (State::Nil, State::Nil)
        | (State::Bad, State::Bad)
        | (State::Held, State::Held)
        | (State::Escaped, State::Escaped)
        | (State::Freed, State::Freed)
        | (State::Null, State::Null)
        | (State::Fresh, State::Fresh)
        | (State::Other, State::Other)
        | (State::Same, State::Same) => true,
        (State::At(m), State::At(n)) => m == n,
        _ => false,
    }
}

// Whether it is the state of a machine with that number.
fn is_numbered(state: State, number: u64) -> bool
    ensures { result ≡ known.same_state state (names.At number) }
{
    match state {
        State::At(m) => u64::from(m) == number,
        State::Nil
        | State::Bad
        | State::Held
        | State::Escaped
        | State::Freed
        | State::Null
        | State::Fresh
        | State::Other
        | State::Same => false,
    }
}

fn same_gives(a: Gives, b: Gives) -> bool
    ensures { result ≡ known.same_gives a b }
{
    match (a, b) {
        (Gives::Nothing, Gives::Nothing)
        | (Gives::Zero, Gives::Zero)
        | (Gives::NotZero, Gives::NotZero) => true,
        _ => false,
    }
}

// Whether a row is this one.
fn is_row(row: Row, given: u32, before: State, gives: Gives, after: State) -> bool
    ensures { result ≡ known.same_row row (known.row given before gives after) }
{
    u32::from(row.given) == given
        && (same_state(row.before, before)
            && (same_gives(row.result, gives) && same_state(row.after, after)))
}

// Whether a row is this one, of states of a machine.
fn is_change(row: Row, given: u32, before: u64, gives: Gives, after: u64) -> bool
    ensures { result ≡ known.same_row row (known.row given (names.At before) gives (names.At after)) }
{
    u32::from(row.given) == given
        && (is_numbered(row.before, before)
            && (same_gives(row.result, gives) && is_numbered(row.after, after)))
}

// Whether a row is that of an error.
fn is_error(row: Row, given: u32, before: u64) -> bool
    ensures { result ≡ known.same_row row (known.row given (names.At before) gifts.Nothing names.Bad) }
{
    u32::from(row.given) == given
        && (is_numbered(row.before, before)
            && (same_gives(row.result, Gives::Nothing) && same_state(row.after, State::Bad)))
}

// What a value of that type is given as.
fn gives_of(t: &CType, value: Value) -> Gives
    ensures { result ≡ spec.gives_of (type t.now) (world.cell value) }
{
    if !(is_integer(t) || is_pointer(t)) {
        Gives::Nothing
    } else if value.is_true() {
        Gives::NotZero
    } else {
        Gives::Zero
    }
}

// The result of the run.
#[tactic(auto, unfolding(crate::specs::Seen::over, run_world::specs::Seen::env, layout_base::specs::Seen::ground_of, sc_gather::specs::Seen::source_of, sc_world::specs::Programs::source_by))]
fn gives(over: &Over) -> Gives
    ensures { result ≡ spec.result (seen.over over.now) }
{
    match over.here.ground.here.function() {
        None => Gives::Nothing,
        Some(function) => gives_of(&function.result, result_value(over)),
    }
}

// Whether the function gives a pointer.
#[tactic(auto, unfolding(crate::specs::Seen::over, run_world::specs::Seen::env, layout_base::specs::Seen::ground_of, sc_gather::specs::Seen::source_of, sc_world::specs::Programs::source_by))]
fn gives_pointer(over: &Over) -> bool
    ensures { result ≡ tree.is_pointer (seen.over over.now).source.result }
{
    match over.here.ground.here.function() {
        None => false,
        Some(function) => is_pointer(&function.result),
    }
}

// The kind of the result, where that is a pointer.
#[tactic(auto, using(crate::proofs::Fates::object_steps))]
fn result_kind(alloc: Global, over: &Over) -> Result<State, OutOfMemory>
    requires { seen.HasFew over.now }
    ensures { IfOk result (λ k. k ≡ seen.result_kind (seen.over over.now)) }
{
    if gives_pointer(over) {
        kind_of_result(alloc, over)
    } else {
        Ok(State::Nil)
    }
}

/// Whether the run has that row of its end.
pub fn has_exit_row(alloc: Global, over: &Over, row: Row) -> Result<bool, OutOfMemory>
    requires { seen.HasFew over.now }
    ensures { IfOk result (λ b. b ≡ seen.has_exit_row (seen.over over.now) row) }
{
    if !exits(over) {
        return Ok(false);
    }
    let given = given(over)?;
    let kind = result_kind(alloc, over)?;
    Ok(is_row(row, given, State::Nil, gives(over), kind))
}

/// Whether the run has that row of a location.
pub fn has_lock_row(over: &Over, at: u32, row: Row) -> Result<bool, OutOfMemory>
    requires { seen.HasFew over.now }
    ensures { IfOk result (λ b. b ≡ seen.has_lock_row (seen.over over.now) at row) }
{
    if !is_met(over, at) {
        return Ok(false);
    }
    let given = given(over)?;
    let before = state_before(over, at);
    Ok(
        (exits(over) && is_change(row, given, before, gives(over), state_now(over, at)))
            || (errs_at(over, at) && is_error(row, given, before)),
    )
}

/// Whether the run comes to its end, and what a parameter points to is freed or escaped then.
pub fn has_changed(alloc: Global, over: &Over, n: u32) -> Result<bool, OutOfMemory>
    requires { seen.HasFew over.now }
    ensures { IfOk result (λ b. b ≡ seen.has_changed (seen.over over.now) n) }
{
    if !exits(over) {
        return Ok(false);
    }
    let fate = fate(alloc, over, param_object(over, n))?;
    Ok(matches!(fate, State::Freed | State::Escaped))
}

/// Whether the run comes to its end with that row of what a parameter points to.
pub fn has_param_row(alloc: Global, over: &Over, n: u32, row: Row) -> Result<bool, OutOfMemory>
    requires { seen.HasFew over.now }
    ensures { IfOk result (λ b. b ≡ seen.has_param_row (seen.over over.now) n row) }
{
    if !exits(over) || !is_given(over, n) {
        return Ok(false);
    }
    let given = given(over)?;
    let fate = fate(alloc, over, param_object(over, n))?;
    Ok(is_row(row, given, State::Nil, gives(over), fate))
}

/// Whether the run comes to its end with that row of the pointer that a parameter points to.
pub fn has_out_row(alloc: Global, over: &Over, n: u32, row: Row) -> Result<bool, OutOfMemory>
    requires { seen.HasFew over.now }
    ensures { IfOk result (λ b. b ≡ seen.has_out_row (seen.over over.now) n row) }
{
    if !exits(over) || !is_given(over, n) {
        return Ok(false);
    }
    let given = given(over)?;
    let fate = out_fate(alloc, over, param_object(over, n))?;
    Ok(is_row(row, given, State::Nil, gives(over), fate))
}
