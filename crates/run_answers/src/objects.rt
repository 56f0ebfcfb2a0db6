// What became of an object.

ghost use Rattle.std.specs.Prelude.{◌≡◌, ◌+◌, IfOk};
ghost use Rattle.sc_world.specs.Layout as layouts;
ghost use Rattle.sc_world.specs.Paths as paths;
ghost use Rattle.sc_world.specs.Shows as spec;
ghost use Rattle.run_world.specs.Seen as world;
ghost use Rattle.run_answers.specs.Seen as seen;

use crate::ended::{result_object, result_value};
use crate::holders::{Beside, held};
use crate::over::{Over, count, has, location_at, object_of, root_at, value_now};
use crate::walks::{is_among, reached};
use location_texts::call_pos;
use run_store::Flag;
use run_world::Value;
use sc_base::{OutOfMemory, Pos};
use sc_world::Origin;
use std::alloc::Global;
use sum_rows::State;

// Whether a walk leads to an object from those that the holders which count hold, or from the first one.
fn is_reached(
    alloc: Global,
    over: &Over,
    first: Option<u32>,
    beside: Beside,
    object: u32,
) -> Result<bool, OutOfMemory>
    requires { seen.HasFew over.now }
    ensures { IfOk result (λ b. b ≡ seen.is_reached (seen.over over.now) first beside object) }
{
    let held = held(alloc, over, first, beside)?;
    let objects = reached(alloc, over, held)?;
    Ok(is_among(objects.as_slice(), object))
}

// Whether others may know an object.
#[tactic(auto, using(crate::proofs::Fates::object_steps))]
fn is_escaped(alloc: Global, over: &Over, object: u32) -> Result<bool, OutOfMemory>
    requires { seen.HasFew over.now }
    ensures { IfOk result (λ b. b ≡ seen.is_escaped (seen.over over.now) object) }
{
    if has(over, Flag::Escaped, object) {
        return Ok(true);
    }
    is_reached(
        alloc,
        over,
        result_object(over),
        Beside::Object(object),
        object,
    )
}

// Whether a call gave the object, which is neither freed nor marked as escaped.
fn is_own_at(over: &Over, at: u32) -> bool
    ensures { result ≡ spec.is_own_at (seen.over over.now) (at + 1) }
{
    root_at(over, at) == at
        && (has(over, Flag::Allocated, at)
            && (!has(over, Flag::Freed, at) && !has(over, Flag::Escaped, at)))
}

// Whether a pointer points to the whole of such an object.
#[tactic(auto, unfolding(crate::specs::Seen::is_own))]
fn is_own(over: &Over, value: Value) -> bool
    ensures { result ≡ seen.is_own (seen.over over.now) (world.cell value) }
{
    match value.location() {
        None => false,
        Some(at) => is_own_at(over, at),
    }
}

// Whether a walk leads to an object, if there is one.
fn is_reached_if(
    alloc: Global,
    over: &Over,
    first: Option<u32>,
    beside: Beside,
    object: Option<u32>,
) -> Result<bool, OutOfMemory>
    requires { seen.HasFew over.now }
    ensures { IfOk result (λ b. b ≡ seen.is_reached_if (seen.over over.now) first beside object) }
{
    match object {
        None => Ok(false),
        Some(n) => is_reached(alloc, over, first, beside, n),
    }
}

// The kind of a pointer: fresh where nothing that counts leads to its object.
#[tactic(auto, unfolding(crate::specs::Seen::kind))]
fn kind(
    alloc: Global,
    over: &Over,
    first: Option<u32>,
    beside: Beside,
    value: Value,
) -> Result<State, OutOfMemory>
    requires { seen.HasFew over.now }
    ensures { IfOk result (λ k. k ≡ seen.kind (seen.over over.now) first beside (world.cell value)) }
{
    if !value.is_true() {
        return Ok(State::Null);
    }
    if !is_own(over, value) {
        return Ok(State::Other);
    }
    if is_reached_if(alloc, over, first, beside, object_of(over, value))? {
        Ok(State::Other)
    } else {
        Ok(State::Fresh)
    }
}

/// The kind of the pointer that the function gives.
#[tactic(auto, using(crate::proofs::Fates::object_steps))]
pub fn kind_of_result(alloc: Global, over: &Over) -> Result<State, OutOfMemory>
    requires { seen.HasFew over.now }
    ensures { IfOk result (λ k. k ≡ seen.kind_of_result (seen.over over.now)) }
{
    kind(alloc, over, None, Beside::Nothing, result_value(over))
}

// The kind of the pointer in the cell of a location.
#[tactic(auto, using(crate::proofs::Fates::object_steps))]
fn kind_of_cell(alloc: Global, over: &Over, at: u32) -> Result<State, OutOfMemory>
    requires { seen.HasFew over.now }
    ensures { IfOk result (λ k. k ≡ seen.kind_of_cell (seen.over over.now) at) }
{
    kind(
        alloc,
        over,
        result_object(over),
        Beside::Cell(at),
        value_now(over, at),
    )
}

/// What became of an object that the caller gave.
#[tactic(auto, using(crate::proofs::Fates::object_steps))]
pub fn fate(alloc: Global, over: &Over, at: u32) -> Result<State, OutOfMemory>
    requires { seen.HasFew over.now }
    ensures { IfOk result (λ k. k ≡ seen.fate (seen.over over.now) at) }
{
    if has(over, Flag::Freed, at) {
        return Ok(State::Freed);
    }
    if is_escaped(alloc, over, at)? {
        Ok(State::Escaped)
    } else {
        Ok(State::Held)
    }
}

/// What became of a pointer that the caller gave a pointer to.
#[tactic(auto, using(crate::proofs::Fates::object_steps))]
pub fn out_fate(alloc: Global, over: &Over, at: u32) -> Result<State, OutOfMemory>
    requires { seen.HasFew over.now }
    ensures { IfOk result (λ k. k ≡ seen.out_fate (seen.over over.now) at) }
{
    if !has(over, Flag::Written, at) || has(over, Flag::Freed, root_at(over, at)) {
        return Ok(State::Same);
    }
    kind_of_cell(alloc, over, at)
}

// Whether a location is lost: allocated, and neither freed nor escaped.
#[tactic(auto, using(crate::proofs::Fates::object_steps))]
fn is_lost(alloc: Global, over: &Over, at: u32) -> Result<bool, OutOfMemory>
    requires { seen.HasFew over.now }
    ensures { IfOk result (λ b. b ≡ seen.is_lost (seen.over over.now) at) }
{
    if !has(over, Flag::Allocated, at) || has(over, Flag::Freed, at) {
        return Ok(false);
    }
    let escapes = is_escaped(alloc, over, at)?;
    Ok(!escapes)
}

// Whether places are one.
fn same_pos(p: Pos, q: Pos) -> bool
    ensures { result ≡ layouts.same_pos p q }
{
    p.file == q.file && (p.line == q.line && p.col == q.col)
}

// The place of a call that gives an object.
#[tactic(auto, unfolding(crate::specs::Seen::over, run_world::specs::Seen::env))]
fn pos_of_call(over: &Over, occurrence: u32) -> Pos
    ensures { result ≡ (paths.site_of (seen.over over.now).layout occurrence).pos }
{
    call_pos(over.here.places, occurrence)
}

// Whether a location is an object of a call at a place.
#[tactic(auto, unfolding(crate::specs::Seen::is_from))]
fn is_from(over: &Over, pos: Pos, at: u32) -> bool
    ensures { result ≡ seen.is_from (seen.over over.now) pos at }
{
    match location_at(over, at).origin {
        Origin::Call(occurrence) => same_pos(pos, pos_of_call(over, occurrence)),
        Origin::Param(_)
        | Origin::Global(_)
        | Origin::Local(_)
        | Origin::Literal(_)
        | Origin::Function(_)
        | Origin::Target(_)
        | Origin::Part(_, _) => false,
    }
}

// Whether a location is an object of a call at a place, and lost.
#[tactic(auto, unfolding(crate::specs::Seen::is_lost_from))]
fn is_lost_from(alloc: Global, over: &Over, pos: Pos, at: u32) -> Result<bool, OutOfMemory>
    requires { seen.HasFew over.now }
    ensures { IfOk result (λ b. b ≡ seen.is_lost_from (seen.over over.now) pos at) }
{
    if !is_from(over, pos, at) {
        return Ok(false);
    }
    is_lost(alloc, over, at)
}

/// Whether an object of a call at a place is lost.
#[tactic(auto, using(crate::proofs::Fates::loss_steps))]
pub fn loses(alloc: Global, over: &Over, pos: Pos) -> Result<bool, OutOfMemory>
    requires { seen.HasFew over.now }
    ensures { IfOk result (λ b. b ≡ seen.loses (seen.over over.now) pos) }
{
    for k in 0..count(over) {
        if is_lost_from(alloc, over, pos, k as u32)? {
            return Ok(true);
        }
    }
    Ok(false)
}
