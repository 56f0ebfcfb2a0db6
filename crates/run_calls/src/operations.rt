// Operations of the machine, and tries to lock.

ghost use Rattle.std.specs.Prelude.{◌≡◌, ◌<◌, ◌≤◌, ◌+◌, vec_capacity, length, Ok};
ghost use Rattle.run_store.specs.Concrete as cells;
ghost use Rattle.sc_world.specs.Tree.{int_bits};
ghost use Rattle.sc_world.specs.Eval as spec;
ghost use Rattle.sc_world.specs.View.{type};
ghost use Rattle.layout_base.specs.Seen as laid;
ghost use Rattle.run_world.specs.Seen as seen;

use crate::errors::fails;
use layout_base::Occurrence;
use run_entry::{bit_at, integer_bits};
use run_store::Flag;
use run_world::{Ended, Here, Value, World, reach, set_state, state_of};
use sc_base::Pos;
use sc_gather::is_integer;
use sc_tree::ctype::CType;

// Any state.
const ANY: u64 = 15;

// The state of a lock that is locked.
const LOCKED: u64 = 1;

// The state to which an operation leads; from any state the first target that is one.
#[tactic(auto, unfolding(run_world::specs::Seen::env, layout_base::specs::Seen::ground_of, sc_gather::specs::Seen::source_of, sc_world::specs::Programs::source_by))]
fn target_from(here: &Here, operation: usize, state: u64) -> Option<usize>
    ensures { result ≡ spec.target_from (seen.env here.now) operation state }
{
    let machine = here.ground.here.machine;
    if state == ANY {
        machine.on_any(operation)
    } else {
        machine.target(operation, state as usize)
    }
}

#[tactic(auto, unfolding(run_world::specs::Seen::env))]
fn zero_of(here: &Here, t: &CType) -> Value
    ensures { seen.cell result ≡ spec.zero_of (seen.env here.now) (type t.now) }
{
    if is_integer(t) {
        Value::Number(integer_bits(here, t), 0)
    } else {
        Value::Nothing
    }
}

fn goes_to(
    here: &Here,
    world: &mut World,
    pos: Pos,
    t: &CType,
    at: u32,
    target: Option<usize>,
) -> Result<Value, Ended>
    requires room { length world.old.trace.items < vec_capacity world.old.trace }
    ensures step { seen.Does seen.cell (spec.goes_to (seen.env here.now) pos (type t.now) at target
        (seen.world world.old)) result (seen.world world.new) }
    ensures events { length world.new.trace.items ≤ length world.old.trace.items + 1 }
    ensures room { vec_capacity world.old.trace ≤ vec_capacity world.new.trace }
{
    match target {
        None => Err(fails(here, world, pos, at)),
        Some(state) => {
            set_state(here, world, at, state as u64);
            Ok(zero_of(here, t))
        }
    }
}

/// An operation of the machine on what a pointer points to. Where it is an error the run ends there.
pub fn operation(
    here: &Here,
    world: &mut World,
    pos: Pos,
    t: &CType,
    number: usize,
    pointer: Value,
) -> Result<Value, Ended>
    requires room { length world.old.trace.items < vec_capacity world.old.trace }
    ensures operation { seen.Does seen.cell (spec.operation (seen.env here.now) pos (type t.now) number
        (seen.cell pointer) (seen.world world.old))
        result (seen.world world.new) }
    ensures events { length world.new.trace.items ≤ length world.old.trace.items + 1 }
    ensures room { vec_capacity world.old.trace ≤ vec_capacity world.new.trace }
{
    let at = reach(here, world, pointer)?;
    world.mark(at as usize, Flag::Touched);
    let state = state_of(here, world, at);
    goes_to(here, world, pos, t, at, target_from(here, number, state))
}

// A number of the result's type.
#[tactic(auto, unfolding(run_world::specs::Seen::env))]
fn number_of(here: &Here, t: &CType, n: u32) -> Value
    ensures { seen.cell result ≡ cells.Number (int_bits (seen.env here.now).source.widths (type t.now)) n }
{
    Value::Number(integer_bits(here, t), n as u64)
}

fn tried(
    here: &Here,
    world: &mut World,
    t: &CType,
    success: u32,
    failure: u32,
    at: u32,
    succeeds: bool,
) -> Value
    ensures step { spec.tried (seen.env here.now) (type t.now) success failure at succeeds
        (seen.world world.old) ≡ (Ok (seen.cell result), seen.world world.new) }
    ensures trace { world.new.trace ≡ world.old.trace }
{
    if succeeds {
        set_state(here, world, at, LOCKED);
        number_of(here, t, success)
    } else {
        number_of(here, t, failure)
    }
}

/// A try to lock what a pointer points to. A lock that is locked cannot be had, any other one is if the choice says so.
#[tactic(auto, unfolding(run_world::specs::Seen::env))]
pub fn try_lock(
    here: &Here,
    world: &mut World,
    t: &CType,
    occurrence: Occurrence,
    success: u32,
    failure: u32,
    pointer: Value,
) -> Result<Value, Ended>
    ensures step { seen.Does seen.cell (spec.try (seen.env here.now) (type t.now)
        (laid.occurrence_of occurrence) success failure (seen.cell pointer)
        (seen.world world.old)) result (seen.world world.new) }
    ensures trace { world.new.trace ≡ world.old.trace }
{
    let at = reach(here, world, pointer)?;
    world.mark(at as usize, Flag::Touched);
    let state = state_of(here, world, at);
    let succeeds = state != LOCKED && bit_at(here.choice, occurrence.bit as usize);
    Ok(tried(here, world, t, success, failure, at, succeeds))
}
