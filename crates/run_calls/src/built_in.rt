// Allocation, release, and calls of which nothing is known.

ghost use Rattle.std.specs.Prelude.{◌≡◌, Ok, map, if◌then◌else◌};
ghost use Rattle.sc_world.specs.Eval as spec;
ghost use Rattle.sc_world.specs.View.{type};
ghost use Rattle.sc_world.specs.World.{bit_at, target_or_null, null};
ghost use Rattle.layout_base.specs.Seen as laid;
ghost use Rattle.run_world.specs.Seen as seen;

use crate::objects::{escape, free, mark_object};
use layout_base::Occurrence;
use run_entry::{bit_at, integer_bits, number_at};
use run_world::{Ended, Here, Value, World};
use sc_gather::{is_integer, is_pointer};
use sc_tree::ctype::CType;

/// The first argument; null where there is none.
pub fn first_argument(arguments: &[Value]) -> Value
    ensures { seen.cell result ≡ spec.first_arg (map seen.cell arguments.now) }
{
    match arguments {
        [] => Value::Pointer(None),
        [first, ..] => *first,
    }
}

/// Allocation: the object of the call, or null, by the choice.
#[tactic(auto, unfolding(run_world::specs::Seen::env))]
pub fn allocate(here: &Here, world: &mut World, occurrence: Occurrence) -> Value
    ensures allocate { spec.allocate (seen.env here.now) (laid.occurrence_of occurrence) (seen.world world.old)
        ≡ (Ok (seen.cell result), seen.world world.new) }
    ensures trace { world.new.trace ≡ world.old.trace }
{
    if bit_at(here.choice, occurrence.bit as usize) {
        mark_object(world, occurrence.object);
        Value::Pointer(occurrence.object)
    } else {
        Value::Pointer(None)
    }
}

/// Frees what a pointer points to.
pub fn release(here: &Here, world: &mut World, pointer: Value) -> Result<Value, Ended>
    ensures release { seen.Does seen.cell (spec.release (seen.env here.now) (seen.cell pointer)
        (seen.world world.old)) result (seen.world world.new) }
    ensures trace { world.new.trace ≡ world.old.trace }
{
    free(here, world, pointer)?;
    Ok(Value::Nothing)
}

// The objects of all arguments escape.
fn escape_all(here: &Here, world: &mut World, arguments: &[Value])
    ensures escape { spec.escape_all (seen.env here.now) (map seen.cell arguments.now) (seen.world world.old) ≡
        (Ok tt, seen.world world.new) }
    ensures trace { world.new.trace ≡ world.old.trace }
{
    for argument in arguments {
        escape(here, world, *argument);
    }
}

// The pointer that a call gives of which nothing is known.
#[tactic(auto, unfolding(run_world::specs::Seen::env))]
fn given_pointer(here: &Here, world: &mut World, occurrence: Occurrence) -> Value
    ensures given { (if bit_at (seen.env here.now).choice occurrence.bit
        then spec.escaped_object (seen.env here.now) (target_or_null occurrence.object) (seen.world world.old)
        else (Ok null, seen.world world.old)) ≡ (Ok (seen.cell result), seen.world world.new) }
    ensures trace { world.new.trace ≡ world.old.trace }
{
    if bit_at(here.choice, occurrence.bit as usize) {
        let given = Value::Pointer(occurrence.object);
        escape(here, world, given);
        given
    } else {
        Value::Pointer(None)
    }
}

/// A call of which nothing is known: the objects of its arguments escape, and the choice says what it gives.
#[tactic(auto, unfolding(run_world::specs::Seen::env))]
pub fn unknown(
    here: &Here,
    world: &mut World,
    occurrence: Occurrence,
    t: &CType,
    arguments: &[Value],
) -> Value
    ensures unknown { spec.unknown (seen.env here.now) (laid.occurrence_of occurrence) (type t.now)
        (map seen.cell arguments.now) (seen.world world.old)
        ≡ (Ok (seen.cell result), seen.world world.new) }
    ensures trace { world.new.trace ≡ world.old.trace }
{
    escape_all(here, world, arguments);
    if is_integer(t) {
        let bits = integer_bits(here, t);
        Value::Number(bits, number_at(here.choice, occurrence.bit, bits))
    } else if is_pointer(t) {
        given_pointer(here, world, occurrence)
    } else {
        Value::Nothing
    }
}
