// What is wanted of an expression, and what stands at a place.

ghost use Rattle.std.specs.Prelude.{◌≡◌, Ok};
ghost use Rattle.sc_world.specs.Eval as spec;
ghost use Rattle.sc_world.specs.View.{type};
ghost use Rattle.run_world.specs.Seen as seen;
ghost use Rattle.run_values.specs.Seen.{want_of};

use run_world::{Value, World};
use sc_gather::{is_integer, is_pointer};
use sc_tree::ctype::CType;

/// What is wanted of an expression.
#[derive(Clone, Copy, Debug, PartialEq, Eq)]
pub enum Want {
    /// Its value.
    Value,
    /// The place of an lvalue, as the pointer to it.
    Place,
}

/// What an lvalue of that type at that location gives (C11 6.3.2.1): its value; its place where it has no cell.
pub fn scalar_at(world: &World, at: u32, t: &CType) -> Value
    ensures { spec.scalar_at at (type t.now) (seen.world world.now) ≡ (Ok (seen.cell result), seen.world world.now) }
{
    if is_integer(t) || is_pointer(t) {
        world.load(at as usize)
    } else {
        Value::Pointer(Some(at))
    }
}

/// What is wanted of an lvalue of that type at that location.
pub fn wanted(world: &World, want: Want, t: &CType, at: u32) -> Value
    ensures { spec.wanted (want_of want) (type t.now) at (seen.world world.now) ≡ (Ok (seen.cell result), seen.world world.now) }
{
    match want {
        Want::Value => scalar_at(world, at, t),
        Want::Place => Value::Pointer(Some(at)),
    }
}

/// What is wanted of a place that was kept: it is the pointer that was kept, as it is.
pub fn kept_place(world: &World, want: Want, t: &CType, kept: Value) -> Value
    ensures { spec.kept_place (want_of want) (type t.now) (seen.cell kept) (seen.world world.now) ≡ (Ok (seen.cell result), seen.world world.now) }
{
    match want {
        Want::Value => scalar_at(world, kept.place(), t),
        Want::Place => kept,
    }
}
