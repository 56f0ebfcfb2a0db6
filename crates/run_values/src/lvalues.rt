// What an lvalue gives once the expressions in it are evaluated (C11 6.5.2, 6.5.3).

ghost use Rattle.std.specs.Prelude.{◌≡◌, ◌<◌, ◌^◌, length, Ok};
ghost use Rattle.sc_world.specs.Tree.{target_or_void};
ghost use Rattle.sc_world.specs.Eval as spec;
ghost use Rattle.sc_world.specs.View.{type};
ghost use Rattle.sc_world.specs.World.{goes_on, dereference as dereferenced_by, number_of};
ghost use Rattle.run_world.specs.Seen as seen;
ghost use Rattle.run_values.specs.Seen.{want_of};
ghost use Rattle.run_values.specs.Steps.{pointer_index, member_behind};

use crate::parts::{element, member};
use crate::want::{Want, wanted};
use run_world::{Ended, Here, Value, World, dereference};
use sc_base::NameId;
use sc_tree::ctype::CType;
use sc_world::Reason;

/// `* p`
pub fn indirection(
    here: &Here,
    world: &World,
    want: Want,
    t: &CType,
    pointer: Value,
) -> Result<Value, Ended>
    ensures { seen.Does seen.cell (goes_on (dereferenced_by (seen.env here.now) (type t.now) (seen.cell pointer) (seen.world world.now))
        (λ at. spec.wanted (want_of want) (type t.now) at)) result (seen.world world.now) }
{
    let at = dereference(here, world, t, pointer)?;
    Ok(wanted(world, want, t, at))
}

/// `p [ k ]` of a pointer: only `p [ 0 ]` is there.
pub fn pointer_index(
    here: &Here,
    world: &World,
    want: Want,
    t: &CType,
    pointer: Value,
    index: Value,
) -> Result<Value, Ended>
    ensures { seen.Does seen.cell (pointer_index (seen.env here.now) (want_of want) (type t.now) (seen.cell pointer) (seen.cell index) (seen.world world.now))
        result (seen.world world.now) }
{
    let at = dereference(here, world, t, pointer)?;
    if index.number() != 0 {
        return Err(Ended::Aside(Reason::Index));
    }
    Ok(wanted(world, want, t, at))
}

/// `a [ k ]` of an array.
pub fn array_index(
    here: &Here,
    world: &World,
    want: Want,
    t: &CType,
    array: Value,
    index: Value,
) -> Result<Value, Ended>
    requires few { length here.now.places.now.locations.items < 2 ^ 32 }
    ensures { seen.Does seen.cell (goes_on (spec.element (seen.env here.now) (spec.place_of (seen.cell array)) (number_of (seen.cell index)) (seen.world world.now))
        (λ at. spec.wanted (want_of want) (type t.now) at)) result (seen.world world.now) }
{
    let at = element(here, world, array.place(), index.number())?;
    Ok(wanted(world, want, t, at))
}

/// `s . m`
pub fn member_of(
    here: &Here,
    world: &World,
    want: Want,
    t: &CType,
    name: NameId,
    object: Value,
) -> Value
    requires few { length here.now.places.now.locations.items < 2 ^ 32 }
    ensures { goes_on (spec.member (seen.env here.now) name (spec.place_of (seen.cell object)) (seen.world world.now))
        (λ at. spec.wanted (want_of want) (type t.now) at) ≡ (Ok (seen.cell result), seen.world world.now) }
{
    let at = member(here, world, name, object.place());
    wanted(world, want, t, at)
}

// The location to which a pointer of that type points.
fn pointed(here: &Here, world: &World, pointer_type: &CType, pointer: Value) -> Result<u32, Ended>
    ensures { seen.Does (λ x. x) (dereferenced_by (seen.env here.now) (target_or_void (type pointer_type.now)) (seen.cell pointer) (seen.world world.now))
        result (seen.world world.now) }
{
    match pointer_type {
        CType::Ptr(target) => dereference(here, world, target.get(), pointer),
        CType::Void
        | CType::Bool
        | CType::Int(_)
        | CType::Array(_, _)
        | CType::Struct(_)
        | CType::Union(_)
        | CType::Func(_)
        | CType::Opaque(_) => {
            let void = CType::Void;
            dereference(here, world, &void, pointer)
        }
    }
}

/// `p -> m`
pub fn member_behind(
    here: &Here,
    world: &World,
    want: Want,
    pointer_type: &CType,
    t: &CType,
    name: NameId,
    pointer: Value,
) -> Result<Value, Ended>
    requires few { length here.now.places.now.locations.items < 2 ^ 32 }
    ensures { seen.Does seen.cell (member_behind (seen.env here.now) (want_of want) (type pointer_type.now) (type t.now) name (seen.cell pointer) (seen.world world.now))
        result (seen.world world.now) }
{
    let at = pointed(here, world, pointer_type, pointer)?;
    let at = member(here, world, name, at);
    Ok(wanted(world, want, t, at))
}
