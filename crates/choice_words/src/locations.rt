// The locations of which a choice speaks.

ghost use Rattle.std.specs.Prelude.{◌≡◌, ◌+◌, ◌++◌, IfOk, OnOk, map};
ghost use Rattle.sc_world.specs.View.{type};
ghost use Rattle.layout_base.specs.Seen as laid;
ghost use Rattle.choice_words.specs.Things as spec;

use crate::subjects::{Reading, Subject, Thing};
use layout_base::{Ground, Kind, Location};
use sc_base::OutOfMemory;
use sc_tree::ctype::CType;
use sc_types::{is_signed, kind_bits};

/// The next number.
pub(crate) fn next(n: u32) -> Result<u32, OutOfMemory>
    ensures { IfOk result (λ m. m ≡ n + 1) }
{
    n.checked_add(1).ok_or(OutOfMemory)
}

/// A thing, if its bits can be read.
pub(crate) fn put_thing(
    things: &mut Vec<Thing>,
    of: Subject,
    bit: u32,
    reading: Option<Reading>,
) -> Result<(), OutOfMemory>
    ensures { OnOk result (things.new.items ≡ things.old.items ++ spec.thing_if of bit reading) }
{
    if let Some(reading) = reading {
        things.push(Thing { of, bit, reading })?;
    }
    Ok(())
}

// A thing, if it has a bit too.
fn put_thing_from(
    things: &mut Vec<Thing>,
    of: Subject,
    bit: Option<u32>,
    reading: Option<Reading>,
) -> Result<(), OutOfMemory>
    ensures { OnOk result (things.new.items ≡ things.old.items ++ spec.thing_from of bit reading) }
{
    match bit {
        Some(bit) => put_thing(things, of, bit, reading),
        None => Ok(()),
    }
}

/// How a value of a type is read; a pointer as it is told.
#[tactic(auto, unfolding(layout_base::specs::Seen::ground_of, sc_gather::specs::Seen::source_of, sc_world::specs::Programs::source_by))]
pub(crate) fn value_reading(ground: &Ground, t: &CType, pointer: Reading) -> Option<Reading>
    ensures { result ≡ spec.value_reading (laid.ground_of ground.now).source (type t.now) pointer }
{
    match t {
        CType::Bool => Some(Reading::Number {
            width: 1,
            signed: false,
        }),
        CType::Int(kind) => Some(Reading::Number {
            width: kind_bits(ground.here.program.widths, *kind),
            signed: is_signed(*kind),
        }),
        CType::Ptr(_) => Some(pointer),
        CType::Void
        | CType::Array(_, _)
        | CType::Struct(_)
        | CType::Union(_)
        | CType::Func(_)
        | CType::Opaque(_) => None,
    }
}

fn cell_reading(ground: &Ground, kind: Kind, own: Option<u32>) -> Option<Reading>
    ensures { result ≡ spec.cell_reading (laid.ground_of ground.now).source (laid.type_of kind.entry) own }
{
    match kind {
        Kind::Stub | Kind::Void => None,
        Kind::Of(t) => value_reading(ground, t, Reading::Pointer(own)),
    }
}

fn put_location(
    things: &mut Vec<Thing>,
    ground: &Ground,
    at: u32,
    location: &Location,
) -> Result<(), OutOfMemory>
    ensures { OnOk result (things.new.items ≡ things.old.items
        ++ spec.location_things (laid.ground_of ground.now).source at (laid.location_of location.now)) }
{
    let cell = cell_reading(ground, location.kind, location.target);
    put_thing_from(things, Subject::Cell(at), location.bit, cell)?;
    put_thing_from(
        things,
        Subject::State(at),
        location.state,
        Some(Reading::State),
    )
}

/// The things of all locations.
pub(crate) fn put_locations(
    things: &mut Vec<Thing>,
    ground: &Ground,
    locations: &[Location],
) -> Result<(), OutOfMemory>
    ensures { OnOk result (things.new.items ≡ things.old.items
        ++ spec.locations_things (laid.ground_of ground.now).source 0 (map laid.location_of locations.now)) }
{
    let mut at = 0;
    for location in locations {
        put_location(things, ground, at, location)?;
        at = next(at)?;
    }
    Ok(())
}
