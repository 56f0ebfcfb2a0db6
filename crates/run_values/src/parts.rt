// Members and elements of objects.

ghost use Rattle.std.specs.Prelude.{◌≡◌, ◌<◌, ◌^◌, length, Ok};
ghost use Rattle.sc_world.specs.Eval as spec;
ghost use Rattle.run_world.specs.Seen as seen;

use crate::lookup::{element_at, part};
use run_world::{Ended, Here, Value, World};
use sc_base::NameId;
use sc_world::Reason;
use sum_rows::Step;

/// The member of that name of the location; one that the text names is there. The world stays.
pub fn member(here: &Here, world: &World, name: NameId, at: u32) -> u32
    requires few { length here.now.places.now.locations.items < 2 ^ 32 }
    ensures { spec.member (seen.env here.now) name at (seen.world world.now) ≡ (Ok result, seen.world world.now) }
{
    match part(here, at, Step::Field(name)) {
        None => 0,
        Some(member) => member,
    }
}

/// The element of the array with that number; one that has no location sets the run aside. The world stays.
pub fn element(here: &Here, world: &World, at: u32, number: u64) -> Result<u32, Ended>
    requires few { length here.now.places.now.locations.items < 2 ^ 32 }
    ensures { seen.Does (λ x. x) (spec.element (seen.env here.now) at number (seen.world world.now)) result (seen.world world.now) }
{
    match element_at(here, at, number) {
        None => Err(Ended::Aside(Reason::Index)),
        Some(element) => Ok(element),
    }
}

/// The pointer to the first element of an array; to itself where it has no element.
pub fn first_element(here: &Here, array: Value) -> Value
    requires few { length here.now.places.now.locations.items < 2 ^ 32 }
    ensures { seen.cell result ≡ spec.first_element (seen.env here.now) (seen.cell array) }
{
    let at = array.place();
    match part(here, at, Step::Elem(0)) {
        None => Value::Pointer(Some(at)),
        Some(first) => Value::Pointer(Some(first)),
    }
}
