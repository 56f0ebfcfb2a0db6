// What a choice speaks of.

ghost use Rattle.std.specs.Prelude.{◌≡◌, IfOk};
ghost use Rattle.layout_base.specs.Seen as laid;
ghost use Rattle.choice_words.specs.Things as spec;

use crate::calls::put_occurrences;
use crate::locations::put_locations;
use crate::subjects::Thing;
use layout_base::{Ground, Places};
use sc_base::{List, OutOfMemory};
use std::alloc::Global;

/// What the choices of a function speak of, thing by thing: the locations in their order, then the calls in theirs. It is
/// the same for each choice of the function.
///
/// # Errors
///
/// `OutOfMemory` where memory is refused.
#[tactic(auto, unfolding(crate::specs::Things::things, layout_base::specs::Seen::layout_of))]
pub fn things(alloc: Global, ground: &Ground, places: &Places) -> Result<List<Thing>, OutOfMemory>
    ensures { IfOk result (λ ts. ts ≡ spec.things (laid.ground_of ground.now).source (laid.layout_of places.now)) }
{
    let mut things = Vec::new(alloc);
    put_locations(&mut things, ground, places.locations.as_slice())?;
    put_occurrences(
        &mut things,
        alloc,
        ground,
        places,
        places.occurrences.as_slice(),
    )?;
    Ok(List::from_vec(things))
}
