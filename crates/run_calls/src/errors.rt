// Errors at locations.

ghost use Rattle.std.specs.Prelude.{◌≡◌, ◌<◌, ◌≤◌, ◌+◌, vec_capacity, length, Err};
ghost use Rattle.sc_world.specs.Eval as spec;
ghost use Rattle.run_world.specs.Seen as seen;

use run_world::{Ended, Here, World};
use sc_base::Pos;
use sum_rows::What;

/// An error at a location: the event of it, and how the run ends there. There has to be room for the event.
#[tactic(auto, using(crate::proofs::Events::one_event), unfolding(run_world::specs::Seen::env))]
pub fn fails(here: &Here, world: &mut World, pos: Pos, at: u32) -> Ended
    requires room { length world.old.trace.items < vec_capacity world.old.trace }
    ensures error { spec.fails (seen.env here.now) pos at (seen.world world.old) ≡
        (Err (seen.how_ended result), seen.world world.new) }
    ensures events { length world.new.trace.items ≡ length world.old.trace.items + 1 }
    ensures room { vec_capacity world.old.trace ≤ vec_capacity world.new.trace }
{
    world.event(pos, What::Bad(at));
    if here.places.location(at).state.is_some() {
        Ended::Error(at)
    } else {
        Ended::Inner(at)
    }
}
