// The part of a location to which a step leads.

ghost use Rattle.std.specs.Prelude.{◌≡◌, ◌<◌, ◌^◌, length};
ghost use Rattle.sc_world.specs.Layout as spec;
ghost use Rattle.run_world.specs.Seen as seen;

use run_world::Here;
use sc_world::Origin;
use sum_rows::Step;

fn same_step(a: Step, b: Step) -> bool
    ensures { result ≡ spec.same_step a b }
{
    match (a, b) {
        (Step::Deref, Step::Deref) => true,
        (Step::Field(m), Step::Field(n)) => m.at == n.at,
        (Step::Elem(m), Step::Elem(n)) => m == n,
        (Step::Deref, Step::Field(_) | Step::Elem(_)) => false,
        (Step::Field(_), Step::Deref | Step::Elem(_)) => false,
        (Step::Elem(_), Step::Deref | Step::Field(_)) => false,
    }
}

fn is_part_of(at: u32, step: Step, origin: Origin) -> bool
    ensures { result ≡ spec.is_part_of at step origin }
{
    match origin {
        Origin::Part(up, other) => at == up && same_step(step, other),
        Origin::Param(_)
        | Origin::Global(_)
        | Origin::Local(_)
        | Origin::Literal(_)
        | Origin::Function(_)
        | Origin::Target(_)
        | Origin::Call(_) => false,
    }
}

/// The part of a location to which a step leads.
#[tactic(auto, unfolding(run_world::specs::Seen::env, layout_base::specs::Seen::layout_of))]
pub fn part(here: &Here, at: u32, step: Step) -> Option<u32>
    requires few { length here.now.places.now.locations.items < 2 ^ 32 }
    ensures { result ≡ spec.part (seen.env here.now).layout at step }
{
    let locations = here.places.locations.as_slice();
    for k in 0..locations.len() {
        if is_part_of(at, step, locations[k].origin) {
            return Some(k as u32);
        }
    }
    None
}
