// What the layout has: parts, globals, spots.

ghost use Rattle.std.specs.Prelude.{◌≡◌, ◌<◌, ◌≤◌, ◌^◌, length};
ghost use Rattle.sc_world.specs.Layout as spec;
ghost use Rattle.sc_world.specs.declared.run.Origin.TheVariants as origins;
ghost use Rattle.layout_base.specs.Seen as laid;

use layout_base::{Kind, Places, Spot};
use sc_base::{NameId, Pos};
use sc_gather::is_pointer;
use sc_world::Origin;
use sum_rows::Step;

/// The spot with that number; a blank one past the end.
#[tactic(auto, unfolding(layout_base::specs::Seen::layout_of))]
pub fn spot_at(places: &Places, k: usize) -> Spot
    ensures { laid.spot_of result ≡ spec.spot_at (laid.layout_of places.now) k }
{
    match places.spots.get(k) {
        None => Spot {
            bit: 0,
            object: None,
        },
        Some(spot) => *spot,
    }
}

// Whether a location of that kind is a pointer cell.
pub fn is_pointer_kind(kind: Kind) -> bool
    ensures { result ≡ spec.is_pointer_type (laid.type_of kind.entry) }
{
    match kind {
        Kind::Stub | Kind::Void => false,
        Kind::Of(t) => is_pointer(t),
    }
}

fn same_step(a: Step, b: Step) -> bool
    ensures { result ≡ spec.same_step a b }
{
    match (a, b) {
        (Step::Deref, Step::Deref) => true,
        (Step::Field(m), Step::Field(n)) => m.at == n.at,
        (Step::Elem(m), Step::Elem(n)) => m == n,
        _ => false,
    }
}

fn is_part_of(at: u32, step: Step, origin: Origin) -> bool
    ensures { result ≡ spec.is_part_of at step origin }
{
    match origin {
        Origin::Part(up, s) => at == up && same_step(step, s),
        Origin::Param(_)
        | Origin::Global(_)
        | Origin::Local(_)
        | Origin::Literal(_)
        | Origin::Function(_)
        | Origin::Target(_)
        | Origin::Call(_) => false,
    }
}

fn is_global(k: u32, origin: Origin) -> bool
    ensures { result ≡ spec.same_origin (origins.Global k) origin }
{
    match origin {
        Origin::Global(n) => k == n,
        Origin::Part(_, _)
        | Origin::Param(_)
        | Origin::Local(_)
        | Origin::Literal(_)
        | Origin::Function(_)
        | Origin::Target(_)
        | Origin::Call(_) => false,
    }
}

/// The part of a location to which a step leads.
#[tactic(auto, unfolding(layout_base::specs::Seen::layout_of))]
pub fn part(places: &Places, at: u32, step: Step) -> Option<u32>
    requires few { length places.now.locations.items < 2 ^ 32 }
    ensures { result ≡ spec.part (laid.layout_of places.now) at step }
{
    let locations = places.locations.as_slice();
    for k in 0..locations.len() {
        if is_part_of(at, step, locations[k].origin) {
            return Some(k as u32);
        }
    }
    None
}

/// The location of a global; 0 where it has none.
#[tactic(auto, unfolding(layout_base::specs::Seen::layout_of))]
pub fn location_of_global(places: &Places, global: u32) -> u32
    requires few { length places.now.locations.items < 2 ^ 32 }
    ensures { result ≡ spec.location_of (laid.layout_of places.now) (origins.Global global) }
{
    let locations = places.locations.as_slice();
    for k in 0..locations.len() {
        if is_global(global, locations[k].origin) {
            return k as u32;
        }
    }
    0
}
