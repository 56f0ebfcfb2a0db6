// Where locations come from.

ghost use Rattle.std.specs.Prelude.{◌≡◌, slice_index_or};
ghost use Rattle.sc_world.specs.Layout.{location, no_occurrence};
ghost use Rattle.sc_world.specs.Paths as spec;
ghost use Rattle.layout_base.specs.Seen as laid;

use layout_base::Places;
use sc_base::Pos;
use sc_world::Origin;

/// Where a location comes from.
#[tactic(auto, unfolding(layout_base::specs::Seen::layout_of))]
pub(crate) fn origin_at(places: &Places, at: u32) -> Origin
    ensures { result ≡ (location (laid.layout_of places.now) at).origin }
{
    match places.locations.get(at as usize) {
        None => Origin::Param(0),
        Some(location) => location.origin,
    }
}

// The number of the call with that occurrence.
#[tactic(auto, unfolding(layout_base::specs::Seen::layout_of))]
fn site_number(places: &Places, occurrence: u32) -> u32
    ensures { result ≡ (slice_index_or (laid.layout_of places.now).occurrences occurrence no_occurrence).site }
{
    match places.occurrences.get(occurrence as usize) {
        None => 0,
        Some(occurrence) => occurrence.site,
    }
}

/// The place of the call that gives an object.
#[tactic(auto, unfolding(layout_base::specs::Seen::layout_of))]
pub fn call_pos(places: &Places, occurrence: u32) -> Pos
    ensures { result ≡ (spec.site_of (laid.layout_of places.now) occurrence).pos }
{
    match places.sites.get(site_number(places, occurrence) as usize) {
        None => Pos {
            file: 0,
            line: 0,
            col: 0,
        },
        Some(site) => site.pos,
    }
}
