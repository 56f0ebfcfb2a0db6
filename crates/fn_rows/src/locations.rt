// Numbers of locations.

ghost use Rattle.std.specs.Prelude.{◌≡◌, ◌++◌, [], ◌∷◌, ◌&&◌, IfOk, OnOk, filter};
ghost use Rattle.std.specs.List.{range_with_len};
ghost use Rattle.sc_world.specs.Layout as layouts;
ghost use Rattle.layout_base.specs.Seen as laid;
ghost use Rattle.fn_rows.specs.Outer as outer;

use crate::params::number;
use layout_base::{Kind, Location, Places, is_cell};
use sc_base::OutOfMemory;
use std::alloc::Global;

/// Which locations are meant.
#[derive(Clone, Copy)]
pub(crate) enum Which {
    /// Those that the caller knows.
    Outer,
    /// The cells among them.
    OuterCells,
}

/// The numbers below `count`. One beyond 32 bits counts as want of memory.
#[tactic(auto, using(crate::proofs::Ranges::range_more))]
pub fn numbers(alloc: Global, count: usize) -> Result<Vec<u32>, OutOfMemory>
    ensures { IfOk result (λ ns. ns.items ≡ range_with_len 0 count) }
{
    let mut found = Vec::new(alloc);
    for k in 0..count {
        found.push(number(k)?)?;
    }
    Ok(found)
}

fn has_cell(location: Location) -> bool
    ensures { result ≡ layouts.is_cell (laid.location_of location.entry) }
{
    match location.kind {
        Kind::Stub | Kind::Void => false,
        Kind::Of(t) => is_cell(t),
    }
}

fn is_meant(location: Location, which: Which) -> bool
    ensures { result ≡ outer.is_meant which (laid.location_of location.entry) }
{
    match which {
        Which::Outer => location.state.is_some(),
        Which::OuterCells => location.state.is_some() && has_cell(location),
    }
}

// Puts a location that is meant.
fn put_meant(
    found: &mut Vec<u32>,
    places: &Places,
    which: Which,
    at: u32,
) -> Result<(), OutOfMemory>
    ensures { OnOk result (found.new.items
        ≡ found.old.items ++ filter (λ at. outer.is_meant which (layouts.location (laid.layout_of places.now) at)) (at ∷ [])) }
{
    if is_meant(places.location(at), which) {
        found.push(at)?;
    }
    Ok(())
}

/// The locations that are meant.
#[tactic(auto, using(crate::proofs::Filters::filter_turn))]
pub(crate) fn meant(alloc: Global, places: &Places, which: Which) -> Result<Vec<u32>, OutOfMemory>
    ensures { IfOk result (λ ats. ats.items ≡ outer.meant which (laid.layout_of places.now)) }
{
    let all = numbers(alloc, places.count())?;
    let mut found = Vec::new(alloc);
    for at in &all {
        put_meant(&mut found, places, which, *at)?;
    }
    Ok(found)
}
