//! What questions are asked of, and what is read of it.

ghost use Rattle.std.specs.Prelude.{◌≡◌, ◌<◌, ◌^◌, length};
ghost use Rattle.sc_world.specs.Layout as layouts;
ghost use Rattle.sc_world.specs.Layout.{or_zero};
ghost use Rattle.sc_world.specs.declared.run.Origin.TheVariants as origins;
ghost use Rattle.layout_base.specs.Seen as laid;
ghost use Rattle.run_world.specs.Seen.{env};

use flow_ends::Encoded;
use layout_base::Location;
use run_values::location_of;
use run_world::Here;
use sc_world::Origin;

/// A function, and its runs as gates.
#[derive(Clone, Copy)]
pub struct Around<'p, 'm, 'f> {
    /// What a run reads. No choice is looked at.
    pub here: Here<'p, 'm, 'f>,
    /// What becomes of its runs.
    pub encoded: &'f Encoded,
}

/// How many locations there are.
#[tactic(auto, unfolding(run_world::specs::Seen::env, layout_base::specs::Seen::layout_of))]
pub fn count(around: &Around) -> usize
    ensures count { result ≡ length (env around.now.here).layout.locations }
    ensures items { result ≡ length around.now.here.places.now.locations.items }
{
    around.here.places.count()
}

/// The location with that number; a stub where there is none.
#[tactic(auto, unfolding(run_world::specs::Seen::env))]
pub fn location_at<'p>(around: &Around<'p, '_, '_>, at: u32) -> Location<'p>
    ensures { laid.location_of result ≡ layouts.location (env around.now.here).layout at }
{
    around.here.places.location(at)
}

/// Whether the caller knows a location.
pub fn is_outer(around: &Around, at: u32) -> bool
    ensures { result ≡ layouts.is_outer (layouts.location (env around.now.here).layout at) }
{
    location_at(around, at).state.is_some()
}

/// The location of a parameter.
pub fn param_location(around: &Around, n: u32) -> u32
    requires few { length around.now.here.places.now.locations.items < 2 ^ 32 }
    ensures { result ≡ layouts.location_of (env around.now.here).layout (origins.Param n) }
{
    location_of(&around.here, Origin::Param(n))
}

/// What a parameter points to.
pub fn param_object(around: &Around, n: u32) -> u32
    requires few { length around.now.here.places.now.locations.items < 2 ^ 32 }
    ensures { result ≡ or_zero (layouts.location (env around.now.here).layout (layouts.location_of (env around.now.here).layout (origins.Param n))).target }
{
    match location_at(around, param_location(around, n)).target {
        None => 0,
        Some(at) => at,
    }
}
