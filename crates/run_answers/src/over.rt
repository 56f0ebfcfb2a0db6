// A run that is over, and what is read of it.

ghost use Rattle.std.specs.Prelude.{◌≡◌, length};
ghost use Rattle.sc_world.specs.Layout as layouts;
ghost use Rattle.sc_world.specs.Shows as spec;
ghost use Rattle.layout_base.specs.Seen as laid;
ghost use Rattle.run_world.specs.Seen as world;
ghost use Rattle.run_answers.specs.Seen as seen;

use layout_base::{Kind, Location};
use run_store::Flag;
use run_world::{Ended, Here, Value, World};
use sc_gather::is_pointer;

/// A run that is over.
#[derive(Clone, Copy)]
pub struct Over<'p, 'm, 'f> {
    /// What it read.
    pub here: Here<'p, 'm, 'f>,
    /// The world that it left.
    pub world: &'f World,
    /// What it gave, or how it ended before.
    pub ended: Result<Value, Ended>,
}

/// How many locations there are.
#[tactic(auto, unfolding(crate::specs::Seen::over, run_world::specs::Seen::env, layout_base::specs::Seen::layout_of))]
pub fn count(over: &Over) -> usize
    ensures count { result ≡ length (seen.over over.now).layout.locations }
    ensures items { result ≡ length over.now.here.places.now.locations.items }
{
    over.here.places.count()
}

/// The location with that number; a stub where there is none.
#[tactic(auto, unfolding(crate::specs::Seen::over, run_world::specs::Seen::env))]
pub fn location_at<'p>(over: &Over<'p, '_, '_>, at: u32) -> Location<'p>
    ensures { laid.location_of result ≡ layouts.location (seen.over over.now).layout at }
{
    over.here.places.location(at)
}

/// Whether a location has a cell with a pointer.
pub fn is_pointer_cell(over: &Over, at: u32) -> bool
    ensures { result ≡ layouts.is_pointer_cell (layouts.location (seen.over over.now).layout at) }
{
    match location_at(over, at).kind {
        Kind::Stub | Kind::Void => false,
        Kind::Of(t) => is_pointer(t),
    }
}

/// The object that a location is of.
pub fn root_at(over: &Over, at: u32) -> u32
    ensures { result ≡ spec.root_at (seen.over over.now) at }
{
    location_at(over, at).root
}

/// Whether this happened to a location.
#[tactic(auto, unfolding(crate::specs::Seen::over))]
pub fn has(over: &Over, flag: Flag, at: u32) -> bool
    ensures { result ≡ spec.has (seen.over over.now) flag at }
{
    over.world.has_mark(at as usize, flag)
}

/// What the cell of a location holds.
#[tactic(auto, unfolding(crate::specs::Seen::over))]
pub fn value_now(over: &Over, at: u32) -> Value
    ensures { world.cell result ≡ spec.cell_now (seen.over over.now) at }
{
    over.world.load(at as usize)
}

/// The number of the state of a location; 15 stands for any.
#[tactic(auto, unfolding(crate::specs::Seen::over, crate::specs::Seen::state_now, run_world::specs::Seen::env, layout_base::specs::Seen::layout_of))]
pub fn state_now(over: &Over, at: u32) -> u64
    ensures { result ≡ seen.state_now (seen.over over.now) at }
{
    let state = over
        .world
        .load(over.here.places.locations.len() + at as usize);
    state.number()
}

/// The object to which a pointer leads.
pub fn object_of(over: &Over, value: Value) -> Option<u32>
    ensures { result ≡ spec.object_of (seen.over over.now) (world.cell value) }
{
    match value.location() {
        None => None,
        Some(at) => Some(root_at(over, at)),
    }
}
