// Where pointers lead, and the states of locations.

ghost use Rattle.std.specs.Prelude.{◌≡◌, Ok};
ghost use Rattle.sc_world.specs.World as spec;
ghost use Rattle.sc_world.specs.Layout as layouts;
ghost use Rattle.sc_world.specs.View.{type};
ghost use Rattle.run_world.specs.Seen as seen;

use crate::types::same_type;
use crate::{Ended, Value, World};
use layout_base::{Ground, Kind, Places};
use run_store::Flag;
use sc_tree::ctype::CType;
use sc_world::Reason;

/// What a run reads and never changes.
#[derive(Clone, Copy)]
pub struct Here<'p, 'm, 'f> {
    pub ground: Ground<'p, 'm, 'f>,
    pub places: &'f Places<'p>,
    /// The bits that choose the run.
    pub choice: &'f [bool],
    /// The turns of the loops round, as one number.
    pub turn: u32,
}

// The number of bits of a state.
const STATE_BITS: u32 = 4;

/// The state of a location; 15 stands for any.
#[tactic(auto, unfolding(crate::specs::Seen::env, layout_base::specs::Seen::layout_of))]
pub fn state_of(here: &Here, world: &World, at: u32) -> u64
    ensures { spec.state_of (seen.env here.now) at (seen.world world.now) ≡ (Ok result, seen.world world.now) }
{
    let locations = here.places.locations.as_slice();
    let state = world.load(locations.len() + at as usize);
    state.number()
}

/// The location has that state from now on.
#[tactic(auto, unfolding(crate::specs::Seen::env, layout_base::specs::Seen::layout_of))]
pub fn set_state(here: &Here, world: &mut World, at: u32, state: u64)
    ensures state { spec.set_state (seen.env here.now) at state (seen.world world.old) ≡ (Ok tt, seen.world world.new) }
    ensures trace { world.new.trace ≡ world.old.trace }
{
    let locations = here.places.locations.as_slice();
    let state = Value::Number(STATE_BITS, state);
    world.put(locations.len() + at as usize, state);
}

#[tactic(auto, unfolding(crate::specs::Seen::env))]
fn root_of(here: &Here, at: u32) -> u32
    ensures { result ≡ spec.root_of (seen.env here.now) at }
{
    here.places.location(at).root
}

fn not_freed(here: &Here, world: &World, at: u32) -> Result<(), Ended>
    ensures { seen.Does (λ x. x) (spec.not_freed (seen.env here.now) at (seen.world world.now)) result (seen.world world.now) }
{
    if world.has_mark(root_of(here, at) as usize, Flag::Freed) {
        return Err(Ended::Aside(Reason::Freed));
    }
    Ok(())
}

/// The location of a pointer: none of null, of what lies beyond the reach, and of a freed object, in this order of the
/// reasons.
#[tactic(auto, unfolding(crate::specs::Seen::env))]
pub fn reach(here: &Here, world: &World, pointer: Value) -> Result<u32, Ended>
    ensures { seen.Does (λ x. x) (spec.reach (seen.env here.now) (seen.cell pointer) (seen.world world.now)) result (seen.world world.now) }
{
    match pointer.location() {
        None => Err(Ended::Aside(Reason::Null)),
        Some(at) => {
            if matches!(here.places.location(at).kind, Kind::Stub) {
                return Err(Ended::Aside(Reason::Reach));
            }
            not_freed(here, world, at)?;
            Ok(at)
        }
    }
}

#[tactic(auto, unfolding(crate::specs::Seen::env))]
fn has_type(here: &Here, at: u32, t: &CType) -> bool
    ensures { result ≡ layouts.has_type (layouts.location (seen.env here.now).layout at) (type t.now) }
{
    match here.places.location(at).kind {
        Kind::Stub => false,
        Kind::Void => matches!(t, CType::Void),
        Kind::Of(u) => same_type(u, t),
    }
}

/// The same, of a location that has the type; any other is set aside behind these.
pub fn dereference(here: &Here, world: &World, t: &CType, pointer: Value) -> Result<u32, Ended>
    ensures { seen.Does (λ x. x) (spec.dereference (seen.env here.now) (type t.now) (seen.cell pointer) (seen.world world.now)) result (seen.world world.now) }
{
    let at = reach(here, world, pointer)?;
    if !has_type(here, at, t) {
        return Err(Ended::Aside(Reason::Type));
    }
    Ok(at)
}
