// Paths in the store of the caller. A null pointer, a freed object, a stub, a part that is not there, and what is no
// pointer make a path missing.

ghost use Rattle.std.specs.Prelude.{◌≡◌, ◌<◌, ◌^◌, Ok, length, map, slice_index_or};
ghost use Rattle.sc_world.specs.Known as spec;
ghost use Rattle.sc_world.specs.World.{target_of, null};
ghost use Rattle.run_world.specs.Seen as world;
ghost use Rattle.run_paths.specs.Seen as seen;

use crate::lookup::{is_pointer_kind, location_of_global, part};
use layout_base::Kind;
use run_store::Flag;
use run_world::{Here, Value, World};
use sum_rows::{Path, Root, Step};

/// Where a path has come to.
#[derive(Clone, Copy)]
pub enum Come {
    /// At a location.
    At(u32),
    /// At the value of an argument.
    Holds(Value),
}

/// The argument with that number; null past the end.
pub fn argument(arguments: &[Value], n: u32) -> Value
    ensures { world.cell result ≡ slice_index_or (map world.cell arguments.now) n null }
{
    match arguments.get(n as usize) {
        None => Value::Pointer(None),
        Some(value) => *value,
    }
}

/// The location of a pointer; none of null, of a stub, of a freed object, and of what is no pointer.
#[tactic(auto, unfolding(run_world::specs::Seen::env))]
pub fn usable(here: &Here, store: &World, pointer: Value) -> Option<u32>
    ensures { spec.usable (world.env here.now) (target_of (world.cell pointer)) (world.world store.now) ≡
        (Ok result, world.world store.now) }
{
    match pointer.location() {
        None => None,
        Some(at) => {
            let location = here.places.location(at);
            if matches!(location.kind, Kind::Stub) {
                None
            } else if store.has_mark(location.root as usize, Flag::Freed) {
                None
            } else {
                Some(at)
            }
        }
    }
}

#[tactic(auto, unfolding(run_world::specs::Seen::env))]
fn pointed(here: &Here, store: &World, come: Come) -> Option<u32>
    ensures { spec.pointed (world.env here.now) (seen.come come) (world.world store.now) ≡
        (Ok result, world.world store.now) }
{
    match come {
        Come::Holds(value) => usable(here, store, value),
        Come::At(at) => {
            if is_pointer_kind(here.places.location(at).kind) {
                let value = store.load(at as usize);
                usable(here, store, value)
            } else {
                None
            }
        }
    }
}

#[tactic(auto, unfolding(run_world::specs::Seen::env))]
fn part_of(here: &Here, step: Step, come: Come) -> Option<u32>
    requires few { length here.now.places.now.locations.items < 2 ^ 32 }
    ensures { result ≡ seen.part_of (world.env here.now).layout step (seen.come come) }
{
    match come {
        Come::At(at) => part(here.places, at, step),
        Come::Holds(_) => None,
    }
}

fn stepped(here: &Here, store: &World, step: Step, come: Come) -> Option<u32>
    requires few { length here.now.places.now.locations.items < 2 ^ 32 }
    ensures { spec.stepped (world.env here.now) step (seen.come come) (world.world store.now) ≡
        (Ok result, world.world store.now) }
{
    match step {
        Step::Deref => pointed(here, store, come),
        Step::Field(_) | Step::Elem(_) => part_of(here, step, come),
    }
}

fn at_end(come: Come) -> Option<u32>
    ensures { result ≡ spec.at_end (seen.come come) }
{
    match come {
        Come::At(at) => Some(at),
        Come::Holds(_) => None,
    }
}

fn follow(here: &Here, store: &World, steps: &[Step], begin: Come) -> Option<u32>
    requires few { length here.now.places.now.locations.items < 2 ^ 32 }
    ensures { spec.follow (world.env here.now) steps.now (seen.come begin) (world.world store.now) ≡
        (Ok result, world.world store.now) }
{
    let mut come = begin;
    for step in steps {
        match stepped(here, store, *step, come) {
            None => return None,
            Some(at) => come = Come::At(at),
        }
    }
    at_end(come)
}

#[tactic(auto, unfolding(run_world::specs::Seen::env))]
fn begin(here: &Here, arguments: &[Value], root: Root) -> Come
    requires few { length here.now.places.now.locations.items < 2 ^ 32 }
    ensures { seen.come result ≡ spec.begin (world.env here.now) (map world.cell arguments.now) root }
{
    match root {
        Root::Param(n) => Come::Holds(argument(arguments, n)),
        Root::Global(n) => Come::At(location_of_global(here.places, n)),
    }
}

/// The location to which a path leads from the arguments and globals of a call; none where it is missing.
pub fn follow_path(here: &Here, store: &World, arguments: &[Value], path: &Path) -> Option<u32>
    requires few { length here.now.places.now.locations.items < 2 ^ 32 }
    ensures { spec.follow_path (world.env here.now) (map world.cell arguments.now) path.now
        (world.world store.now) ≡ (Ok result, world.world store.now) }
{
    follow(
        here,
        store,
        path.steps.as_slice(),
        begin(here, arguments, path.root),
    )
}
