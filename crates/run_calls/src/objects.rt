// What becomes of objects: they escape, they are freed, they are allocated.

ghost use Rattle.std.specs.Prelude.{◌≡◌, ◌+◌, Ok};
ghost use Rattle.sc_world.specs.Eval as eval;
ghost use Rattle.sc_world.specs.Known as spec;
ghost use Rattle.layout_base.specs.Seen as laid;
ghost use Rattle.run_world.specs.Seen as seen;

use layout_base::Location;
use run_store::Flag;
use run_world::{Ended, Here, Value, World};
use sc_world::{Origin, Reason};

/// The object of what a pointer points to may be known outside from now on; nothing of null.
#[tactic(auto, unfolding(run_world::specs::Seen::env))]
pub fn escape(here: &Here, world: &mut World, pointer: Value)
    ensures escape { spec.escape (seen.env here.now) (seen.cell pointer) (seen.world world.old) ≡
        (Ok tt, seen.world world.new) }
    ensures trace { world.new.trace ≡ world.old.trace }
{
    match pointer.location() {
        None => {}
        Some(at) => {
            let root = here.places.location(at).root;
            world.mark(root as usize, Flag::Escaped);
        }
    }
}

// Objects that a call gave, or that a pointer pointed to at entry.
fn from_heap(origin: Origin) -> bool
    ensures { result ≡ spec.from_heap origin }
{
    match origin {
        Origin::Target(_) | Origin::Call(_) => true,
        Origin::Param(_)
        | Origin::Global(_)
        | Origin::Local(_)
        | Origin::Literal(_)
        | Origin::Function(_)
        | Origin::Part(_, _) => false,
    }
}

// Whether the location is a whole object that may be freed.
fn may_free(location: &Location, at: u32) -> bool
    ensures { result ≡ spec.may_free (laid.location_of location.now) at }
{
    location.root == at && from_heap(location.origin)
}

#[tactic(auto, unfolding(run_world::specs::Seen::env))]
fn free_at(here: &Here, world: &mut World, at: u32) -> Result<(), Ended>
    ensures free { seen.Does (λ x. x) (spec.free_at (seen.env here.now) (at + 1) (seen.world world.old)) result
        (seen.world world.new) }
    ensures trace { world.new.trace ≡ world.old.trace }
{
    let location = here.places.location(at);
    let is_freed = world.has_mark(location.root as usize, Flag::Freed);
    if !is_freed && may_free(&location, at) {
        world.mark(at as usize, Flag::Freed);
        Ok(())
    } else {
        Err(Ended::Aside(Reason::Freed))
    }
}

/// Frees what a pointer points to; nothing of null. What is freed already, and what is no whole object of a call or
/// behind a pointer at entry, sets the run aside.
pub fn free(here: &Here, world: &mut World, pointer: Value) -> Result<(), Ended>
    ensures free { seen.Does (λ x. x) (spec.free (seen.env here.now) (seen.cell pointer)
        (seen.world world.old)) result (seen.world world.new) }
    ensures trace { world.new.trace ≡ world.old.trace }
{
    match pointer.location() {
        None => Ok(()),
        Some(at) => free_at(here, world, at),
    }
}

/// The object is one that a call allocated; nothing where there is none.
pub fn mark_object(world: &mut World, object: Option<u32>)
    ensures mark { eval.mark_object object (seen.world world.old) ≡ (Ok tt, seen.world world.new) }
    ensures trace { world.new.trace ≡ world.old.trace }
{
    match object {
        None => {}
        Some(at) => world.mark(at as usize, Flag::Allocated),
    }
}
