//! What is read of objects.

ghost use Rattle.std.specs.Prelude.{◌≡◌};
ghost use Rattle.sc_world.specs.Layout as layouts;
ghost use Rattle.sc_world.specs.Shows as spec;
ghost use Rattle.run_world.specs.Seen.{env};
ghost use Rattle.fn_walks.specs.Seen as seen;

use fn_facts::{Around, location_at};
use layout_base::Kind;
use sc_gather::is_pointer;
use sc_world::Origin;

/// Whether a location has a cell with a pointer.
pub fn is_pointer_cell(around: &Around, at: u32) -> bool
    ensures { result ≡ layouts.is_pointer_cell (layouts.location (env around.now.here).layout at) }
{
    match location_at(around, at).kind {
        Kind::Stub | Kind::Void => false,
        Kind::Of(t) => is_pointer(t),
    }
}

/// The object that a location is of.
pub fn root_at(around: &Around, at: u32) -> u32
    ensures { result ≡ (layouts.location (env around.now.here).layout at).root }
{
    location_at(around, at).root
}

fn is_held_by_entry(origin: Origin) -> bool
    ensures { result ≡ spec.is_held_by_entry origin }
{
    match origin {
        Origin::Global(_) | Origin::Target(_) => true,
        Origin::Param(_)
        | Origin::Local(_)
        | Origin::Literal(_)
        | Origin::Function(_)
        | Origin::Call(_)
        | Origin::Part(_, _) => false,
    }
}

/// Whether an object is a global, or a pointer pointed to it at entry.
pub fn is_known(around: &Around, object: u32) -> bool
    ensures { result ≡ seen.is_known (env around.now.here).layout object }
{
    let location = location_at(around, object);
    is_held_by_entry(location.origin) && location.state.is_some()
}

/// Whether a target, null being 0, is an object.
pub fn is_object(around: &Around, target: u32, n: u32) -> bool
    ensures { result ≡ seen.is_object (env around.now.here).layout target n }
{
    if target == 0 {
        return false;
    }
    n == root_at(around, target - 1)
}
