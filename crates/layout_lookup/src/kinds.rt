// What is read of a single location.

ghost use Rattle.std.specs.Prelude.{◌≡◌};
ghost use Rattle.sc_world.specs.Layout as layouts;
ghost use Rattle.layout_base.specs.Seen as seen;

use layout_base::{Kind, Location};
use sc_gather::is_pointer;

/// Whether it is a stub, which no access may reach.
pub fn is_stub(location: Location) -> bool
    ensures { result ≡ layouts.is_stub (seen.location_of location.entry) }
{
    matches!(location.kind, Kind::Stub)
}

/// Whether it is known to the caller: it has a state at entry.
pub fn is_outer(location: Location) -> bool
    ensures { result ≡ layouts.is_outer (seen.location_of location.entry) }
{
    location.state.is_some()
}

/// Whether it has an integer or pointer type.
pub fn is_cell(location: Location) -> bool
    ensures { result ≡ layouts.is_cell (seen.location_of location.entry) }
{
    match location.kind {
        Kind::Stub | Kind::Void => false,
        Kind::Of(t) => layout_base::is_cell(t),
    }
}

/// Whether it has a pointer type.
pub fn is_pointer_cell(location: Location) -> bool
    ensures { result ≡ layouts.is_pointer_cell (seen.location_of location.entry) }
{
    match location.kind {
        Kind::Stub | Kind::Void => false,
        Kind::Of(t) => is_pointer(t),
    }
}
