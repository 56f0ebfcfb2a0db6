//! What names give: parameters, locals and globals, and functions and strings.

ghost use Rattle.std.specs.Prelude.{◌≡◌, ℕ, ◌<◌, ◌≤◌, ◌^◌, length, IfOk};
ghost use Rattle.bit_net.specs.Runs.{Grown};
ghost use Rattle.gl_store.specs.Meets.{locations_top};
ghost use Rattle.layout_base.specs.Seen as laid;
ghost use Rattle.sc_world.specs.View.{type};
ghost use Rattle.run_world.specs.Seen as seen;
ghost use Rattle.run_values.specs.Seen.{want_of};
ghost use Rattle.gate_places.specs.Places.{IsLaid};
ghost use Rattle.tr_expr.specs.Names.{DoesAddress, DoesName, IsNamed};

use bit_net::{Net, OutOfMemory};
use gate_places::wanted;
use gl_sets::Set;
use gl_store::{Store, Val};
use layout_lookup::Lookup;
use run_values::Want;
use run_world::Here;
use sc_tree::ctype::CType;
use sc_world::Origin;

// The pointer to the location that a name is.
#[tactic(auto, using(crate::proofs::Naming::name_low, crate::proofs::Naming::is_named))]
fn place_of(layout: &Lookup, net: &Net, origin: Origin) -> Set
    requires few { length (laid.layout_of layout.now.places.now).locations < 2 ^ 32 }
    ensures { IsNamed net.now (laid.layout_of layout.now.places.now) origin result.pairs.items }
{
    let at = layout.location_of(origin);
    Set::one(net, at + 1)
}

/// What is wanted of a parameter, a local or a global: its value, or its place.
pub fn named(
    here: &Here,
    layout: &Lookup,
    net: &mut Net,
    store: &Store,
    want: Want,
    t: &CType,
    origin: Origin,
) -> Result<Val, OutOfMemory>
    requires few { length (laid.layout_of layout.now.places.now).locations < 2 ^ 32 }
    requires same { laid.layout_of layout.now.places.now ≡ (seen.env here.now).layout }
    requires laid { IsLaid (seen.env here.now).source (seen.env here.now).layout store.now.locations.items }
    requires store { locations_top store.now.locations.items ≤ length net.old }
    ensures grown { Grown net.old net.new }
    ensures ok { IfOk result (λ r. DoesName (seen.env here.now).source (seen.env here.now).layout
        net.new store.now.locations.items (want_of want) (type t.now) origin r) }
{
    let place = place_of(layout, net, origin);
    let val = wanted(here, net, store, want, t, &place)?;
    Ok(val)
}

/// The place of a function or a string, which has no cell: what it gives, whatever is wanted of it.
#[tactic(auto, using(crate::proofs::Naming::does_address))]
pub fn addressed(layout: &Lookup, net: &Net, origin: Origin) -> Val
    requires few { length (laid.layout_of layout.now.places.now).locations < 2 ^ 32 }
    ensures { DoesAddress (laid.layout_of layout.now.places.now) net.now origin result }
{
    let place = place_of(layout, net, origin);
    Val::Set(place)
}
