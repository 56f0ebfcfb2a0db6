//! Pointers that are followed.

ghost use Rattle.std.specs.Prelude.{◌≡◌, ℕ, ◌≤◌, length, OnOk};
ghost use Rattle.bit_net.specs.Runs.{Grown};
ghost use Rattle.gl_sets.specs.Guards.{guards_top};
ghost use Rattle.gl_store.specs.Meets.{locations_top};
ghost use Rattle.gate_runs.specs.Stands.{AreEnds};
ghost use Rattle.layout_base.specs.Seen as laid;
ghost use Rattle.sc_world.specs.View.{type};
ghost use Rattle.gate_places.specs.Places.{DoesFollow, DoesReach};

use crate::checks::{Check, check_target};
use bit_net::{Net, OutOfMemory};
use gate_runs::Ends;
use gl_sets::Set;
use gl_store::Store;
use layout_base::Places;
use sc_tree::ctype::CType;

/// The run goes on where the pointer leads to a location, of whatever type, and is set aside where it is null, leads to a stub or to
/// a freed object. Of several reasons the first counts.
pub fn reach(
    places: &Places,
    net: &mut Net,
    store: &Store,
    ends: &mut Ends,
    pointer: &Set,
) -> Result<(), OutOfMemory>
    requires store { locations_top store.now.locations.items ≤ length net.old }
    requires ends { AreEnds net.old ends.old }
    requires pointer { guards_top pointer.now.pairs.items ≤ length net.old }
    ensures grown { Grown net.old net.new }
    ensures ready { OnOk result (AreEnds net.new ends.new) }
    ensures locations { length ends.new.bads.items ≡ length ends.old.bads.items }
    ensures ok { OnOk result (DoesReach net.new (laid.layout_of places.now)
        store.now.locations.items pointer.now.pairs.items ends.old ends.new) }
{
    // None of these checks asks for the type.
    let t = CType::Void;
    check_target(places, net, store, ends, Check::Null, &t, pointer)?;
    check_target(places, net, store, ends, Check::Reach, &t, pointer)?;
    check_target(places, net, store, ends, Check::Freed, &t, pointer)?;
    Ok(())
}

/// The run goes on where the pointer leads to a location of the type, and is set aside where it is null, leads to a stub or
/// to a freed object, or to a location of another type. Of several reasons the first counts.
pub fn dereference(
    places: &Places,
    net: &mut Net,
    store: &Store,
    ends: &mut Ends,
    t: &CType,
    pointer: &Set,
) -> Result<(), OutOfMemory>
    requires store { locations_top store.now.locations.items ≤ length net.old }
    requires ends { AreEnds net.old ends.old }
    requires pointer { guards_top pointer.now.pairs.items ≤ length net.old }
    ensures grown { Grown net.old net.new }
    ensures ready { OnOk result (AreEnds net.new ends.new) }
    ensures locations { length ends.new.bads.items ≡ length ends.old.bads.items }
    ensures ok { OnOk result (DoesFollow net.new (laid.layout_of places.now) (type t.now)
        store.now.locations.items pointer.now.pairs.items ends.old ends.new) }
{
    check_target(places, net, store, ends, Check::Null, t, pointer)?;
    check_target(places, net, store, ends, Check::Reach, t, pointer)?;
    check_target(places, net, store, ends, Check::Freed, t, pointer)?;
    check_target(places, net, store, ends, Check::Type, t, pointer)?;
    Ok(())
}
