//! Objects that are freed (C11 7.22.3.3).

ghost use Rattle.std.specs.Prelude.{◌≡◌, ℕ, ◌≤◌, length, IfOk, OnOk};
ghost use Rattle.bit_net.specs.Runs.{Grown};
ghost use Rattle.gl_store.specs.Meets.{locations_top, val_top};
ghost use Rattle.gate_runs.specs.Stands.{AreEnds};
ghost use Rattle.sc_world.specs.Known as known;
ghost use Rattle.layout_base.specs.Seen as laid;
ghost use Rattle.run_world.specs.Seen as seen;
ghost use Rattle.gate_places.specs.Checks.{HaveTests, IsTest};
ghost use Rattle.gate_objects.specs.Releases.{DoesFree, DoesRelease, stays, stays_at};

use crate::marks::mark_target;
use bit_net::{Gate, Net, OutOfMemory};
use gate_acts::pointer_of;
use gate_runs::Ends;
use gl_sets::{Pair, where_target};
use gl_store::{Flag, Store, Val};
use layout_base::Location;
use run_world::Here;
use sc_world::{Origin, Reason};

// Objects that a call gave, or that a pointer pointed to at entry.
fn from_heap(origin: Origin) -> bool
    ensures { result ≡ known.from_heap origin }
{
    match origin {
        Origin::Target(_) | Origin::Call(_) => true,
        Origin::Param(_)
        | Origin::Global(_)
        | Origin::Local(_)
        | Origin::Literal(_)
        | Origin::Function(_)
        | Origin::Part(_, _) => false,
    }
}

// Whether the location is a whole object that may be freed.
fn may_free(location: &Location, at: u32) -> bool
    ensures { result ≡ known.may_free (laid.location_of location.now) at }
{
    location.root == at && from_heap(location.origin)
}

// Holds where the location cannot be freed: its object was freed, or it is no whole object that may be.
#[tactic(auto, unfolding(run_world::specs::Seen::env))]
fn location_stays(here: &Here, net: &Net, stored: &Store, at: u32) -> Gate
    requires store { locations_top stored.now.locations.items ≤ length net.now }
    ensures { IsTest net.now stored.now.locations.items (λ ps. stays_at (seen.env here.now).layout ps at) result.at }
{
    let location = here.places.location(at);
    if may_free(&location, at) {
        stored.flag_anywhere(net, location.root, Flag::Freed)
    } else {
        net.constant(true)
    }
}

// Holds where the target cannot be freed; to free null does nothing.
fn target_stays(here: &Here, net: &Net, stored: &Store, target: u32) -> Gate
    requires store { locations_top stored.now.locations.items ≤ length net.now }
    ensures { IsTest net.now stored.now.locations.items (λ ps. stays (seen.env here.now).layout ps target) result.at }
{
    if target == 0 {
        net.constant(false)
    } else {
        location_stays(here, net, stored, target - 1)
    }
}

// For each pair a gate that holds where its target cannot be freed.
fn targets_stay(
    here: &Here,
    net: &Net,
    stored: &Store,
    pairs: &[Pair],
) -> Result<Vec<Gate>, OutOfMemory>
    requires store { locations_top stored.now.locations.items ≤ length net.now }
    ensures { IfOk result (λ r. HaveTests net.now stored.now.locations.items
        (λ ps target. stays (seen.env here.now).layout ps target) pairs.now r.items) }
{
    let mut tests = Vec::new(net.alloc());
    for pair in pairs {
        let test = target_stays(here, net, stored, pair.target);
        tests.push(test)?;
    }
    Ok(tests)
}

/// Frees what a value points to, where the run goes on; nothing of null. The run is set aside where that was freed already, and where it is
/// no whole object that a call gave or that a pointer pointed to at entry. After a refusal of memory neither store nor gates of the run are
/// to be used again.
pub fn free(
    here: &Here,
    net: &mut Net,
    stored: &mut Store,
    ends: &mut Ends,
    val: &Val,
) -> Result<(), OutOfMemory>
    requires store { locations_top stored.old.locations.items ≤ length net.old }
    requires ends { AreEnds net.old ends.old }
    requires val { val_top val.now ≤ length net.old }
    ensures grown { Grown net.old net.new }
    ensures ready { OnOk result (AreEnds net.new ends.new) }
    ensures locations { OnOk result (length ends.new.bads.items ≡ length ends.old.bads.items) }
    ensures ok { OnOk result (DoesFree (seen.env here.now).layout net.new val.now
        stored.old.locations.items stored.new.locations.items ends.old ends.new) }
{
    let pointer = pointer_of(net, val)?;
    let tests = targets_stay(here, net, stored, pointer.pairs.as_slice())?;
    let stays = where_target(net, &pointer, tests.as_slice())?;
    ends.end_where(net, stays, Reason::Freed)?;
    mark_target(net, stored, ends, Flag::Freed, &pointer)?;
    Ok(())
}

/// The call of a function that frees what a value points to, as `free` does it; it gives nothing.
pub fn release(
    here: &Here,
    net: &mut Net,
    stored: &mut Store,
    ends: &mut Ends,
    val: &Val,
) -> Result<Val, OutOfMemory>
    requires store { locations_top stored.old.locations.items ≤ length net.old }
    requires ends { AreEnds net.old ends.old }
    requires val { val_top val.now ≤ length net.old }
    ensures grown { Grown net.old net.new }
    ensures ready { IfOk result (λ r. AreEnds net.new ends.new) }
    ensures locations { IfOk result (λ r. length ends.new.bads.items ≡ length ends.old.bads.items) }
    ensures ok { IfOk result (λ r. DoesRelease (seen.env here.now).layout net.new val.now
        stored.old.locations.items stored.new.locations.items ends.old ends.new r) }
{
    free(here, net, stored, ends, val)?;
    Ok(Val::Unit)
}
