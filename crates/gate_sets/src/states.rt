// The states of the locations of a known call.

ghost use Rattle.std.specs.Prelude.{◌≡◌, ℕ, ◌≤◌, length, map, IfOk, OnOk};
ghost use Rattle.bit_net.specs.Circuit.{input_count};
ghost use Rattle.bit_net.specs.Runs.{Grown};
ghost use Rattle.gl_sets.specs.Guards.{guards_top, targets_of};
ghost use Rattle.gl_store.specs.Meets.{locations_top};
ghost use Rattle.gate_runs.specs.Stands.{AreEnds};
ghost use Rattle.run_world.specs.Seen as seen;
ghost use Rattle.gate_paths.specs.Gathered.{AreItemsBelow, put_locked, where_item};
ghost use Rattle.gate_sets.specs.Each.{DoesEach, DoesOne};
ghost use Rattle.gate_sets.specs.States.{AreStatesOf, SetsStates, set_one, state_target};

use crate::writing::{mark_target, put_target};
use bit_net::{Net, OutOfMemory};
use gate_paths::Found;
use gate_runs::Ends;
use gate_states::{state_after, state_cell};
use gl_sets::{Pair, Set, moved};
use gl_store::{Flag, Store, Val};
use run_world::Here;
use std::alloc::Global;

// The target of the state of a location; what is missing has none. No memory has room for 2^32 locations.
fn state_target(here: &Here, target: u32) -> Result<u32, OutOfMemory>
    ensures { IfOk result (λ r. r ≡ state_target (length (seen.env here.now).layout.locations) target) }
{
    if target == 0 {
        return Ok(0);
    }
    let Ok(cell) = u32::try_from(state_cell(here, target - 1)) else {
        return Err(OutOfMemory);
    };
    let Some(state) = cell.checked_add(1) else {
        return Err(OutOfMemory);
    };
    Ok(state)
}

// For each pair the target of the state of its location.
fn state_targets(here: &Here, alloc: Global, pairs: &[Pair]) -> Result<Vec<u32>, OutOfMemory>
    ensures { IfOk result (λ r. map (λ t. state_target (length (seen.env here.now).layout.locations) t) (targets_of pairs.now) ≡ r.items) }
{
    let mut targets = Vec::new(alloc);
    for pair in pairs {
        let target = state_target(here, pair.target)?;
        targets.push(target)?;
    }
    Ok(targets)
}

// The set of the states of the locations of a set.
fn states_of(here: &Here, net: &mut Net, at: &Set) -> Result<Set, OutOfMemory>
    requires at { guards_top at.now.pairs.items ≤ length net.old }
    ensures grown { Grown net.old net.new }
    ensures ok { IfOk result (λ r. AreStatesOf (seen.env here.now).layout net.new at.now.pairs.items r.pairs.items) }
{
    let targets = state_targets(here, net.alloc(), at.pairs.as_slice())?;
    let states = moved(net, at, targets.as_slice())?;
    Ok(states)
}

// A location gets the state that the choice names, and is touched, where the run goes on.
fn set_state(
    here: &Here,
    net: &mut Net,
    stored: &mut Store,
    ends: &Ends,
    lock: &Found,
) -> Result<(), OutOfMemory>
    requires inputs { (seen.env here.now).layout.bits ≤ input_count net.old }
    requires store { locations_top stored.old.locations.items ≤ length net.old }
    requires ends { AreEnds net.old ends.now }
    requires lock { guards_top (where_item lock.now) ≤ length net.old }
    ensures grown { Grown net.old net.new }
    ensures ok { OnOk result (DoesOne (seen.env here.now).source (seen.env here.now).layout net.new ends.now where_item put_locked set_one
        lock.now stored.old.locations.items stored.new.locations.items) }
{
    let after = state_after(here, net, lock.spot.bit)?;
    let states = states_of(here, net, &lock.at)?;
    put_target(net, stored, ends, &states, &Val::Word(after))?;
    mark_target(net, stored, ends, Flag::Touched, &lock.at)?;
    Ok(())
}

/// The locations of the items get the states that the choice names, and are touched, where the run goes on; what is missing is left alone.
/// After a refusal of memory the store may be written in part, and is not to be used again.
pub fn set_states(
    here: &Here,
    net: &mut Net,
    stored: &mut Store,
    ends: &Ends,
    locks: &[Found],
) -> Result<(), OutOfMemory>
    requires inputs { (seen.env here.now).layout.bits ≤ input_count net.old }
    requires store { locations_top stored.old.locations.items ≤ length net.old }
    requires ends { AreEnds net.old ends.now }
    requires locks { AreItemsBelow net.old locks.now }
    ensures grown { Grown net.old net.new }
    ensures ok { OnOk result (SetsStates (seen.env here.now).source (seen.env here.now).layout net.new ends.now locks.now
        stored.old.locations.items stored.new.locations.items) }
{
    for lock in locks {
        set_state(here, net, stored, ends, lock)?;
    }
    Ok(())
}
