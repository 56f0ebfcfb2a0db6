// The rows of locations.

ghost use Rattle.std.specs.Prelude.{◌≡◌, ◌≤◌, length, IfOk};
ghost use Rattle.bit_net.specs.Circuit.{input_count};
ghost use Rattle.bit_net.specs.Runs.{Grown};
ghost use Rattle.bit_words.specs.Number.{top};
ghost use Rattle.gl_sets.specs.Guards.{guards_top};
ghost use Rattle.gl_store.specs.Meets.{locations_top};
ghost use Rattle.sc_world.specs.World as spec;
ghost use Rattle.run_world.specs.Seen as seen;
ghost use Rattle.gate_paths.specs.Gathered.{AreItemsBelow};
ghost use Rattle.gate_rows.specs.Sought.{IsOutcomeBelow};
ghost use Rattle.gate_stands.specs.Items.{IsLockRow, LockStands, LocksStand};

use crate::sought::sought_row;
use bit_net::{Gate, Net, OutOfMemory};
use gate_paths::Found;
use gate_rows::{Outcome, Side, has_row};
use gate_states::{state_after, state_before, states};
use gl_sets::points;
use gl_store::Store;
use run_world::Here;
use sum_rows::Row;

// How many states the machine has. No memory has room for 2^32.
fn state_count(here: &Here) -> Result<u32, OutOfMemory>
    ensures { IfOk result (λ n. n ≡ spec.states (seen.env here.now).source) }
{
    match u32::try_from(states(here)) {
        Err(_) => Err(OutOfMemory),
        Ok(count) => Ok(count),
    }
}

// Holds where the row stands that leads from the state that the first bits spell, of so many states, to that of the others.
fn lock_row<'x>(
    net: &mut Net,
    given: &'x [Gate],
    before: &'x [Gate],
    count: u32,
    outcome: Outcome,
    after: &'x [Gate],
    rows: &[Row],
) -> Result<Gate, OutOfMemory>
    requires given { top given.now ≤ length net.old }
    requires before { top before.now ≤ length net.old }
    requires outcome { IsOutcomeBelow net.old outcome }
    requires after { top after.now ≤ length net.old }
    ensures grown { Grown net.old net.new }
    ensures ok { IfOk result (λ r. IsLockRow net.new given.now before.now count outcome after.now rows.now r.at) }
{
    let from = Side::From(before, count);
    let to = Side::Numbered(after);
    let sought = sought_row(given, from, outcome, to);
    let r = has_row(net, &sought, rows)?;
    Ok(r)
}

// Holds where the row of a location stands that the choice needs, and where the location is missing.
fn lock_stands(
    here: &Here,
    net: &mut Net,
    store: &Store,
    given: &[Gate],
    outcome: Outcome,
    lock: &Found,
) -> Result<Gate, OutOfMemory>
    requires inputs { (seen.env here.now).layout.bits ≤ input_count net.old }
    requires store { locations_top store.now.locations.items ≤ length net.old }
    requires given { top given.now ≤ length net.old }
    requires outcome { IsOutcomeBelow net.old outcome }
    requires lock { guards_top lock.now.at.pairs.items ≤ length net.old }
    ensures grown { Grown net.old net.new }
    ensures ok { IfOk result (λ r. LockStands (seen.env here.now).source (seen.env here.now).layout net.new
        store.now.locations.items given.now outcome lock.now r.at) }
{
    let count = state_count(here)?;
    let before = state_before(here, net, store, &lock.at)?;
    let after = state_after(here, net, lock.spot.bit)?;
    let row = lock_row(
        net,
        given,
        &before.bits,
        count,
        outcome,
        &after.bits,
        lock.rows,
    )?;
    let r = net.or(points(net, &lock.at, 0), row)?;
    Ok(r)
}

/// Holds where the row of each location stands that the choice needs, but for those that are missing.
pub fn locks_stand(
    here: &Here,
    net: &mut Net,
    store: &Store,
    given: &[Gate],
    outcome: Outcome,
    locks: &[Found],
) -> Result<Gate, OutOfMemory>
    requires inputs { (seen.env here.now).layout.bits ≤ input_count net.old }
    requires store { locations_top store.now.locations.items ≤ length net.old }
    requires given { top given.now ≤ length net.old }
    requires outcome { IsOutcomeBelow net.old outcome }
    requires locks { AreItemsBelow net.old locks.now }
    ensures grown { Grown net.old net.new }
    ensures ok { IfOk result (λ r. LocksStand (seen.env here.now).source (seen.env here.now).layout net.new
        store.now.locations.items given.now outcome locks.now r.at) }
{
    let mut all = net.constant(true);
    for lock in locks {
        let one = lock_stands(here, net, store, given, outcome, lock)?;
        let more = net.and(all, one)?;
        all = more;
    }
    Ok(all)
}
