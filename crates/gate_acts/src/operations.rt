//! Operations of the machine.

ghost use Rattle.std.specs.Prelude.{◌≡◌, ℕ, ◌<◌, ◌≤◌, length, IfOk, OnOk};
ghost use Rattle.bit_net.specs.Runs.{Grown};
ghost use Rattle.bit_words.specs.Number.{top};
ghost use Rattle.fsm_spec.specs.Table.{IsWhole};
ghost use Rattle.gl_sets.specs.Guards.{guards_top};
ghost use Rattle.gl_store.specs.Meets.{locations_top, val_top};
ghost use Rattle.gate_runs.specs.Stands.{AreEnds};
ghost use Rattle.sc_world.specs.View.{type};
ghost use Rattle.run_world.specs.Seen as seen;
ghost use Rattle.gate_acts.specs.Tables.{IsTable, led_to};
ghost use Rattle.gate_acts.specs.Acts.{DoesOperation, GoesAt, OperatesAt, OperatesEach, OperatesTarget};

use crate::tables::{Table, table_of};
use crate::values::{pointer_of, state_cell, zero_of};
use bit_net::{Gate, Net, OutOfMemory};
use fsm_spec::MachineSpec;
use gate_places::reach;
use gate_runs::Ends;
use gate_steps::mark;
use gl_sets::Pair;
use gl_store::{Flag, Store, Val};
use run_world::Here;
use sc_tree::ctype::CType;

// Where an operation leads from the state of a location.
#[tactic(auto, unfolding(run_world::specs::Seen::env, layout_base::specs::Seen::ground_of, sc_gather::specs::Seen::source_of, sc_world::specs::Programs::source_by))]
fn machine_of<'m>(here: &Here<'_, 'm, '_>) -> &'m MachineSpec
    ensures { result.now ≡ (seen.env here.now).source.machine }
{
    here.ground.here.machine
}

// Where `guard` holds and the run goes on, a location goes to the state of the table, or the run ends there by an error where the table
// has none.
fn goes_at(
    here: &Here,
    net: &mut Net,
    stored: &mut Store,
    ends: &mut Ends,
    table: Table,
    at: u32,
    guard: Gate,
) -> Result<(), OutOfMemory>
    requires store { locations_top stored.old.locations.items ≤ length net.old }
    requires ends { AreEnds net.old ends.old }
    requires guard { guard.at < length net.old }
    requires at { at < length ends.old.bads.items }
    requires known { table.known.at < length net.old }
    requires state { top table.state.bits.items ≤ length net.old }
    requires wide { length table.state.bits.items ≡ 4 }
    ensures grown { Grown net.old net.new }
    ensures ready { OnOk result (AreEnds net.new ends.new) }
    ensures locations { length ends.new.bads.items ≡ length ends.old.bads.items }
    ensures ok { OnOk result (GoesAt (seen.env here.now).source (seen.env here.now).layout net.new at guard.at table
        stored.old.locations.items stored.new.locations.items ends.old ends.new) }
{
    let none = net.not(table.known)?;
    let fails = net.and(guard, none)?;
    ends.fail_where(net, fails, at)?;
    let when = net.and(ends.live, guard)?;
    stored.put_where(net, when, state_cell(here, at), &Val::Word(table.state))?;
    Ok(())
}

// An operation on a location, where `guard` holds and the run goes on.
fn operate_at(
    here: &Here,
    net: &mut Net,
    stored: &mut Store,
    ends: &mut Ends,
    operation: usize,
    at: u32,
    guard: Gate,
) -> Result<(), OutOfMemory>
    requires whole { IsWhole (seen.env here.now).source.machine }
    requires store { locations_top stored.old.locations.items ≤ length net.old }
    requires ends { AreEnds net.old ends.old }
    requires guard { guard.at < length net.old }
    requires at { at < length ends.old.bads.items }
    ensures grown { Grown net.old net.new }
    ensures ready { OnOk result (AreEnds net.new ends.new) }
    ensures locations { length ends.new.bads.items ≡ length ends.old.bads.items }
    ensures ok { OnOk result (OperatesAt (seen.env here.now).source (seen.env here.now).layout net.new operation at guard.at
        stored.old.locations.items stored.new.locations.items ends.old ends.new) }
{
    let bits = stored.word_at(state_cell(here, at));
    let table = table_of(machine_of(here), net, operation, bits)?;
    goes_at(here, net, stored, ends, table, at, guard)?;
    Ok(())
}

// An operation on the target of a pair, where its guard holds and the run goes on; nothing for null and for what is no location.
fn operate_target(
    here: &Here,
    net: &mut Net,
    stored: &mut Store,
    ends: &mut Ends,
    operation: usize,
    pair: Pair,
) -> Result<(), OutOfMemory>
    requires whole { IsWhole (seen.env here.now).source.machine }
    requires store { locations_top stored.old.locations.items ≤ length net.old }
    requires ends { AreEnds net.old ends.old }
    requires guard { pair.guard.at < length net.old }
    ensures grown { Grown net.old net.new }
    ensures ready { OnOk result (AreEnds net.new ends.new) }
    ensures locations { length ends.new.bads.items ≡ length ends.old.bads.items }
    ensures ok { OnOk result (OperatesTarget (seen.env here.now).source (seen.env here.now).layout net.new operation
        (length ends.old.bads.items) pair stored.old.locations.items stored.new.locations.items ends.old ends.new) }
{
    let target = pair.target;
    if target == 0 || target as usize > ends.bads.len() {
        return Ok(());
    }
    let at = target - 1;
    operate_at(here, net, stored, ends, operation, at, pair.guard)?;
    Ok(())
}

// An operation on the target of each pair, where its guard holds and the run goes on.
fn operate_each(
    here: &Here,
    net: &mut Net,
    stored: &mut Store,
    ends: &mut Ends,
    operation: usize,
    pairs: &[Pair],
) -> Result<(), OutOfMemory>
    requires whole { IsWhole (seen.env here.now).source.machine }
    requires store { locations_top stored.old.locations.items ≤ length net.old }
    requires ends { AreEnds net.old ends.old }
    requires guards { guards_top pairs.now ≤ length net.old }
    ensures grown { Grown net.old net.new }
    ensures ready { OnOk result (AreEnds net.new ends.new) }
    ensures locations { OnOk result (length ends.new.bads.items ≡ length ends.old.bads.items) }
    ensures ok { OnOk result (OperatesEach (seen.env here.now).source (seen.env here.now).layout net.new operation
        (length ends.old.bads.items) pairs.now stored.old.locations.items stored.new.locations.items ends.old ends.new) }
{
    for pair in pairs {
        operate_target(here, net, stored, ends, operation, *pair)?;
    }
    Ok(())
}

/// An operation of the machine on what a value points to. It is set aside where that is null, a stub or freed; else the location is
/// touched and goes to another state, or the run ends there by an error. After a refusal of memory neither store nor gates of the run are
/// to be used again.
pub fn operation(
    here: &Here,
    net: &mut Net,
    stored: &mut Store,
    ends: &mut Ends,
    t: &CType,
    operation: usize,
    val: &Val,
) -> Result<Val, OutOfMemory>
    requires whole { IsWhole (seen.env here.now).source.machine }
    requires store { locations_top stored.old.locations.items ≤ length net.old }
    requires ends { AreEnds net.old ends.old }
    requires bads { length ends.old.bads.items ≡ length (seen.env here.now).layout.locations }
    requires val { val_top val.now ≤ length net.old }
    ensures grown { Grown net.old net.new }
    ensures ready { IfOk result (λ r. AreEnds net.new ends.new) }
    ensures locations { IfOk result (λ r. length ends.new.bads.items ≡ length ends.old.bads.items) }
    ensures ok { IfOk result (λ r. DoesOperation (seen.env here.now).source (seen.env here.now).layout net.new (type t.now) operation val.now
        stored.old.locations.items stored.new.locations.items ends.old ends.new r) }
{
    let pointer = pointer_of(net, val)?;
    reach(here.places, net, stored, ends, &pointer)?;
    mark(net, stored, ends, &pointer, Flag::Touched)?;
    operate_each(here, net, stored, ends, operation, pointer.pairs.as_slice())?;
    let r = zero_of(here, net, t)?;
    Ok(r)
}
