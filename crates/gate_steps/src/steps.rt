//! The single steps of a run on its store, as gates.

ghost use Rattle.std.specs.Prelude.{◌≡◌, ℕ, ◌<◌, ◌≤◌, length, IfOk, OnOk, OnErr};
ghost use Rattle.bit_net.specs.Runs.{Grown};
ghost use Rattle.gl_sets.specs.Guards.{guards_top};
ghost use Rattle.run_store.specs.Concrete.{width_kind};
ghost use Rattle.gl_store.specs.Meets.{val_top, locations_top};
ghost use Rattle.gate_runs.specs.Stands.{AreEnds};
ghost use Rattle.gate_steps.specs.Steps.{DoesLoad, DoesMark, DoesRead, DoesStore, GoesOnWhere};

use bit_net::{Gate, Net, OutOfMemory};
use gate_runs::Ends;
use gl_sets::Set;
use gl_store::{Flag, Location, Store, Val};
use sc_world::Reason;

/// What the place to which `at` points has, of which a cell has that width: 0 for none, 255 for a pointer.
pub fn load(net: &mut Net, store: &Store, at: &Set, width: u32) -> Result<Val, OutOfMemory>
    requires store { locations_top store.now.locations.items ≤ length net.old }
    requires at { guards_top at.now.pairs.items ≤ length net.old }
    ensures grown { Grown net.old net.new }
    ensures ok { IfOk result (λ r. DoesLoad net.new store.now.locations.items at.now.pairs.items (width_kind width) r) }
{
    let val = store.load(net, at, width)?;
    Ok(val)
}

/// What the location with that number has; nothing where there is none. Whatever its kind, this is what the run reads there.
pub fn read(net: &Net, store: &Store, at: u32) -> Result<Val, OutOfMemory>
    requires store { locations_top store.now.locations.items ≤ length net.now }
    ensures { IfOk result (λ r. DoesRead net.now store.now.locations.items at r) }
{
    read_from(net, &store.locations, at as usize)
}

// What the location with that number has.
fn read_from(net: &Net, locations: &[Location], at: usize) -> Result<Val, OutOfMemory>
    requires { locations_top locations.now ≤ length net.now }
    ensures { IfOk result (λ r. DoesRead net.now locations.now at r) }
{
    if at < locations.len() {
        let val = locations[at].val.try_clone(net)?;
        Ok(val)
    } else {
        Ok(Val::Unit)
    }
}

/// The value is written to the place to which `at` points, which is marked as written, where the run goes on. After a
/// refusal of memory the store may be written in part, and is not to be used again.
pub fn store(
    net: &mut Net,
    store: &mut Store,
    ends: &Ends,
    at: &Set,
    val: &Val,
) -> Result<(), OutOfMemory>
    requires store { locations_top store.old.locations.items ≤ length net.old }
    requires ends { AreEnds net.old ends.now }
    requires at { guards_top at.now.pairs.items ≤ length net.old }
    requires val { val_top val.now ≤ length net.old }
    ensures grown { Grown net.old net.new }
    ensures ok { OnOk result (DoesStore net.new ends.now at.now.pairs.items val.now store.old.locations.items store.new.locations.items) }
{
    store.store(net, ends.live, at, val)?;
    store.mark_where(net, ends.live, at, Flag::Written)?;
    Ok(())
}

/// The place to which `at` points is marked, where the run goes on. After a refusal of memory the store may be marked in
/// part, and is not to be used again.
pub fn mark(
    net: &mut Net,
    store: &mut Store,
    ends: &Ends,
    at: &Set,
    flag: Flag,
) -> Result<(), OutOfMemory>
    requires store { locations_top store.old.locations.items ≤ length net.old }
    requires ends { AreEnds net.old ends.now }
    requires at { guards_top at.now.pairs.items ≤ length net.old }
    ensures grown { Grown net.old net.new }
    ensures ok { OnOk result (DoesMark net.new ends.now at.now.pairs.items flag store.old.locations.items store.new.locations.items) }
{
    store.mark_where(net, ends.live, at, flag)?;
    Ok(())
}

/// The run goes on where the gate holds, and is set aside for that reason where not. After a refusal of memory the gates
/// of the run are as they were.
pub fn unless(
    net: &mut Net,
    ends: &mut Ends,
    holds: Gate,
    reason: Reason,
) -> Result<(), OutOfMemory>
    requires ends { AreEnds net.old ends.old }
    requires holds { holds.at < length net.old }
    ensures grown { Grown net.old net.new }
    ensures ready { OnOk result (AreEnds net.new ends.new) }
    ensures locations { length ends.new.bads.items ≡ length ends.old.bads.items }
    ensures ok { OnOk result (GoesOnWhere net.new holds.at reason ends.old ends.new) }
    ensures err { OnErr result (ends.new ≡ ends.old) }
{
    let fails = net.not(holds)?;
    ends.end_where(net, fails, reason)?;
    Ok(())
}
