// The pointers that parameters of a known call point to.

ghost use Rattle.std.specs.Prelude.{◌≡◌, ℕ, ◌<◌, ◌≤◌, length, IfOk, OnOk};
ghost use Rattle.bit_net.specs.Circuit.{input_count};
ghost use Rattle.bit_net.specs.Runs.{Grown};
ghost use Rattle.gl_sets.specs.Guards.{guards_top};
ghost use Rattle.gl_store.specs.Meets.{locations_top};
ghost use Rattle.gate_runs.specs.Stands.{AreEnds};
ghost use Rattle.layout_base.specs.Seen as laid;
ghost use Rattle.run_world.specs.Seen as seen;
ghost use Rattle.gate_paths.specs.Gathered.{AreItemsBelow, put_out, where_item};
ghost use Rattle.gate_sets.specs.Each.{DoesEach, DoesOne};
ghost use Rattle.gate_sets.specs.Outs.{IsChanged, IsOutCell, MarksObject, SetsOuts, set_one};

use crate::writing::{mark_target, pointer_to, store_target};
use bit_net::{Net, OutOfMemory};
use gate_entry::chosen_is;
use gate_paths::Found;
use gate_runs::Ends;
use gl_sets::{Set, join, points};
use gl_store::{Flag, Store, Val};
use layout_base::Spot;
use run_world::Here;

// What the choice says of a pointer takes so many bits.
const KIND_BITS: u32 = 2;

// The numbers that name what a pointer is afterwards.
const NULL: u64 = 0;

const FRESH: u64 = 1;

const OTHER: u64 = 2;

const SAME: u64 = 3;

// The value that a pointer gets: null, or its object.
fn out_cell(here: &Here, net: &mut Net, spot: Spot) -> Result<Val, OutOfMemory>
    requires inputs { (seen.env here.now).layout.bits ≤ input_count net.old }
    ensures grown { Grown net.old net.new }
    ensures ok { IfOk result (λ r. IsOutCell (seen.env here.now).layout net.new (laid.spot_of spot) r) }
{
    let is_null = chosen_is(here, net, spot.bit, KIND_BITS, NULL)?;
    let object = pointer_to(net, spot.object)?;
    let null = Set::one(net, 0);
    let made = join(net, is_null, &null, &object)?;
    Ok(Val::Set(made))
}

// Where a pointer is that gets a value; 0 where it is as before.
fn changed(here: &Here, net: &mut Net, bit: u32, at: &Set) -> Result<Set, OutOfMemory>
    requires inputs { (seen.env here.now).layout.bits ≤ input_count net.old }
    requires at { guards_top at.now.pairs.items ≤ length net.old }
    ensures grown { Grown net.old net.new }
    ensures ok { IfOk result (λ r. IsChanged (seen.env here.now).layout net.new bit at.now.pairs.items r.pairs.items) }
{
    let is_same = chosen_is(here, net, bit, KIND_BITS, SAME)?;
    let none = Set::one(net, 0);
    let made = join(net, is_same, &none, at)?;
    Ok(made)
}

// The object of a pointer that is there is marked, where the choice names the number.
fn mark_object(
    here: &Here,
    net: &mut Net,
    stored: &mut Store,
    ends: &Ends,
    number: u64,
    flag: Flag,
    out: &Found,
) -> Result<(), OutOfMemory>
    requires inputs { (seen.env here.now).layout.bits ≤ input_count net.old }
    requires store { locations_top stored.old.locations.items ≤ length net.old }
    requires ends { AreEnds net.old ends.now }
    requires out { guards_top (where_item out.now) ≤ length net.old }
    ensures grown { Grown net.old net.new }
    ensures ok { OnOk result (MarksObject (seen.env here.now).layout net.new ends.now flag number (laid.spot_of out.now.spot)
        (where_item out.now) stored.old.locations.items stored.new.locations.items) }
{
    let named = chosen_is(here, net, out.spot.bit, KIND_BITS, number)?;
    let there = net.not(points(net, &out.at, 0))?;
    let when = net.and(there, named)?;
    let object = pointer_to(net, out.spot.object)?;
    let null = Set::one(net, 0);
    let marked = join(net, when, &object, &null)?;
    mark_target(net, stored, ends, flag, &marked)?;
    Ok(())
}

// A pointer gets what the choice says, and its object is marked, where the run goes on.
fn set_out(
    here: &Here,
    net: &mut Net,
    stored: &mut Store,
    ends: &Ends,
    out: &Found,
) -> Result<(), OutOfMemory>
    requires inputs { (seen.env here.now).layout.bits ≤ input_count net.old }
    requires store { locations_top stored.old.locations.items ≤ length net.old }
    requires ends { AreEnds net.old ends.now }
    requires out { guards_top (where_item out.now) ≤ length net.old }
    ensures grown { Grown net.old net.new }
    ensures ok { OnOk result (DoesOne (seen.env here.now).source (seen.env here.now).layout net.new ends.now where_item put_out set_one
        out.now stored.old.locations.items stored.new.locations.items) }
{
    let cell = out_cell(here, net, out.spot)?;
    let at = changed(here, net, out.spot.bit, &out.at)?;
    store_target(net, stored, ends, &at, &cell)?;
    mark_object(here, net, stored, ends, FRESH, Flag::Allocated, out)?;
    mark_object(here, net, stored, ends, OTHER, Flag::Escaped, out)?;
    Ok(())
}

/// The pointers of the items get what the choice says, where the run goes on: null, a fresh object, which is then allocated, or another one,
/// which is then known outside; or they are as before. What is missing is left alone. After a refusal of memory the store may be written in
/// part, and is not to be used again.
pub fn set_outs(
    here: &Here,
    net: &mut Net,
    stored: &mut Store,
    ends: &Ends,
    outs: &[Found],
) -> Result<(), OutOfMemory>
    requires inputs { (seen.env here.now).layout.bits ≤ input_count net.old }
    requires store { locations_top stored.old.locations.items ≤ length net.old }
    requires ends { AreEnds net.old ends.now }
    requires outs { AreItemsBelow net.old outs.now }
    ensures grown { Grown net.old net.new }
    ensures ok { OnOk result (SetsOuts (seen.env here.now).source (seen.env here.now).layout net.new ends.now outs.now
        stored.old.locations.items stored.new.locations.items) }
{
    for out in outs {
        set_out(here, net, stored, ends, out)?;
    }
    Ok(())
}
