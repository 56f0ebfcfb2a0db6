// The other written cells of a known call.

ghost use Rattle.std.specs.Prelude.{◌≡◌, ℕ, ◌≤◌, length, map, IfOk, OnOk};
ghost use Rattle.bit_net.specs.Circuit.{input_count};
ghost use Rattle.bit_net.specs.Runs.{Grown};
ghost use Rattle.gl_sets.specs.Guards.{guards_top, targets_of};
ghost use Rattle.gl_store.specs.Meets.{locations_top};
ghost use Rattle.gate_runs.specs.Stands.{AreEnds};
ghost use Rattle.layout_base.specs.Seen as laid;
ghost use Rattle.run_world.specs.Seen as seen;
ghost use Rattle.sc_world.specs.Known.{set_written};
ghost use Rattle.gate_paths.specs.Cells.{AreCellsBelow, put_written, where_cell};
ghost use Rattle.gate_sets.specs.Each.{DoesEach, DoesOne};
ghost use Rattle.gate_sets.specs.Writes as writes;
ghost use Rattle.gate_sets.specs.Writes.{AreTaken, IsWrittenCell, SetsWrites};

use crate::writing::{pointer_to, store_target};
use bit_net::{Net, OutOfMemory};
use gate_entry::{chosen_bit, chosen_number};
use gate_paths::Written;
use gate_runs::Ends;
use gl_sets::{Pair, Set, join, moved};
use gl_store::{Store, Val};
use layout_base::{Kind, Spot};
use run_entry::integer_bits;
use run_world::Here;
use sc_gather::{is_integer, is_pointer};
use std::alloc::Global;

// Whether a location is a pointer cell, or one of numbers of that width; 0 is the width of pointers.
fn takes(here: &Here, kind: Kind, width: u32) -> bool
    ensures { result ≡ writes.takes (seen.env here.now).source (laid.type_of kind.entry) width }
{
    match kind {
        Kind::Stub | Kind::Void => false,
        Kind::Of(t) => {
            if is_pointer(t) {
                width == 0
            } else {
                is_integer(t) && width != 0 && integer_bits(here, t) == width
            }
        }
    }
}

// A target whose location takes the width; another one goes to 0.
#[tactic(auto, unfolding(run_world::specs::Seen::env))]
fn taken_target(here: &Here, width: u32, target: u32) -> u32
    ensures { result ≡ writes.taken_target (seen.env here.now).source (seen.env here.now).layout width target }
{
    if target == 0 {
        return 0;
    }
    if takes(here, here.places.location(target - 1).kind, width) {
        target
    } else {
        0
    }
}

// Where the target of each pair goes.
fn taken_targets(
    here: &Here,
    alloc: Global,
    width: u32,
    pairs: &[Pair],
) -> Result<Vec<u32>, OutOfMemory>
    ensures { IfOk result (λ r. map (λ t. writes.taken_target (seen.env here.now).source (seen.env here.now).layout width t)
        (targets_of pairs.now) ≡ r.items) }
{
    let mut targets = Vec::new(alloc);
    for pair in pairs {
        targets.push(taken_target(here, width, pair.target))?;
    }
    Ok(targets)
}

// The locations of a set that take the width.
fn taken(here: &Here, net: &mut Net, width: u32, at: &Set) -> Result<Set, OutOfMemory>
    requires at { guards_top at.now.pairs.items ≤ length net.old }
    ensures grown { Grown net.old net.new }
    ensures ok { IfOk result (λ r. AreTaken (seen.env here.now).source (seen.env here.now).layout net.new width
        at.now.pairs.items r.pairs.items) }
{
    let targets = taken_targets(here, net.alloc(), width, at.pairs.as_slice())?;
    let made = moved(net, at, targets.as_slice())?;
    Ok(made)
}

// The pointer that a bit of the choice gives: to the object, or null.
fn written_pointer(here: &Here, net: &mut Net, spot: Spot) -> Result<Val, OutOfMemory>
    requires inputs { (seen.env here.now).layout.bits ≤ input_count net.old }
    ensures grown { Grown net.old net.new }
    ensures ok { IfOk result (λ r. IsWrittenCell (seen.env here.now).source (seen.env here.now).layout net.new 0 (laid.spot_of spot) r) }
{
    let object = pointer_to(net, spot.object)?;
    let null = Set::one(net, 0);
    let bit = chosen_bit(here, net, spot.bit as usize);
    let made = join(net, bit, &object, &null)?;
    Ok(Val::Set(made))
}

// The value that the choice gives to a written cell.
#[tactic(auto, using(crate::proofs::Filling::zero_written, crate::proofs::Filling::number_written))]
fn written_cell(here: &Here, net: &mut Net, width: u32, spot: Spot) -> Result<Val, OutOfMemory>
    requires inputs { (seen.env here.now).layout.bits ≤ input_count net.old }
    ensures grown { Grown net.old net.new }
    ensures ok { IfOk result (λ r. IsWrittenCell (seen.env here.now).source (seen.env here.now).layout net.new width (laid.spot_of spot) r) }
{
    if width == 0 {
        let pointer = written_pointer(here, net, spot)?;
        Ok(pointer)
    } else {
        let word = chosen_number(here, net, spot.bit, width)?;
        Ok(Val::Word(word))
    }
}

// A cell gets what the choice says, where the run goes on; a cell of another width is left alone.
fn set_written(
    here: &Here,
    net: &mut Net,
    stored: &mut Store,
    ends: &Ends,
    x: &Written,
) -> Result<(), OutOfMemory>
    requires inputs { (seen.env here.now).layout.bits ≤ input_count net.old }
    requires store { locations_top stored.old.locations.items ≤ length net.old }
    requires ends { AreEnds net.old ends.now }
    requires x { guards_top (where_cell x.now) ≤ length net.old }
    ensures grown { Grown net.old net.new }
    ensures ok { OnOk result (DoesOne (seen.env here.now).source (seen.env here.now).layout net.new ends.now where_cell put_written set_written
        x.now stored.old.locations.items stored.new.locations.items) }
{
    let cell = written_cell(here, net, x.width, x.spot)?;
    let at = taken(here, net, x.width, &x.at)?;
    store_target(net, stored, ends, &at, &cell)?;
    Ok(())
}

/// The cells get what the choice says, where the run goes on: a number of the width, or a pointer to the object or null. What is missing, and
/// a cell of another width, is left alone. After a refusal of memory the store may be written in part, and is not to be used again.
pub fn set_writes(
    here: &Here,
    net: &mut Net,
    stored: &mut Store,
    ends: &Ends,
    writes: &[Written],
) -> Result<(), OutOfMemory>
    requires inputs { (seen.env here.now).layout.bits ≤ input_count net.old }
    requires store { locations_top stored.old.locations.items ≤ length net.old }
    requires ends { AreEnds net.old ends.now }
    requires writes { AreCellsBelow net.old writes.now }
    ensures grown { Grown net.old net.new }
    ensures ok { OnOk result (SetsWrites (seen.env here.now).source (seen.env here.now).layout net.new ends.now writes.now
        stored.old.locations.items stored.new.locations.items) }
{
    for x in writes {
        set_written(here, net, stored, ends, x)?;
    }
    Ok(())
}
