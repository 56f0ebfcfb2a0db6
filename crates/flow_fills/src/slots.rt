//! What is kept in slots, and what is done behind a step whose cells are kept.

ghost use Rattle.std.specs.Prelude.{◌≡◌, ◌<◌, ◌≤◌, ◌^◌, ℕ, nat_eq, true, length, if◌then◌else◌, IfOk, OnOk};
ghost use Rattle.bit_net.specs.Runs.{Grown};
ghost use Rattle.gate_copies.specs.Readings.{readings_top};
ghost use Rattle.flow_turns.specs.Before.{AreGates, IsHere};
ghost use Rattle.flow_turns.specs.Kept.{AreTemps, cells_at, is_filled, slots_top};
ghost use Rattle.flow_fills.specs.Slots.{AreGiven, KeepsIn, SettlesIn};
ghost use Rattle.flow_fills.specs.Merged.{AreMerged};

use crate::readings::merged;
use bit_net::{Gate, Net, OutOfMemory};
use flow_turns::{Arrival, Before, Slot, Temps};
use gate_copies::Reading;
use gate_runs::Ends;

/// A step that a node has made, and the cells that it gives.
#[derive(Drop)]
pub struct Given {
    /// Holds where the step begins.
    pub on: Gate,

    /// Whether it goes on, and how it ended.
    pub ends: Ends,

    /// The cells.
    pub cells: Vec<Reading>,
}

// Whether some node has kept the slot.
fn was_filled(slots: &[Slot], slot: usize) -> bool
    requires { slot < length slots.now }
    ensures { result ≡ is_filled slots.now slot }
{
    slots[slot].kept
}

// Other cells for the slot.
fn set_slot(slots: &mut [Slot], slot: usize, cells: Vec<Reading>)
    requires { slot < length slots.old }
    ensures len { length slots.new ≡ length slots.old }
    ensures filled { (j : ℕ) → is_filled slots.new j ≡ (if nat_eq slot j then true else is_filled slots.old j) }
    ensures cells { (j : ℕ) → cells_at slots.new j ≡ (if nat_eq slot j then cells.items else cells_at slots.old j) }
    ensures top { (n : ℕ) → slots_top slots.old ≤ n → readings_top cells.items ≤ n → slots_top slots.new ≤ n }
{
    slots[slot] = Slot { cells, kept: true };
}

// The cells, where the gate holds, and what the slot has, where not.
fn merged_in(
    net: &mut Net,
    slots: &[Slot],
    when: Gate,
    slot: usize,
    cells: &[Reading],
) -> Result<Vec<Reading>, OutOfMemory>
    requires slot { slot < length slots.now }
    requires slots { slots_top slots.now ≤ length net.old }
    requires when { when.at < length net.old }
    requires cells { readings_top cells.now ≤ length net.old }
    ensures grown { Grown net.old net.new }
    ensures ok { IfOk result (λ r. AreMerged net.new when.at cells.now (cells_at slots.now slot) r.items) }
{
    let both = merged(net, when, cells, slots[slot].cells.as_slice())?;
    Ok(both)
}

// Keeps cells in a slot where the gate holds. Where no node has kept the slot, they are kept everywhere.
#[tactic(auto, using(crate::proofs::KeptCells::first_kept, crate::proofs::KeptCells::kept_again))]
fn keep_in(
    net: &mut Net,
    slots: &mut [Slot],
    when: Gate,
    slot: usize,
    cells: Vec<Reading>,
) -> Result<(), OutOfMemory>
    requires slot { slot < length slots.old }
    requires slots { slots_top slots.old ≤ length net.old }
    requires when { when.at < length net.old }
    requires cells { readings_top cells.items ≤ length net.old }
    ensures grown { Grown net.old net.new }
    ensures len { length slots.new ≡ length slots.old }
    ensures top { OnOk result (slots_top slots.new ≤ length net.new) }
    ensures ok { OnOk result (KeepsIn net.new when.at slot cells.items slots.old slots.new) }
{
    if was_filled(slots, slot) {
        let both = merged_in(net, slots, when, slot, cells.as_slice())?;
        set_slot(slots, slot, both);
        Ok(())
    } else {
        set_slot(slots, slot, cells);
        Ok(())
    }
}

// The same, of all that was kept.
fn keep_among(
    net: &mut Net,
    temps: &mut Temps,
    when: Gate,
    slot: usize,
    cells: Vec<Reading>,
) -> Result<(), OutOfMemory>
    requires temps { AreTemps net.old temps.old }
    requires slot { slot < length temps.old.slots.items }
    requires when { when.at < length net.old }
    requires cells { readings_top cells.items ≤ length net.old }
    ensures grown { Grown net.old net.new }
    ensures temps { OnOk result (AreTemps net.new temps.new) }
    ensures vals { temps.new.vals ≡ temps.old.vals }
    ensures sure { temps.new.sure ≡ temps.old.sure }
    ensures kept { temps.new.kept ≡ temps.old.kept }
    ensures ok { OnOk result (KeepsIn net.new when.at slot cells.items temps.old.slots.items temps.new.slots.items) }
{
    keep_in(net, temps.slots.as_mut_slice(), when, slot, cells)?;
    Ok(())
}

/// Tells how runs ended in a step, keeps the cells that it gave in a slot, and goes on.
pub fn settle(
    before: &mut Before,
    net: &mut Net,
    here: Arrival,
    given: Given,
    slot: usize,
    next: usize,
) -> Result<(), OutOfMemory>
    requires gates { AreGates net.old before.old }
    requires few { length before.old.fates.bads.items < 2 ^ 32 }
    requires here { IsHere net.old here }
    requires given { AreGiven net.old (length before.old.fates.bads.items) given }
    requires slot { slot < length before.old.temps.slots.items }
    ensures grown { Grown net.old net.new }
    ensures gates { OnOk result (AreGates net.new before.new) }
    ensures ok { OnOk result (SettlesIn net.old net.new slot next here given before.old before.new) }
{
    let Given { on, ends, cells } = given;
    let Arrival { ways, gate } = here;
    before.fates.tell(net, &before.store, on, &ends)?;
    keep_among(net, &mut before.temps, gate, slot, cells)?;
    before.ways.come(next, ways)?;
    Ok(())
}
