//! Nodes that set the parts of a local to kept cells, and the rest to 0 or null (C11 6.7.9).

ghost use Rattle.std.specs.Prelude.{◌≡◌, ◌+◌, ◌<◌, ◌≤◌, ◌^◌, length, OnOk};
ghost use Rattle.bit_net.specs.Runs.{Grown};
ghost use Rattle.gl_store.specs.Meets.{locations_top};
ghost use Rattle.gate_runs.specs.Stands.{AreEnds};
ghost use Rattle.gate_copies.specs.Readings.{readings_top};
ghost use Rattle.flow_turns.specs.Before.{AreGates, IsHere};
ghost use Rattle.flow_turns.specs.Kept.{cells_at, slots_top};
ghost use Rattle.flow_fills.specs.Laid.{IsLooked, layout_of, source_of};
ghost use Rattle.flow_fills.specs.Fills.{Fills, SetsPart, SetsParts};

use crate::laid::Laid;
use bit_net::{Net, OutOfMemory};
use flow_turns::{Arrival, Before, Slot};
use gate_copies::Reading;
use gate_inits::{clear, part_at, set_part};
use gate_runs::Ends;
use gl_store::Store;
use sc_typed::TInitItem;

/// The local whose parts a node sets: its location, the values in braces, the slots with their cells, one after another from the first one on,
/// and the node at which the walk goes on.
#[derive(Clone, Copy)]
pub struct Filling<'t> {
    pub at: u32,
    pub items: &'t [TInitItem],
    pub first: u32,
    pub count: u32,
    pub next: usize,
}

// The cells of a slot; none where there is no such slot.
fn cells_of(slots: &[Slot], slot: usize) -> &[Reading]
    ensures { result.now ≡ cells_at slots.now slot }
{
    match slots.get(slot) {
        Some(slot) => slot.cells.as_slice(),
        None => &[],
    }
}

// The part that the value in braces with that number sets is set to the cells in its slot.
#[tactic(auto, using(crate::proofs::Fills::item_set, crate::proofs::Fills::item_none, crate::proofs::Fills::given_at, crate::proofs::Fills::given_none, crate::proofs::Fills::slot_below))]
fn fill_part(
    laid: &Laid,
    net: &mut Net,
    stored: &mut Store,
    ends: &Ends,
    slots: &[Slot],
    filling: &Filling,
    number: u32,
) -> Result<(), OutOfMemory>
    requires looked { IsLooked laid.now }
    requires store { locations_top stored.old.locations.items ≤ length net.old }
    requires ends { AreEnds net.old ends.now }
    requires slots { slots_top slots.now ≤ length net.old }
    ensures grown { Grown net.old net.new }
    ensures ok { OnOk result (SetsPart (source_of laid.now) (layout_of laid.now) net.new ends.now filling.now.at filling.now.items.now slots.now
        (filling.now.first + number) number stored.old.locations.items stored.new.locations.items) }
{
    let Some(item) = filling.items.get(number as usize) else {
        return Ok(());
    };
    let part = part_at(laid.here, laid.layout, filling.at, &item.way);
    let cells = cells_of(slots, filling.first as usize + number as usize);
    set_part(laid.layout, net, stored, ends, part, cells)?;
    Ok(())
}

// All parts for which there are cells are set to them.
fn fill_parts(
    laid: &Laid,
    net: &mut Net,
    stored: &mut Store,
    ends: &Ends,
    slots: &[Slot],
    filling: &Filling,
) -> Result<(), OutOfMemory>
    requires looked { IsLooked laid.now }
    requires store { locations_top stored.old.locations.items ≤ length net.old }
    requires ends { AreEnds net.old ends.now }
    requires slots { slots_top slots.now ≤ length net.old }
    ensures grown { Grown net.old net.new }
    ensures ok { OnOk result (SetsParts (source_of laid.now) (layout_of laid.now) net.new ends.now filling.now.at filling.now.items.now slots.now
        filling.now.first filling.now.count stored.old.locations.items stored.new.locations.items) }
{
    for number in 0..filling.count {
        fill_part(laid, net, stored, ends, slots, filling, number)?;
    }
    Ok(())
}

/// A node that sets the parts of a local to kept cells: all its cells are set to 0 or null, then those of its parts to what was kept, and the walk
/// goes on.
pub fn fill(
    laid: &Laid,
    before: &mut Before,
    net: &mut Net,
    here: Arrival,
    filling: &Filling,
) -> Result<(), OutOfMemory>
    requires looked { IsLooked laid.now }
    requires gates { AreGates net.old before.old }
    requires few { length before.old.fates.bads.items < 2 ^ 32 }
    requires here { IsHere net.old here }
    ensures grown { Grown net.old net.new }
    ensures gates { OnOk result (AreGates net.new before.new) }
    ensures ok { OnOk result (Fills (source_of laid.now) (layout_of laid.now) net.old net.new
        filling.now.at filling.now.items.now filling.now.first filling.now.count filling.now.next here before.old before.new) }
{
    let ends = Ends::new(net.alloc(), net, here.gate, before.fates.bads.len())?;
    clear(
        laid.here,
        laid.layout,
        net,
        &mut before.store,
        &ends,
        filling.at,
    )?;
    let slots = before.temps.slots.as_slice();
    fill_parts(laid, net, &mut before.store, &ends, slots, filling)?;
    let on = here.gate;
    before.go_on(net, here, on, &ends, filling.next)?;
    Ok(())
}
