//! The store at entry: the cells of all locations, and their states behind them.

ghost use Rattle.std.specs.Prelude.{◌≤◌, length, map, IfOk, OnOk};
ghost use Rattle.bit_net.specs.Circuit.{input_count};
ghost use Rattle.bit_net.specs.Runs.{Grown};
ghost use Rattle.sc_world.specs.World.{entry_place, state_place};
ghost use Rattle.layout_base.specs.Seen as laid;
ghost use Rattle.run_world.specs.Seen as seen;
ghost use Rattle.gate_entry.specs.Entry.{ArePut, IsEntered, IsUnmarked, cell_kind, state_kind};

use crate::cells::entry_cell;
use crate::states::entry_state;
use bit_net::{Net, OutOfMemory};
use gl_store::{Flags, Location as Guarded, Store, Val};
use layout_base::Location;
use run_world::Here;

// No flag holds.
#[tactic(auto, using(crate::proofs::Making::unmarked))]
fn no_flags(net: &Net) -> Flags
    ensures { IsUnmarked net.now result }
{
    let never = net.constant(false);
    Flags {
        touched: never,
        written: never,
        allocated: never,
        freed: never,
        escaped: never,
    }
}

// The cells of locations, behind what is there.
fn push_cells(
    here: &Here,
    net: &mut Net,
    locations: &[Location],
    stored: &mut Vec<Guarded>,
) -> Result<(), OutOfMemory>
    requires inputs { (seen.env here.now).layout.bits ≤ input_count net.old }
    ensures grown { Grown net.old net.new }
    ensures ok { OnOk result (ArePut (seen.env here.now).source (seen.env here.now).layout net.new
        (cell_kind (seen.env here.now).source) (entry_place (seen.env here.now).source)
        (map laid.location_of locations.now) stored.old.items stored.new.items) }
{
    let flags = no_flags(net);
    for location in locations {
        let val = entry_cell(here, net, location)?;
        stored.push(Guarded { val, flags })?;
    }
    Ok(())
}

// The states of locations, behind what is there.
fn push_states(
    here: &Here,
    net: &mut Net,
    locations: &[Location],
    stored: &mut Vec<Guarded>,
) -> Result<(), OutOfMemory>
    requires inputs { (seen.env here.now).layout.bits ≤ input_count net.old }
    ensures grown { Grown net.old net.new }
    ensures ok { OnOk result (ArePut (seen.env here.now).source (seen.env here.now).layout net.new
        state_kind (state_place (seen.env here.now).source)
        (map laid.location_of locations.now) stored.old.items stored.new.items) }
{
    let flags = no_flags(net);
    for location in locations {
        let state = entry_state(here, net, location)?;
        let val = Val::Word(state);
        stored.push(Guarded { val, flags })?;
    }
    Ok(())
}

/// The store at entry, as gates over the inputs of the net, which are the bits of the choice.
pub fn entered(here: &Here, net: &mut Net) -> Result<Store, OutOfMemory>
    requires inputs { (seen.env here.now).layout.bits ≤ input_count net.old }
    ensures grown { Grown net.old net.new }
    ensures ok { IfOk result (λ r. IsEntered (seen.env here.now).source (seen.env here.now).layout net.new r.locations.items) }
{
    let mut locations = Vec::new(net.alloc());
    push_cells(here, net, here.places.locations.as_slice(), &mut locations)?;
    push_states(here, net, here.places.locations.as_slice(), &mut locations)?;
    Ok(Store { locations })
}
