//! The cells of an object that are set: all of them to 0 or null, or those of a part to cells that were kept.

ghost use Rattle.std.specs.Prelude.{◌≡◌, ◌<◌, ◌≤◌, ◌^◌, Some, length, slice_get, OnOk};
ghost use Rattle.bit_net.specs.Runs.{Grown};
ghost use Rattle.gl_store.specs.Meets.{locations_top};
ghost use Rattle.run_store.specs.Concrete.{width_kind};
ghost use Rattle.gate_runs.specs.Stands.{AreEnds};
ghost use Rattle.layout_base.specs.Seen as laid;
ghost use Rattle.sc_world.specs.Layout as layouts;
ghost use Rattle.sc_world.specs.View.{type};
ghost use Rattle.sc_world.specs.World.{kind_of_type};
ghost use Rattle.run_world.specs.Seen as seen;
ghost use Rattle.gate_copies.specs.Objects.{cell_targets};
ghost use Rattle.gate_copies.specs.Readings.{guarded_top, readings_top};
ghost use Rattle.gate_inits.specs.Inits.{ClearsCells, DoesBlank, DoesClear, DoesSetPart, IsSetAt, SetsCells};

use bit_net::{Net, OutOfMemory};
use gate_copies::{Object, Reading, cells_of, store_cell};
use gate_runs::Ends;
use gate_steps::store;
use gl_sets::Set;
use gl_store::{Store, blank};
use layout_base::Kind;
use layout_lookup::Lookup;
use run_entry::integer_bits;
use run_world::Here;
use sc_gather::{is_integer, is_pointer};
use sc_tree::ctype::CType;

// The width of a pointer's cell.
const POINTER: u32 = 255;

// The width of the cell of that type, as stores have it: 0 where there is none.
#[tactic(auto, using(gate_places::proofs::Placing::pointer_width, gate_places::proofs::Placing::integer_width))]
fn width_of(here: &Here, t: &CType) -> u32
    ensures { width_kind result ≡ kind_of_type (seen.env here.now).source (Some (type t.now)) }
{
    if is_pointer(t) {
        POINTER
    } else if is_integer(t) {
        integer_bits(here, t)
    } else {
        0
    }
}

// The width of a location's cell.
#[tactic(auto, unfolding(run_world::specs::Seen::env))]
fn width_at(here: &Here, at: u32) -> u32
    ensures { width_kind result ≡ kind_of_type (seen.env here.now).source (layouts.location (seen.env here.now).layout at).type }
{
    match here.places.location(at).kind {
        Kind::Stub | Kind::Void => 0,
        Kind::Of(t) => width_of(here, t),
    }
}

// The location of a target is set to 0 or null of its type.
fn clear_cell(
    here: &Here,
    net: &mut Net,
    stored: &mut Store,
    ends: &Ends,
    target: u32,
) -> Result<(), OutOfMemory>
    requires store { locations_top stored.old.locations.items ≤ length net.old }
    requires ends { AreEnds net.old ends.now }
    ensures grown { Grown net.old net.new }
    ensures ok { OnOk result (DoesBlank (seen.env here.now).source (seen.env here.now).layout
        net.new ends.now target stored.old.locations.items stored.new.locations.items) }
{
    if target == 0 {
        return Ok(());
    }
    let val = blank(net, width_at(here, target - 1))?;
    let at = Set::one(net, target);
    store(net, stored, ends, &at, &val)?;
    Ok(())
}

// The cells at these targets are set to 0 or null.
fn clear_cells(
    here: &Here,
    net: &mut Net,
    stored: &mut Store,
    ends: &Ends,
    targets: &[u32],
) -> Result<(), OutOfMemory>
    requires store { locations_top stored.old.locations.items ≤ length net.old }
    requires ends { AreEnds net.old ends.now }
    ensures grown { Grown net.old net.new }
    ensures ok { OnOk result (ClearsCells (seen.env here.now).source (seen.env here.now).layout
        net.new ends.now targets.now stored.old.locations.items stored.new.locations.items) }
{
    for target in targets {
        clear_cell(here, net, stored, ends, *target)?;
    }
    Ok(())
}

/// Sets the cells of the object at a location to 0 or null, where the run goes on. After a refusal of memory the store may be written in part,
/// and is not to be used again.
pub fn clear(
    here: &Here,
    layout: &Lookup,
    net: &mut Net,
    stored: &mut Store,
    ends: &Ends,
    at: u32,
) -> Result<(), OutOfMemory>
    requires few { length (laid.layout_of layout.now.places.now).locations < 2 ^ 32 }
    requires same { laid.layout_of layout.now.places.now ≡ (seen.env here.now).layout }
    requires store { locations_top stored.old.locations.items ≤ length net.old }
    requires ends { AreEnds net.old ends.now }
    ensures grown { Grown net.old net.new }
    ensures ok { OnOk result (DoesClear (seen.env here.now).source (seen.env here.now).layout
        net.new ends.now at stored.old.locations.items stored.new.locations.items) }
{
    let object = cells_of(layout.places, net.alloc(), at)?;
    clear_cells(here, net, stored, ends, object.cells.as_slice())?;
    Ok(())
}

// The cell of an object with that number, if there is one, is set to what was kept.
fn set_cell(
    net: &mut Net,
    stored: &mut Store,
    ends: &Ends,
    object: &Object,
    number: usize,
    reading: &Reading,
) -> Result<(), OutOfMemory>
    requires store { locations_top stored.old.locations.items ≤ length net.old }
    requires ends { AreEnds net.old ends.now }
    requires reading { guarded_top reading.now.vals.items ≤ length net.old }
    ensures grown { Grown net.old net.new }
    ensures ok { OnOk result (IsSetAt net.new ends.now.live.at (slice_get object.now.cells.items number) reading.now.vals.items
        stored.old.locations.items stored.new.locations.items) }
{
    let Some(target) = object.cells.get(number) else {
        return Ok(());
    };
    let at = Set::one(net, *target);
    store_cell(net, stored, ends.live, &at, reading.vals.as_slice())?;
    Ok(())
}

// The cells of an object are set to what was kept, as long as there are both.
fn set_cells(
    net: &mut Net,
    stored: &mut Store,
    ends: &Ends,
    object: &Object,
    cells: &[Reading],
) -> Result<(), OutOfMemory>
    requires store { locations_top stored.old.locations.items ≤ length net.old }
    requires ends { AreEnds net.old ends.now }
    requires cells { readings_top cells.now ≤ length net.old }
    ensures grown { Grown net.old net.new }
    ensures ok { OnOk result (SetsCells net.new ends.now object.now.cells.items cells.now stored.old.locations.items stored.new.locations.items) }
{
    for number in 0..cells.len() {
        set_cell(net, stored, ends, object, number, &cells[number])?;
    }
    Ok(())
}

/// Sets the cells of a part, if there is one, to cells that were kept, where the run goes on. After a refusal of memory the store may be written
/// in part, and is not to be used again.
pub fn set_part(
    layout: &Lookup,
    net: &mut Net,
    stored: &mut Store,
    ends: &Ends,
    part: Option<u32>,
    cells: &[Reading],
) -> Result<(), OutOfMemory>
    requires few { length (laid.layout_of layout.now.places.now).locations < 2 ^ 32 }
    requires store { locations_top stored.old.locations.items ≤ length net.old }
    requires ends { AreEnds net.old ends.now }
    requires cells { readings_top cells.now ≤ length net.old }
    ensures grown { Grown net.old net.new }
    ensures ok { OnOk result (DoesSetPart (laid.layout_of layout.now.places.now) net.new ends.now part cells.now
        stored.old.locations.items stored.new.locations.items) }
{
    let Some(at) = part else {
        return Ok(());
    };
    let object = cells_of(layout.places, net.alloc(), at)?;
    set_cells(net, stored, ends, &object, cells)?;
    Ok(())
}
