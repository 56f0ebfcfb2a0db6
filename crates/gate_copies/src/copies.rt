//! Objects that are copied.

ghost use Rattle.std.specs.Prelude.{◌≡◌, ℕ, ◌<◌, ◌≤◌, ◌^◌, length, map, IfOk, OnOk};
ghost use Rattle.bit_net.specs.Runs.{Grown};
ghost use Rattle.gl_sets.specs.Guards.{guards_top};
ghost use Rattle.gl_store.specs.Meets.{locations_top};
ghost use Rattle.gate_runs.specs.Stands.{AreEnds};
ghost use Rattle.layout_base.specs.Seen as laid;
ghost use Rattle.sc_world.specs.View.{type};
ghost use Rattle.run_world.specs.Seen as seen;
ghost use Rattle.gate_places.specs.Places.{IsLaid};
ghost use Rattle.gate_copies.specs.Objects.{cells_in, most};
ghost use Rattle.gate_copies.specs.Readings.{guarded_top, readings_top};
ghost use Rattle.gate_copies.specs.Copies.{DoesCopy, HaveRead, HaveStored, IsReading, IsStoredIn};

use crate::objects::{Object, cells_with, most_cells, objects_of};
use crate::readings::{Reading, read_cell, store_cell};
use bit_net::{Gate, Net, OutOfMemory};
use gate_runs::Ends;
use gl_sets::{Set, moved};
use gl_store::{Store, Val};
use layout_lookup::Lookup;
use run_world::Here;
use sc_tree::ctype::CType;

// What the cells with that number have of the object to which `from` leads: one of these, at the place of its pair.
fn read_number(
    here: &Here,
    net: &mut Net,
    store: &Store,
    from: &Set,
    objects: &[Object],
    number: usize,
) -> Result<Reading, OutOfMemory>
    requires laid { IsLaid (seen.env here.now).source (seen.env here.now).layout store.now.locations.items }
    requires store { locations_top store.now.locations.items ≤ length net.old }
    requires from { guards_top from.now.pairs.items ≤ length net.old }
    requires wide { length objects.now ≡ length from.now.pairs.items }
    ensures grown { Grown net.old net.new }
    ensures ok { IfOk result (λ r. IsReading net.new (seen.env here.now).source (seen.env here.now).layout
        store.now.locations.items from.now.pairs.items (map cells_in objects.now) number r) }
{
    let cells = cells_with(net.alloc(), objects, number)?;
    let reading = read_cell(here, net, store, from, cells.as_slice())?;
    Ok(reading)
}

/// What all cells have of the object to which `from` leads, in their order: one reading for each number of a cell.
pub fn read_all(
    here: &Here,
    net: &mut Net,
    store: &Store,
    from: &Set,
    objects: &[Object],
) -> Result<Vec<Reading>, OutOfMemory>
    requires laid { IsLaid (seen.env here.now).source (seen.env here.now).layout store.now.locations.items }
    requires store { locations_top store.now.locations.items ≤ length net.old }
    requires from { guards_top from.now.pairs.items ≤ length net.old }
    requires wide { length objects.now ≡ length from.now.pairs.items }
    ensures grown { Grown net.old net.new }
    ensures ok { IfOk result (λ r. HaveRead net.new (seen.env here.now).source (seen.env here.now).layout
        store.now.locations.items from.now.pairs.items (map cells_in objects.now) (most (map cells_in objects.now)) r.items) }
{
    let mut readings = Vec::new(net.alloc());
    for number in 0..most_cells(objects) {
        let reading = read_number(here, net, store, from, objects, number)?;
        readings.push(reading)?;
    }
    Ok(readings)
}

// What was read is stored in the cell with that number of the object to which `place` leads, where `live` holds.
fn store_number(
    net: &mut Net,
    stored: &mut Store,
    live: Gate,
    place: &Set,
    objects: &[Object],
    number: usize,
    reading: &Reading,
) -> Result<(), OutOfMemory>
    requires store { locations_top stored.old.locations.items ≤ length net.old }
    requires live { live.at < length net.old }
    requires place { guards_top place.now.pairs.items ≤ length net.old }
    requires wide { length objects.now ≡ length place.now.pairs.items }
    requires reading { guarded_top reading.now.vals.items ≤ length net.old }
    ensures grown { Grown net.old net.new }
    ensures ok { OnOk result (IsStoredIn net.new live.at
        place.now.pairs.items (map cells_in objects.now) number reading.now stored.old.locations.items stored.new.locations.items) }
{
    let cells = cells_with(net.alloc(), objects, number)?;
    let pointer = moved(net, place, cells.as_slice())?;
    store_cell(net, stored, live, &pointer, reading.vals.as_slice())?;
    Ok(())
}

/// What was read is stored in the cells of the object to which `place` leads, where `live` holds.
pub fn store_all(
    net: &mut Net,
    stored: &mut Store,
    live: Gate,
    place: &Set,
    objects: &[Object],
    readings: &[Reading],
) -> Result<(), OutOfMemory>
    requires store { locations_top stored.old.locations.items ≤ length net.old }
    requires live { live.at < length net.old }
    requires place { guards_top place.now.pairs.items ≤ length net.old }
    requires wide { length objects.now ≡ length place.now.pairs.items }
    requires readings { readings_top readings.now ≤ length net.old }
    ensures grown { Grown net.old net.new }
    ensures ok { OnOk result (HaveStored net.new live.at
        place.now.pairs.items (map cells_in objects.now) readings.now (length readings.now) stored.old.locations.items stored.new.locations.items) }
{
    for number in 0..readings.len() {
        store_number(net, stored, live, place, objects, number, &readings[number])?;
    }
    Ok(())
}

/// Copies the object to which `from` leads, of that type, to the one to which `place` leads, where the run goes on, and gives
/// the place (C11 6.5.16.1). All cells are read before one is stored, so the two may be one object. After a refusal of memory
/// the store may be written in part, and is not to be used again.
pub fn copy(
    here: &Here,
    layout: &Lookup,
    net: &mut Net,
    stored: &mut Store,
    ends: &Ends,
    t: &CType,
    place: &Set,
    from: &Set,
) -> Result<Val, OutOfMemory>
    requires few { length (laid.layout_of layout.now.places.now).locations < 2 ^ 32 }
    requires same { laid.layout_of layout.now.places.now ≡ (seen.env here.now).layout }
    requires laid { IsLaid (seen.env here.now).source (seen.env here.now).layout stored.old.locations.items }
    requires store { locations_top stored.old.locations.items ≤ length net.old }
    requires ends { AreEnds net.old ends.now }
    requires place { guards_top place.now.pairs.items ≤ length net.old }
    requires from { guards_top from.now.pairs.items ≤ length net.old }
    ensures grown { Grown net.old net.new }
    ensures ok { IfOk result (λ r. DoesCopy (seen.env here.now).source (seen.env here.now).layout
        net.new ends.now (type t.now) place.now from.now stored.old.locations.items stored.new.locations.items r) }
{
    let sources = objects_of(layout.places, net.alloc(), t, from.pairs.as_slice())?;
    let targets = objects_of(layout.places, net.alloc(), t, place.pairs.as_slice())?;
    let readings = read_all(here, net, stored, from, sources.as_slice())?;
    store_all(
        net,
        stored,
        ends.live,
        place,
        targets.as_slice(),
        readings.as_slice(),
    )?;
    let made = place.try_clone(net)?;
    Ok(Val::Set(made))
}
