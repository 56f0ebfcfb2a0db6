//! What cells of several objects have: a value for each width, of which one counts.

ghost use Rattle.std.specs.Prelude.{◌≡◌, ℕ, ◌+◌, ◌<◌, ◌≤◌, length, IfOk, OnOk};
ghost use Rattle.bit_net.specs.Runs.{Grown};
ghost use Rattle.gl_sets.specs.Guards.{guards_top};
ghost use Rattle.gl_store.specs.Meets.{locations_top, val_top};
ghost use Rattle.run_world.specs.Seen as seen;
ghost use Rattle.gate_places.specs.Places.{IsLaid};
ghost use Rattle.gate_copies.specs.Widths.{widths};
ghost use Rattle.gate_copies.specs.Readings.{AreRead, IsGuarded, IsPut, IsStoredWhere, guarded_top};

use crate::widths::{leads_to_some, of_width, width_at};
use bit_net::{Gate, Net, OutOfMemory};
use gl_sets::{Set, moved, points};
use gl_store::{Flag, Store, Val};
use run_world::Here;

// How many widths cells have.
const WIDTHS: u32 = 6;

/// A value that counts where a gate holds.
#[derive(Drop)]
pub struct Guarded {
    pub when: Gate,
    pub val: Val,
}

/// What the cells with one number have: the gate of one value at most holds, and that of none where there is no such cell.
#[derive(Drop)]
pub struct Reading {
    pub vals: Vec<Guarded>,
}

// What the target has to which a pointer leads, of the width with that number; it counts unless the pointer is null.
fn read_width(
    net: &mut Net,
    store: &Store,
    pointer: &Set,
    number: u32,
) -> Result<Guarded, OutOfMemory>
    requires store { locations_top store.now.locations.items ≤ length net.old }
    requires pointer { guards_top pointer.now.pairs.items ≤ length net.old }
    ensures grown { Grown net.old net.new }
    ensures ok { IfOk result (λ r. IsGuarded net.new store.now.locations.items pointer.now.pairs.items number r) }
{
    let null = points(net, pointer, 0);
    let when = net.not(null)?;
    let width = width_at(number);
    let val = store.load(net, pointer, width)?;
    Ok(Guarded { when, val })
}

// The value of one width more is read.
fn add_width(
    here: &Here,
    net: &mut Net,
    store: &Store,
    from: &Set,
    targets: &[u32],
    number: u32,
    vals: &mut Vec<Guarded>,
) -> Result<(), OutOfMemory>
    requires laid { IsLaid (seen.env here.now).source (seen.env here.now).layout store.now.locations.items }
    requires store { locations_top store.now.locations.items ≤ length net.old }
    requires from { guards_top from.now.pairs.items ≤ length net.old }
    requires wide { length targets.now ≡ length from.now.pairs.items }
    requires number { number < widths }
    requires vals { AreRead net.old (seen.env here.now).source (seen.env here.now).layout
        store.now.locations.items from.now.pairs.items targets.now number vals.old.items }
    ensures grown { Grown net.old net.new }
    ensures ok { OnOk result (AreRead net.new (seen.env here.now).source (seen.env here.now).layout
        store.now.locations.items from.now.pairs.items targets.now (number + 1) vals.new.items) }
{
    let same = of_width(here, net.alloc(), number, targets)?;
    let is_some = leads_to_some(same.as_slice());
    if !is_some {
        return Ok(());
    }
    let pointer = moved(net, from, same.as_slice())?;
    let guarded = read_width(net, store, &pointer, number)?;
    vals.push(guarded)?;
    Ok(())
}

/// What the cells have to which the targets of `from` go: `targets` has, for each pair of `from`, the target of its cell, and
/// null where there is none.
pub fn read_cell(
    here: &Here,
    net: &mut Net,
    store: &Store,
    from: &Set,
    targets: &[u32],
) -> Result<Reading, OutOfMemory>
    requires laid { IsLaid (seen.env here.now).source (seen.env here.now).layout store.now.locations.items }
    requires store { locations_top store.now.locations.items ≤ length net.old }
    requires from { guards_top from.now.pairs.items ≤ length net.old }
    requires wide { length targets.now ≡ length from.now.pairs.items }
    ensures grown { Grown net.old net.new }
    ensures ok { IfOk result (λ r. AreRead net.new (seen.env here.now).source (seen.env here.now).layout
        store.now.locations.items from.now.pairs.items targets.now widths r.vals.items) }
{
    let mut vals = Vec::new(net.alloc());
    for number in 0..WIDTHS {
        add_width(here, net, store, from, targets, number, &mut vals)?;
    }
    Ok(Reading { vals })
}

// The value is stored at the target of a pointer, where it counts and `live` holds.
fn store_where(
    net: &mut Net,
    stored: &mut Store,
    live: Gate,
    at: &Set,
    guarded: &Guarded,
) -> Result<(), OutOfMemory>
    requires store { locations_top stored.old.locations.items ≤ length net.old }
    requires live { live.at < length net.old }
    requires at { guards_top at.now.pairs.items ≤ length net.old }
    requires when { guarded.now.when.at < length net.old }
    requires val { val_top guarded.now.val ≤ length net.old }
    ensures grown { Grown net.old net.new }
    ensures ok { OnOk result (IsStoredWhere net.new live.at at.now.pairs.items guarded.now stored.old.locations.items stored.new.locations.items) }
{
    let when = net.and(live, guarded.when)?;
    stored.store(net, when, at, &guarded.val)?;
    stored.mark_where(net, when, at, Flag::Written)?;
    Ok(())
}

/// The value that counts, if one does, is stored at the target of a pointer, where `live` holds.
pub fn store_cell(
    net: &mut Net,
    stored: &mut Store,
    live: Gate,
    at: &Set,
    vals: &[Guarded],
) -> Result<(), OutOfMemory>
    requires store { locations_top stored.old.locations.items ≤ length net.old }
    requires live { live.at < length net.old }
    requires at { guards_top at.now.pairs.items ≤ length net.old }
    requires vals { guarded_top vals.now ≤ length net.old }
    ensures grown { Grown net.old net.new }
    ensures ok { OnOk result (IsPut net.new live.at at.now.pairs.items vals.now stored.old.locations.items stored.new.locations.items) }
{
    for guarded in vals {
        store_where(net, stored, live, at, guarded)?;
    }
    Ok(())
}
