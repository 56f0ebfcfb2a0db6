// The items and the written cells of a summary, each with the set of where it is. All paths are followed in the store of the call.

ghost use Rattle.std.specs.Prelude.{◌≡◌, ℕ, ◌<◌, ◌≤◌, ◌^◌, length, IfOk, OnOk};
ghost use Rattle.bit_net.specs.Runs.{Grown};
ghost use Rattle.gl_store.specs.Meets.{locations_top};
ghost use Rattle.layout_base.specs.Seen as laid;
ghost use Rattle.gate_objects.specs.Escapes.{AreBelow};
ghost use Rattle.gate_paths.specs.Gathered.{AddsLock, AddsOut, AreItemsBelow, FindsLocks, FindsOuts};

use crate::paths::{follow_out, follow_path};
use bit_net::{Net, OutOfMemory};
use gl_sets::Set;
use gl_store::{Store, Val};
use layout_base::Spot;
use layout_lookup::Lookup;
use run_paths::{Sort, is_of, spot_behind};
use sum_rows::{Item, ItemRows, Row};

/// An item of a summary.
#[derive(Drop)]
pub struct Found<'p> {
    /// Its rows.
    pub rows: &'p [Row],
    /// What the choice says of it: the first bit, and the object that comes with it.
    pub spot: Spot,
    /// Where it is: the set points to the location, or to 0 where it is missing.
    pub at: Set,
}

// One item more, if it is that of a location.
#[tactic(auto, using(crate::proofs::Gathering::adds_lock, crate::proofs::Gathering::adds_no_lock))]
fn add_lock<'p>(
    layout: &Lookup,
    net: &mut Net,
    store: &Store,
    args: &[Val],
    spot: usize,
    x: &'p ItemRows,
    found: &mut Vec<Found<'p>>,
) -> Result<(), OutOfMemory>
    requires store { locations_top store.now.locations.items ≤ length net.old }
    requires args { AreBelow net.old args.now }
    requires found { AreItemsBelow net.old found.old.items }
    ensures grown { Grown net.old net.new }
    ensures ok { OnOk result (AddsLock net.new (laid.layout_of layout.now.places.now) store.now.locations.items args.now
        spot x.now found.old.items found.new.items) }
{
    match &x.item {
        Item::Lock(path) => {
            let at = follow_path(layout, net, store, args, path)?;
            found.push(Found {
                rows: x.rows.as_slice(),
                spot: layout.spot_at(spot),
                at,
            })?;
            Ok(())
        }
        Item::Exit | Item::Param(_) | Item::Out(_) => Ok(()),
    }
}

/// The items of locations, each with the set of where it is; the first of them has that spot.
pub fn locks<'p>(
    layout: &Lookup,
    net: &mut Net,
    store: &Store,
    args: &[Val],
    spot: usize,
    items: &'p [ItemRows],
) -> Result<Vec<Found<'p>>, OutOfMemory>
    requires spot { spot < 2 ^ 62 }
    requires items { length items.now < 2 ^ 32 }
    requires store { locations_top store.now.locations.items ≤ length net.old }
    requires args { AreBelow net.old args.now }
    ensures grown { Grown net.old net.new }
    ensures ok { IfOk result (λ r. FindsLocks net.new (laid.layout_of layout.now.places.now) store.now.locations.items args.now
        spot items.now r.items) }
{
    let mut found = Vec::new(net.alloc());
    let mut k = spot;
    for x in items {
        add_lock(layout, net, store, args, k, x, &mut found)?;
        k = spot_behind(is_of(Sort::Lock, &x.item), k);
    }
    Ok(found)
}

// One item more, if it is that of a pointer that a parameter points to.
#[tactic(auto, using(crate::proofs::Gathering::adds_out, crate::proofs::Gathering::adds_no_out))]
fn add_out<'p>(
    layout: &Lookup,
    net: &mut Net,
    store: &Store,
    args: &[Val],
    spot: usize,
    x: &'p ItemRows,
    found: &mut Vec<Found<'p>>,
) -> Result<(), OutOfMemory>
    requires store { locations_top store.now.locations.items ≤ length net.old }
    requires args { AreBelow net.old args.now }
    requires found { AreItemsBelow net.old found.old.items }
    ensures grown { Grown net.old net.new }
    ensures ok { OnOk result (AddsOut net.new (laid.layout_of layout.now.places.now) store.now.locations.items args.now
        spot x.now found.old.items found.new.items) }
{
    match &x.item {
        Item::Out(n) => {
            let at = follow_out(layout, net, store, args, *n)?;
            found.push(Found {
                rows: x.rows.as_slice(),
                spot: layout.spot_at(spot),
                at,
            })?;
            Ok(())
        }
        Item::Exit | Item::Lock(_) | Item::Param(_) => Ok(()),
    }
}

/// The pointers that parameters with items of their own point to, each with the set of where it is; the first of them has that spot.
pub fn outs<'p>(
    layout: &Lookup,
    net: &mut Net,
    store: &Store,
    args: &[Val],
    spot: usize,
    items: &'p [ItemRows],
) -> Result<Vec<Found<'p>>, OutOfMemory>
    requires spot { spot < 2 ^ 62 }
    requires items { length items.now < 2 ^ 32 }
    requires store { locations_top store.now.locations.items ≤ length net.old }
    requires args { AreBelow net.old args.now }
    ensures grown { Grown net.old net.new }
    ensures ok { IfOk result (λ r. FindsOuts net.new (laid.layout_of layout.now.places.now) store.now.locations.items args.now
        spot items.now r.items) }
{
    let mut found = Vec::new(net.alloc());
    let mut k = spot;
    for x in items {
        add_out(layout, net, store, args, k, x, &mut found)?;
        k = spot_behind(is_of(Sort::Out, &x.item), k);
    }
    Ok(found)
}
