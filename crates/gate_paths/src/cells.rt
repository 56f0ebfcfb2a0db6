// The written cells of a summary that no item tells of, each with the set of where it is.

ghost use Rattle.std.specs.Prelude.{◌≡◌, ℕ, ◌<◌, ◌≤◌, ◌^◌, length, IfOk, OnOk};
ghost use Rattle.std.specs.List.{list_any};
ghost use Rattle.bit_net.specs.Runs.{Grown};
ghost use Rattle.gl_store.specs.Meets.{locations_top};
ghost use Rattle.sc_world.specs.Occurrences as spec;
ghost use Rattle.layout_base.specs.Seen as laid;
ghost use Rattle.gate_objects.specs.Escapes.{AreBelow};
ghost use Rattle.gate_paths.specs.Cells as cells;
ghost use Rattle.gate_paths.specs.Cells.{AddsWrite, AreCellsBelow, FindsWrites};

use crate::paths::follow_path;
use bit_net::{Net, OutOfMemory};
use gl_sets::Set;
use gl_store::{Store, Val};
use layout_base::Spot;
use layout_lookup::Lookup;
use run_paths::spot_behind;
use sum_rows::{Item, ItemRows, Path, Root, Step, Write};

/// A written cell.
#[derive(Drop)]
pub struct Written {
    /// Its bits; 0 for a pointer.
    pub width: u32,
    /// What the choice says of it: the first bit, and the object that comes with it.
    pub spot: Spot,
    /// Where it is: the set points to the location, or to 0 where it is missing.
    pub at: Set,
}

fn is_out(n: u32, item: &Item) -> bool
    ensures { result ≡ spec.is_out n item.now }
{
    match item {
        Item::Out(m) => n == *m,
        Item::Exit | Item::Lock(_) | Item::Param(_) => false,
    }
}

fn has_out(items: &[ItemRows], n: u32) -> bool
    ensures { result ≡ list_any (λ x. spec.is_out n x.item) items.now }
{
    items.iter().any(|x| is_out(n, &x.item))
}

// Whether a path leads to what a parameter with an item of its own points to.
fn is_out_path(items: &[ItemRows], path: &Path) -> bool
    ensures { result ≡ spec.is_out_path items.now path.now }
{
    match path.root {
        Root::Global(_) => false,
        Root::Param(n) => match path.steps.as_slice() {
            [] => false,
            [step] => match step {
                Step::Deref => has_out(items, n),
                Step::Field(_) | Step::Elem(_) => false,
            },
            [_, _, ..] => false,
        },
    }
}

// The spot of a cell, unless an item tells of it.
fn spot_of_cell(told: bool, spot: usize) -> Option<usize>
    ensures { result ≡ cells.spot_of_cell told spot }
{
    if told { None } else { Some(spot) }
}

// One written cell more, if it has a spot.
#[tactic(auto, using(crate::proofs::Writing::adds_write, crate::proofs::Writing::adds_no_write))]
fn add_write(
    layout: &Lookup,
    net: &mut Net,
    store: &Store,
    args: &[Val],
    spot: Option<usize>,
    x: &Write,
    found: &mut Vec<Written>,
) -> Result<(), OutOfMemory>
    requires store { locations_top store.now.locations.items ≤ length net.old }
    requires args { AreBelow net.old args.now }
    requires found { AreCellsBelow net.old found.old.items }
    ensures grown { Grown net.old net.new }
    ensures ok { OnOk result (AddsWrite net.new (laid.layout_of layout.now.places.now) store.now.locations.items args.now
        spot x.now found.old.items found.new.items) }
{
    match spot {
        None => Ok(()),
        Some(k) => {
            let at = follow_path(layout, net, store, args, &x.path)?;
            found.push(Written {
                width: x.width,
                spot: layout.spot_at(k),
                at,
            })?;
            Ok(())
        }
    }
}

/// The written cells that no item tells of, each with the set of where it is; the first of them has that spot.
pub fn writes(
    layout: &Lookup,
    net: &mut Net,
    store: &Store,
    args: &[Val],
    items: &[ItemRows],
    spot: usize,
    cells: &[Write],
) -> Result<Vec<Written>, OutOfMemory>
    requires spot { spot < 2 ^ 62 }
    requires cells { length cells.now < 2 ^ 32 }
    requires store { locations_top store.now.locations.items ≤ length net.old }
    requires args { AreBelow net.old args.now }
    ensures grown { Grown net.old net.new }
    ensures ok { IfOk result (λ r. FindsWrites net.new (laid.layout_of layout.now.places.now) store.now.locations.items args.now
        items.now spot cells.now r.items) }
{
    let mut found = Vec::new(net.alloc());
    let mut k = spot;
    for x in cells {
        let told = is_out_path(items, &x.path);
        let here = spot_of_cell(told, k);
        add_write(layout, net, store, args, here, x, &mut found)?;
        k = spot_behind(!told, k);
    }
    Ok(found)
}
