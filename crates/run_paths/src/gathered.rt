// The items and the written cells of a summary that are not missing, and the spots of what the choice says of them.

ghost use Rattle.std.specs.Prelude.{◌≡◌, ◌<◌, ◌≤◌, ◌^◌, ◌+◌, [], ◌∷◌, ◌++◌, Ok, ℕ, List, length, map, vec_len, vec_capacity, Some, nat_eq};
ghost use Rattle.std.specs.List.{list_any};
ghost use Rattle.sum_rows.specs.declared.row.Write.{Write as Writes};
ghost use Rattle.sc_world.specs.Known as spec;
ghost use Rattle.layout_base.specs.Seen as laid;
ghost use Rattle.run_world.specs.Seen as world;
ghost use Rattle.run_paths.specs.Seen as seen;

use crate::buffer::{Buffer, Found, Written};
use crate::follow::{argument, follow_path, usable};
use crate::lookup::{is_pointer_kind, spot_at};
use crate::outs::is_out_path;
use layout_base::{Occurrence, Spot};
use run_world::{Here, Value, World};
use sum_rows::{Item, ItemRows, Row, Summary, Write};

/// The sorts of items that have spots.
#[derive(Clone, Copy, Debug, PartialEq, Eq)]
pub enum Sort {
    /// A location.
    Lock,
    /// A parameter.
    Param,
    /// A pointer that a parameter points to.
    Out,
}

/// Whether an item is of that sort.
pub fn is_of(sort: Sort, item: &Item) -> bool
    ensures { result ≡ seen.is_of sort item.now }
{
    match item {
        Item::Exit => false,
        Item::Lock(_) => sort == Sort::Lock,
        Item::Param(_) => sort == Sort::Param,
        Item::Out(_) => sort == Sort::Out,
    }
}

/// The spot of the next item of a sort, after one that is of it or not.
pub fn spot_behind(is_of: bool, spot: usize) -> usize
    requires { spot < 2 ^ 63 }
    ensures value { result ≡ spec.spot_behind is_of spot }
    ensures most { result ≤ spot + 1 }
{
    if is_of { spot + 1 } else { spot }
}

// How many items there are of a sort.
fn count(sort: Sort, items: &[ItemRows]) -> usize
    ensures value { result ≡ spec.count_items (seen.is_of sort) items.now }
    ensures most { result ≤ length items.now }
{
    let mut n = 0;
    for x in items {
        if is_of(sort, &x.item) {
            n += 1;
        }
    }
    n
}

/// The first spots of an occurrence: of locations, of parameters, of pointers that these point to, of written cells.
#[derive(Clone, Copy, Debug, PartialEq, Eq)]
pub struct Spots {
    pub locks: usize,
    pub params: usize,
    pub outs: usize,
    pub writes: usize,
}

/// The first spots of an occurrence of a call of a function with these items.
pub fn spots_of(occurrence: Occurrence, items: &[ItemRows]) -> Spots
    requires few { length items.now < 2 ^ 32 }
    ensures locks { result.locks ≡ occurrence.spot }
    ensures params { result.params ≡ occurrence.spot + spec.count_items spec.is_lock items.now }
    ensures outs { result.outs ≡ occurrence.spot + (spec.count_items spec.is_lock items.now
        + spec.count_items spec.is_param items.now) }
    ensures writes { result.writes ≡ occurrence.spot + (spec.count_items spec.is_lock items.now
        + (spec.count_items spec.is_param items.now + spec.count_items spec.is_out_item items.now)) }
    ensures most { result.writes < 2 ^ 34 }
{
    let locks = occurrence.spot as usize;
    let params = locks + count(Sort::Lock, items);
    let outs = params + count(Sort::Param, items);
    let writes = outs + count(Sort::Out, items);
    Spots {
        locks,
        params,
        outs,
        writes,
    }
}

// One more item, if it is not missing.
fn push<'p>(found: &mut Vec<Found<'p>>, rows: &'p [Row], spot: Spot, at: Option<u32>)
    requires room { vec_len found.old < vec_capacity found.old }
    ensures locks { map seen.locked found.new.items ≡ map seen.locked found.old.items
        ++ spec.with_locked rows.now spot.bit at [] }
    ensures outs { map seen.outed found.new.items ≡ map seen.outed found.old.items ++ spec.with_out rows.now
        (laid.spot_of spot) at [] }
    ensures len { vec_len found.new ≤ vec_len found.old + 1 }
    ensures capacity { vec_capacity found.new ≡ vec_capacity found.old }
{
    match at {
        None => {}
        Some(at) => found.push_reserved(Found {
            rows,
            bit: spot.bit,
            object: spot.object,
            at,
        }),
    }
}

fn locked_item(here: &Here, store: &World, arguments: &[Value], item: &Item) -> Option<u32>
    requires few { length here.now.places.now.locations.items < 2 ^ 32 }
    ensures { (k : ℕ) → spec.locked_item (world.env here.now) (map world.cell arguments.now) k item.now
        (world.world store.now) ≡ (Ok result, world.world store.now) }
{
    match item {
        Item::Lock(path) => follow_path(here, store, arguments, path),
        Item::Exit | Item::Param(_) | Item::Out(_) => None,
    }
}

// The locations of the items.
#[tactic(auto, using(crate::proofs::Gathers::gathers), unfolding(run_world::specs::Seen::env))]
fn locks<'p>(
    here: &Here,
    store: &World,
    arguments: &[Value],
    spot: usize,
    items: &'p [ItemRows],
    found: &mut Vec<Found<'p>>,
)
    requires few { length here.now.places.now.locations.items < 2 ^ 32 }
    requires spot { spot < 2 ^ 62 }
    requires items { length items.now < 2 ^ 32 }
    requires room { length items.now ≤ vec_capacity found.old }
    ensures locks { spec.locks (world.env here.now) (map world.cell arguments.now) spot items.now
        (world.world store.now)
        ≡ (Ok (map seen.locked found.new.items), world.world store.now) }
    ensures capacity { vec_capacity found.new ≡ vec_capacity found.old }
{
    found.clear();
    let mut k = spot;
    for x in items {
        let at = locked_item(here, store, arguments, &x.item);
        push(found, x.rows.as_slice(), spot_at(here.places, k), at);
        k = spot_behind(is_of(Sort::Lock, &x.item), k);
    }
}

fn out_item(here: &Here, store: &World, arguments: &[Value], item: &Item) -> Option<u32>
    ensures { spec.out_item (world.env here.now) (map world.cell arguments.now) item.now
        (world.world store.now) ≡ (Ok result, world.world store.now) }
{
    match item {
        Item::Out(n) => pointer_cell_if(here, usable(here, store, argument(arguments, *n))),
        Item::Exit | Item::Lock(_) | Item::Param(_) => None,
    }
}

#[tactic(auto, unfolding(run_world::specs::Seen::env))]
fn pointer_cell_if(here: &Here, at: Option<u32>) -> Option<u32>
    ensures { result ≡ spec.pointer_cell_if (world.env here.now) at }
{
    match at {
        None => None,
        Some(at) => {
            if is_pointer_kind(here.places.location(at).kind) {
                Some(at)
            } else {
                None
            }
        }
    }
}

// The pointers that parameters with items of their own point to.
#[tactic(auto, using(crate::proofs::Gathers::gathers), unfolding(run_world::specs::Seen::env))]
fn outs<'p>(
    here: &Here,
    store: &World,
    arguments: &[Value],
    spot: usize,
    items: &'p [ItemRows],
    found: &mut Vec<Found<'p>>,
)
    requires spot { spot < 2 ^ 62 }
    requires items { length items.now < 2 ^ 32 }
    requires room { length items.now ≤ vec_capacity found.old }
    ensures outs { spec.outs (world.env here.now) (map world.cell arguments.now) spot items.now
        (world.world store.now)
        ≡ (Ok (map seen.outed found.new.items), world.world store.now) }
    ensures capacity { vec_capacity found.new ≡ vec_capacity found.old }
{
    found.clear();
    let mut k = spot;
    for x in items {
        let at = out_item(here, store, arguments, &x.item);
        push(found, x.rows.as_slice(), spot_at(here.places, k), at);
        k = spot_behind(is_of(Sort::Out, &x.item), k);
    }
}

// One more written cell, if it is not missing.
fn push_written(found: &mut Vec<Written>, width: u32, spot: Spot, at: Option<u32>)
    requires room { vec_len found.old < vec_capacity found.old }
    ensures writes { map seen.written found.new.items ≡ map seen.written found.old.items
        ++ spec.with_written width (laid.spot_of spot) at [] }
    ensures len { vec_len found.new ≤ vec_len found.old + 1 }
    ensures capacity { vec_capacity found.new ≡ vec_capacity found.old }
{
    match at {
        None => {}
        Some(at) => found.push_reserved(Written {
            width,
            bit: spot.bit,
            object: spot.object,
            at,
        }),
    }
}

// One written cell of a summary, with the next spot; the spot behind it.
#[tactic(auto, using(crate::proofs::Gathers::written), unfolding(run_world::specs::Seen::env))]
fn write(
    here: &Here,
    store: &World,
    arguments: &[Value],
    items: &[ItemRows],
    spot: usize,
    write: &Write,
    found: &mut Vec<Written>,
) -> usize
    requires few { length here.now.places.now.locations.items < 2 ^ 32 }
    requires spot { spot < 2 ^ 63 }
    requires room { vec_len found.old < vec_capacity found.old }
    ensures writes { (xs : List Writes) → seen.joined (map seen.written found.old.items)
        (spec.writes (world.env here.now) (map world.cell arguments.now) items.now spot (write.now ∷ xs)
        (world.world store.now))
        ≡ seen.joined (map seen.written found.new.items) (spec.writes (world.env here.now)
        (map world.cell arguments.now) items.now result xs (world.world store.now)) }
    ensures spot { result ≤ spot + 1 }
    ensures len { vec_len found.new ≤ vec_len found.old + 1 }
    ensures capacity { vec_capacity found.new ≡ vec_capacity found.old }
{
    if is_out_path(items, &write.path) {
        spot
    } else {
        let at = follow_path(here, store, arguments, &write.path);
        push_written(found, write.width, spot_at(here.places, spot), at);
        spot + 1
    }
}

// The other written cells.
#[tactic(auto, using(crate::proofs::Gathers::gathers), unfolding(run_world::specs::Seen::env))]
fn writes(
    here: &Here,
    store: &World,
    arguments: &[Value],
    items: &[ItemRows],
    spot: usize,
    writes: &[Write],
    found: &mut Vec<Written>,
)
    requires few { length here.now.places.now.locations.items < 2 ^ 32 }
    requires spot { spot < 2 ^ 62 }
    requires writes { length writes.now < 2 ^ 32 }
    requires room { length writes.now ≤ vec_capacity found.old }
    ensures writes { spec.writes (world.env here.now) (map world.cell arguments.now) items.now spot writes.now
        (world.world store.now)
        ≡ (Ok (map seen.written found.new.items), world.world store.now) }
    ensures capacity { vec_capacity found.new ≡ vec_capacity found.old }
{
    found.clear();
    let mut k = spot;
    for x in writes {
        k = write(here, store, arguments, items, k, x, found);
    }
}

/// What a known call has to do with, into the buffer: the locations of the items, the pointers that parameters point
/// to, and the other written cells, those that are not missing.
pub fn resolve<'p>(
    here: &Here,
    store: &World,
    arguments: &[Value],
    spots: Spots,
    summary: &'p Summary,
    buffer: &mut Buffer<'p>,
)
    requires few { length here.now.places.now.locations.items < 2 ^ 32 }
    requires spots { (spots.locks < 2 ^ 62) × (spots.outs < 2 ^ 62) × (spots.writes < 2 ^ 62) }
    requires fits { seen.Fits buffer.old.most (Some summary.now) }
    ensures locks { spec.locks (world.env here.now)
        (map world.cell arguments.now) spots.locks summary.now.items (world.world store.now)
        ≡ (Ok (map seen.locked buffer.new.locks.items), world.world store.now) }
    ensures outs { spec.outs (world.env here.now) (map world.cell arguments.now) spots.outs summary.now.items
        (world.world store.now)
        ≡ (Ok (map seen.outed buffer.new.outs.items), world.world store.now) }
    ensures writes { spec.writes (world.env here.now)
        (map world.cell arguments.now) summary.now.items spots.writes summary.now.writes (world.world store.now)
        ≡ (Ok (map seen.written buffer.new.writes.items), world.world store.now) }
    ensures most { buffer.new.most ≡ buffer.old.most }
{
    let items = summary.items.as_slice();
    locks(
        here,
        store,
        arguments,
        spots.locks,
        items,
        &mut buffer.locks,
    );
    outs(here, store, arguments, spots.outs, items, &mut buffer.outs);
    writes(
        here,
        store,
        arguments,
        items,
        spots.writes,
        summary.writes.as_slice(),
        &mut buffer.writes,
    );
}

fn is_at(found: &[Found], at: u32) -> bool
    ensures { result ≡ list_any (nat_eq at) (map (λ f. f.at) found.now) }
{
    for f in found {
        if at == f.at {
            return true;
        }
    }
    false
}

fn meets(found: &[Found]) -> bool
    ensures { result ≡ spec.meet_twice (map (λ f. f.at) found.now) }
{
    for k in 0..found.len() {
        if is_at(&found[k + 1..], found[k].at) {
            return true;
        }
    }
    false
}

/// Whether two items are at one location.
pub fn meet_twice(found: &[Found]) -> bool
    ensures locks { result ≡ spec.meet_twice (map (λ l. l.at) (map seen.locked found.now)) }
    ensures outs { result ≡ spec.meet_twice (map (λ o. o.at) (map seen.outed found.now)) }
{
    meets(found)
}
