// The cells of an object, and how one object is copied to another (C11 6.5.16.1).

ghost use Rattle.std.specs.Prelude.{◌≡◌, ◌+◌, ◌<◌, ◌≤◌, [], ◌∷◌, ◌++◌, length, map, drop, slice_get, vec_capacity, Ok};
ghost use Rattle.run_store.specs.Concrete as store;
ghost use Rattle.sc_world.specs.Layout as layouts;
ghost use Rattle.sc_world.specs.Eval as spec;
ghost use Rattle.layout_base.specs.Seen as laid;
ghost use Rattle.run_world.specs.Seen as seen;
ghost use Rattle.run_values.specs.Objects.{is_cell_of, cells_from};

use layout_base::{Kind, Places, is_cell as has_cell};
use run_world::{Here, Value, World};
use sc_world::Origin;

// No function has more locations, so no location is a part of another one through more steps.
const MOST_STEPS: u32 = 256;

// Where a location comes from.
#[tactic(auto, unfolding(layout_base::specs::Seen::layout_of))]
fn origin_at(places: &Places, k: usize) -> Origin
    ensures { result ≡ (layouts.location (laid.layout_of places.now) k).origin }
{
    match places.locations.get(k) {
        None => Origin::Param(0),
        Some(location) => location.origin,
    }
}

// Whether a location is the one at `at` or a part of it, through so many steps at most.
#[tactic(auto, using(crate::proofs::Cells::within_steps))]
fn is_within(places: &Places, steps: u32, at: u32, k: usize) -> bool
    ensures { result ≡ spec.is_within steps (laid.layout_of places.now) at k }
{
    if at as usize == k {
        return true;
    }
    if steps == 0 {
        return false;
    }
    match origin_at(places, k) {
        Origin::Part(up, _) => is_within(places, steps - 1, at, up as usize),
        Origin::Param(_)
        | Origin::Global(_)
        | Origin::Local(_)
        | Origin::Literal(_)
        | Origin::Function(_)
        | Origin::Target(_)
        | Origin::Call(_) => false,
    }
}

// Whether a location has a cell.
#[tactic(auto, unfolding(layout_base::specs::Seen::layout_of))]
fn is_cell(places: &Places, k: usize) -> bool
    ensures { result ≡ layouts.is_cell (layouts.location (laid.layout_of places.now) k) }
{
    match places.locations.get(k) {
        None => false,
        Some(location) => match location.kind {
            Kind::Stub | Kind::Void => false,
            Kind::Of(t) => has_cell(t),
        },
    }
}

// Whether a location is a cell of the object at `at`.
#[tactic(auto, unfolding(crate::specs::Objects::is_cell_of))]
fn belongs(places: &Places, at: u32, k: usize) -> bool
    ensures { result ≡ is_cell_of (laid.layout_of places.now) at k }
{
    is_cell(places, k) && is_within(places, MOST_STEPS, at, k)
}

/// A value is put behind others, where there is room.
pub fn keep(values: &mut Vec<Value>, value: Value)
    requires room { length values.old.items < vec_capacity values.old }
    ensures kept { values.new.items ≡ values.old.items ++ value ∷ [] }
    ensures capacity { vec_capacity values.old ≤ vec_capacity values.new }
{
    let _ = values.push(value);
}

// Location k is passed: where it is a cell of the object, its value stands behind those that were read before.
#[tactic(auto, using(crate::proofs::Cells::load_steps), unfolding(run_world::specs::Seen::env))]
fn load_cell(here: &Here, world: &World, at: u32, k: usize, values: &mut Vec<Value>)
    requires low { k < length (seen.env here.now).layout.locations }
    requires room { length values.old.items < vec_capacity values.old }
    ensures loaded { map seen.cell values.new.items ++ map (store.nth_cell (seen.world world.now).places) (cells_from (seen.env here.now).layout at (k + 1))
        ≡ map seen.cell values.old.items ++ map (store.nth_cell (seen.world world.now).places) (cells_from (seen.env here.now).layout at k) }
    ensures few { length values.new.items ≤ length values.old.items + 1 }
    ensures room { vec_capacity values.old ≤ vec_capacity values.new }
{
    if belongs(here.places, at, k) {
        keep(values, world.load(k));
    }
}

// The values of the cells of an object, in order. They are put where there is room for a value of each location.
#[tactic(auto, using(crate::proofs::Cells::walk_steps), unfolding(run_world::specs::Seen::env))]
fn load_cells(here: &Here, world: &World, at: u32, values: &mut Vec<Value>)
    requires room { length (seen.env here.now).layout.locations ≤ vec_capacity values.old }
    ensures loaded { spec.load_all (spec.cells_of (seen.env here.now).layout at) (seen.world world.now)
        ≡ (Ok (map seen.cell values.new.items), seen.world world.now) }
    ensures room { vec_capacity values.old ≤ vec_capacity values.new }
{
    values.clear();
    for k in 0..here.places.count() {
        load_cell(here, world, at, k, values);
    }
}

// The value with that number, if there is one.
fn value_at(values: &[Value], number: usize) -> Option<Value>
    ensures { result ≡ slice_get values.now number }
{
    values.get(number).copied()
}

// Location k is passed: where it is a cell of the object, the next value is stored there. Answers which value is next.
#[tactic(auto, using(crate::proofs::Cells::store_steps), unfolding(run_world::specs::Seen::env))]
fn store_cell(
    here: &Here,
    world: &mut World,
    at: u32,
    k: usize,
    values: &[Value],
    next: usize,
) -> usize
    requires low { k < length (seen.env here.now).layout.locations }
    requires next { next ≤ length values.now }
    ensures stored { spec.store_all (cells_from (seen.env here.now).layout at (k + 1)) (map seen.cell (drop result values.now)) (seen.world world.new)
        ≡ spec.store_all (cells_from (seen.env here.now).layout at k) (map seen.cell (drop next values.now)) (seen.world world.old) }
    ensures next { result ≤ length values.now }
    ensures trace { world.new.trace ≡ world.old.trace }
{
    if !belongs(here.places, at, k) {
        return next;
    }
    match value_at(values, next) {
        None => next,
        Some(value) => {
            world.store(k, value);
            next + 1
        }
    }
}

// The values are stored in the cells of an object, in order, as long as there are both.
#[tactic(auto, using(crate::proofs::Cells::walk_steps), unfolding(run_world::specs::Seen::env))]
fn store_cells(here: &Here, world: &mut World, at: u32, values: &[Value])
    ensures stored { spec.store_all (spec.cells_of (seen.env here.now).layout at) (map seen.cell values.now) (seen.world world.old)
        ≡ (Ok tt, seen.world world.new) }
    ensures trace { world.new.trace ≡ world.old.trace }
{
    let mut next = 0;
    for k in 0..here.places.count() {
        next = store_cell(here, world, at, k, values, next);
    }
}

/// The object at `from` is copied to `to`: all its cells are read, then those of the other one are stored. The values
/// stand in `values` meanwhile, which has room for one of each location.
pub fn copy(here: &Here, world: &mut World, values: &mut Vec<Value>, from: u32, to: u32)
    requires room { length (seen.env here.now).layout.locations ≤ vec_capacity values.old }
    ensures copied { spec.copy (seen.env here.now) from to (seen.world world.old) ≡ (Ok tt, seen.world world.new) }
    ensures trace { world.new.trace ≡ world.old.trace }
    ensures room { vec_capacity values.old ≤ vec_capacity values.new }
{
    load_cells(here, world, from, values);
    store_cells(here, world, to, values.as_slice());
}
