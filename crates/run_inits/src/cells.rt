// The cells of an object.

ghost use Rattle.std.specs.Prelude.{◌≡◌, ◌+◌, ◌<◌, ◌≤◌, ◌∷◌, ◌++◌, length, map, vec_capacity, Ok, Some};
ghost use Rattle.run_store.specs.Concrete as store;
ghost use Rattle.sc_world.specs.Layout as layouts;
ghost use Rattle.sc_world.specs.Eval as spec;
ghost use Rattle.sc_world.specs.Exec as exec;
ghost use Rattle.sc_world.specs.View.{type};
ghost use Rattle.sc_world.specs.World.{kind_of_type};
ghost use Rattle.layout_base.specs.Seen as laid;
ghost use Rattle.run_world.specs.Seen as seen;
ghost use Rattle.run_values.specs.Objects.{is_cell_of, cells_from};

use layout_base::{Kind, Places, is_cell as has_cell};
use run_entry::integer_bits;
use run_values::keep;
use run_world::{Here, Value, World};
use sc_gather::{is_integer, is_pointer};
use sc_tree::ctype::CType;
use sc_world::Origin;

// No function has more locations, so no location is a part of another one through more steps.
const MOST_STEPS: u32 = 256;

// Where a location comes from.
#[tactic(auto, unfolding(layout_base::specs::Seen::layout_of))]
fn origin_at(places: &Places, k: usize) -> Origin
    ensures { result ≡ (layouts.location (laid.layout_of places.now) k).origin }
{
    match places.locations.get(k) {
        None => Origin::Param(0),
        Some(location) => location.origin,
    }
}

// Whether a location is the one at `at` or a part of it, through so many steps at most.
#[tactic(auto, using(crate::proofs::CellLaws::within_steps))]
fn is_within(places: &Places, steps: u32, at: u32, k: usize) -> bool
    ensures { result ≡ spec.is_within steps (laid.layout_of places.now) at k }
{
    if at as usize == k {
        return true;
    }
    if steps == 0 {
        return false;
    }
    match origin_at(places, k) {
        Origin::Part(up, _) => is_within(places, steps - 1, at, up as usize),
        Origin::Param(_)
        | Origin::Global(_)
        | Origin::Local(_)
        | Origin::Literal(_)
        | Origin::Function(_)
        | Origin::Target(_)
        | Origin::Call(_) => false,
    }
}

// Whether a location has a cell.
#[tactic(auto, unfolding(layout_base::specs::Seen::layout_of))]
fn is_cell(places: &Places, k: usize) -> bool
    ensures { result ≡ layouts.is_cell (layouts.location (laid.layout_of places.now) k) }
{
    match places.locations.get(k) {
        None => false,
        Some(location) => match location.kind {
            Kind::Stub | Kind::Void => false,
            Kind::Of(t) => has_cell(t),
        },
    }
}

/// Whether a location is a cell of the object at `at`.
#[tactic(auto, unfolding(run_values::specs::Objects::is_cell_of))]
pub fn belongs(places: &Places, at: u32, k: usize) -> bool
    ensures { result ≡ is_cell_of (laid.layout_of places.now) at k }
{
    is_cell(places, k) && is_within(places, MOST_STEPS, at, k)
}

// Location k is passed: where it is a cell of the object, its value stands behind those that were read before.
#[tactic(auto, using(crate::proofs::CellLaws::load_steps), unfolding(run_world::specs::Seen::env))]
fn load_cell(here: &Here, world: &World, at: u32, k: usize, values: &mut Vec<Value>)
    requires low { k < length (seen.env here.now).layout.locations }
    requires room { length values.old.items < vec_capacity values.old }
    ensures loaded { map seen.cell values.new.items
        ++ map (store.nth_cell (seen.world world.now).places) (cells_from (seen.env here.now).layout at (k + 1))
        ≡ map seen.cell values.old.items
        ++ map (store.nth_cell (seen.world world.now).places) (cells_from (seen.env here.now).layout at k) }
    ensures few { length values.new.items ≤ length values.old.items + 1 }
    ensures room { vec_capacity values.old ≤ vec_capacity values.new }
{
    if belongs(here.places, at, k) {
        keep(values, world.load(k));
    }
}

/// The values of the cells of an object, in order. They are put where there is room for a value of each location.
#[tactic(auto, using(crate::proofs::CellLaws::walk_steps), unfolding(run_world::specs::Seen::env))]
pub fn load_cells(here: &Here, world: &World, at: u32, values: &mut Vec<Value>)
    requires room { length (seen.env here.now).layout.locations ≤ vec_capacity values.old }
    ensures loaded { spec.load_all (spec.cells_of (seen.env here.now).layout at) (seen.world world.now)
        ≡ (Ok (map seen.cell values.new.items), seen.world world.now) }
    ensures few { length values.new.items ≤ length (seen.env here.now).layout.locations }
    ensures room { vec_capacity values.old ≤ vec_capacity values.new }
{
    values.clear();
    for k in 0..here.places.count() {
        load_cell(here, world, at, k, values);
    }
}

/// 0, null or nothing, as a cell of that type has it.
pub fn blank(here: &Here, t: &CType) -> Value
    ensures { seen.cell result ≡ store.blank (kind_of_type (seen.env here.now).source (Some (type t.now))) }
{
    if is_pointer(t) {
        Value::Pointer(None)
    } else if is_integer(t) {
        Value::Number(integer_bits(here, t), 0)
    } else {
        Value::Nothing
    }
}

// The same of the location with that number.
#[tactic(auto, unfolding(run_world::specs::Seen::env, layout_base::specs::Seen::layout_of))]
fn blank_at(here: &Here, k: usize) -> Value
    ensures { seen.cell result
        ≡ store.blank (kind_of_type (seen.env here.now).source (layouts.location (seen.env here.now).layout k).type) }
{
    match here.places.locations.get(k) {
        None => Value::Nothing,
        Some(location) => match location.kind {
            Kind::Stub | Kind::Void => Value::Nothing,
            Kind::Of(t) => blank(here, t),
        },
    }
}

// Location k is passed: where it is a cell of the object, it is set to 0 or null.
#[tactic(auto, unfolding(run_world::specs::Seen::env))]
fn clear_cell(here: &Here, world: &mut World, at: u32, k: usize)
    requires low { k < length (seen.env here.now).layout.locations }
    ensures cleared { exec.clear (seen.env here.now) (cells_from (seen.env here.now).layout at (k + 1))
        (seen.world world.new)
        ≡ exec.clear (seen.env here.now) (cells_from (seen.env here.now).layout at k) (seen.world world.old) }
    ensures trace { world.new.trace ≡ world.old.trace }
{
    if belongs(here.places, at, k) {
        world.store(k, blank_at(here, k));
    }
}

/// All cells of an object are set to 0 or null.
#[tactic(auto, using(crate::proofs::CellLaws::walk_steps), unfolding(run_world::specs::Seen::env))]
pub fn clear_cells(here: &Here, world: &mut World, at: u32)
    ensures cleared { exec.clear (seen.env here.now) (spec.cells_of (seen.env here.now).layout at)
        (seen.world world.old)
        ≡ (Ok tt, seen.world world.new) }
    ensures trace { world.new.trace ≡ world.old.trace }
{
    for k in 0..here.places.count() {
        clear_cell(here, world, at, k);
    }
}
