// The stores that an initialiser in braces makes.

ghost use Rattle.std.specs.Prelude.{◌≡◌, ◌+◌, ◌<◌, ◌≤◌, [], ◌∷◌, ◌++◌, length, map, drop, slice_get, vec_capacity, Ok};
ghost use Rattle.sc_world.specs.Eval as eval;
ghost use Rattle.run_world.specs.Seen as seen;
ghost use Rattle.run_values.specs.Objects.{cells_from};
ghost use Rattle.run_inits.specs.Stores as spec;

use crate::cells::belongs;
use run_world::{Here, Value, World};

/// A cell, and the value that it is to have.
#[derive(Clone, Copy, Debug, PartialEq, Eq)]
pub struct Store {
    pub at: usize,
    pub value: Value,
}

// A store is put behind others, where there is room.
fn put(stores: &mut Vec<Store>, at: usize, value: Value)
    requires room { length stores.old.items < vec_capacity stores.old }
    ensures kept { stores.new.items ≡ stores.old.items ++ record { at = at; value = value } ∷ [] }
    ensures capacity { vec_capacity stores.old ≤ vec_capacity stores.new }
{
    let _ = stores.push(Store { at, value });
}

// The value with that number, if there is one.
fn value_at(values: &[Value], number: usize) -> Option<Value>
    ensures { result ≡ slice_get values.now number }
{
    values.get(number).copied()
}

// Location k is passed: where it is a cell of the object, it is to have the next value. Answers which value is next.
#[tactic(auto, using(crate::proofs::CellLaws::pair_steps), unfolding(run_world::specs::Seen::env))]
fn pair_cell(
    here: &Here,
    at: u32,
    k: usize,
    values: &[Value],
    next: usize,
    stores: &mut Vec<Store>,
) -> usize
    requires low { k < length (seen.env here.now).layout.locations }
    requires next { next ≤ length values.now }
    requires room { length stores.old.items + length values.now ≤ vec_capacity stores.old + next }
    ensures paired { map spec.due_of stores.new.items
        ++ spec.paired (cells_from (seen.env here.now).layout at (k + 1)) (map seen.cell (drop result values.now))
        ≡ map spec.due_of stores.old.items
        ++ spec.paired (cells_from (seen.env here.now).layout at k) (map seen.cell (drop next values.now)) }
    ensures next { result ≤ length values.now }
    ensures few { length stores.new.items + next ≤ length stores.old.items + result }
    ensures capacity { vec_capacity stores.old ≤ vec_capacity stores.new }
{
    if !belongs(here.places, at, k) {
        return next;
    }
    match value_at(values, next) {
        None => next,
        Some(value) => {
            put(stores, k, value);
            next + 1
        }
    }
}

// The cells of an object are to have these values, in order, as long as there are both.
#[tactic(auto, using(crate::proofs::CellLaws::pairs_steps), unfolding(run_world::specs::Seen::env))]
fn pair_cells(here: &Here, at: u32, values: &[Value], stores: &mut Vec<Store>)
    requires room { length stores.old.items + length values.now ≤ vec_capacity stores.old }
    ensures paired { map spec.due_of stores.new.items
        ≡ map spec.due_of stores.old.items
        ++ spec.paired (eval.cells_of (seen.env here.now).layout at) (map seen.cell values.now) }
    ensures few { length stores.new.items ≤ length stores.old.items + length values.now }
    ensures capacity { vec_capacity stores.old ≤ vec_capacity stores.new }
{
    let mut next = 0;
    for k in 0..here.places.count() {
        next = pair_cell(here, at, k, values, next, stores);
    }
}

/// A part, if there is one, is to have these values.
#[tactic(auto, using(crate::proofs::CellLaws::append_steps))]
pub fn set_part(here: &Here, part: Option<u32>, values: &[Value], stores: &mut Vec<Store>)
    requires room { length stores.old.items + length values.now ≤ vec_capacity stores.old }
    ensures stores { map spec.due_of stores.new.items
        ≡ map spec.due_of stores.old.items ++ spec.part_stores (seen.env here.now) part (map seen.cell values.now) }
    ensures few { length stores.new.items ≤ length stores.old.items + length values.now }
    ensures capacity { vec_capacity stores.old ≤ vec_capacity stores.new }
{
    match part {
        None => {}
        Some(at) => pair_cells(here, at, values, stores),
    }
}

/// Makes these stores, in order.
pub fn make_stores(world: &mut World, stores: &[Store])
    ensures stored { spec.stores (map spec.due_of stores.now) (seen.world world.old) ≡ (Ok tt, seen.world world.new) }
    ensures trace { world.new.trace ≡ world.old.trace }
{
    for store in stores {
        world.store(store.at, store.value);
    }
}
