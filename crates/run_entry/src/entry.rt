// The world at entry: the cells and the states of all locations.

ghost use Rattle.std.specs.Prelude.{◌≡◌, ◌+◌, ◌*◌, ◌≤◌, ◌++◌, length, map, vec_capacity, IfOk};
ghost use Rattle.run_store.specs.Concrete as store;
ghost use Rattle.fsm_spec.specs.Table as table;
ghost use Rattle.sc_world.specs.World as spec;
ghost use Rattle.layout_base.specs.Seen as laid;
ghost use Rattle.run_world.specs.Seen as seen;

use crate::choice::{bit_at, number_at};
use crate::widths::integer_bits;
use layout_base::{Kind, Location, Places};
use run_world::{Here, Marks, Slot, Value, World};
use sc_base::OutOfMemory;
use sc_gather::{is_integer, is_pointer};
use std::alloc::Global;

// Any state.
const ANY: u64 = 15;

// The number of bits of a state in the store.
const STATE_BITS: u32 = 4;

// 0, null or nothing, as a location of that kind has it.
fn blank(here: &Here, of: Kind) -> Value
    ensures { seen.cell result ≡ store.blank (spec.kind_of_type (seen.env here.now).source (laid.type_of of.entry)) }
{
    match of {
        Kind::Stub | Kind::Void => Value::Nothing,
        Kind::Of(t) => {
            if is_pointer(t) {
                Value::Pointer(None)
            } else if is_integer(t) {
                Value::Number(integer_bits(here, t), 0)
            } else {
                Value::Nothing
            }
        }
    }
}

// What the bits from that one on spell, as a location of that kind has it.
#[tactic(auto, unfolding(run_world::specs::Seen::env))]
fn chosen(here: &Here, of: Kind, at: u32, own: Option<u32>) -> Value
    ensures { seen.cell result ≡ spec.chosen_cell (seen.env here.now).choice (spec.kind_of_type (seen.env here.now).source (laid.type_of of.entry)) at own }
{
    match of {
        Kind::Stub | Kind::Void => Value::Nothing,
        Kind::Of(t) => {
            if is_pointer(t) {
                Value::Pointer(if bit_at(here.choice, at as usize) {
                    own
                } else {
                    None
                })
            } else if is_integer(t) {
                let bits = integer_bits(here, t);
                Value::Number(bits, number_at(here.choice, at, bits))
            } else {
                Value::Nothing
            }
        }
    }
}

// The value of a location at entry.
fn value(here: &Here, location: &Location) -> Value
    ensures { seen.cell result ≡ spec.entry_cell (seen.env here.now).source (seen.env here.now).choice (laid.location_of location.now) }
{
    match location.bit {
        None => blank(here, location.kind),
        Some(at) => chosen(here, location.kind, at, location.target),
    }
}

// How many bits a state takes, of so many states.
fn state_bits(states: usize) -> u32
    ensures value { result ≡ table.bits_of_states states }
    ensures bound { result ≤ 64 }
{
    if states <= 2 {
        1
    } else if states <= 4 {
        2
    } else {
        3
    }
}

// The state that a number names, of so many states.
fn named_state(states: usize, number: u64) -> u64
    ensures { result ≡ table.state_of_number states number }
{
    let states = states as u64;
    if number < states {
        number
    } else {
        states.saturating_sub(1)
    }
}

// How many states there are.
#[tactic(auto, unfolding(run_world::specs::Seen::env, layout_base::specs::Seen::ground_of, sc_gather::specs::Seen::source_of, sc_world::specs::Programs::source_by))]
fn states(here: &Here) -> usize
    ensures { result ≡ spec.states (seen.env here.now).source }
{
    here.ground.here.machine.states()
}

// The state of a location at entry.
#[tactic(auto, unfolding(run_world::specs::Seen::env))]
fn state(here: &Here, first: Option<u32>) -> u64
    ensures { result ≡ spec.entry_state_at (seen.env here.now).source (seen.env here.now).choice first }
{
    match first {
        None => ANY,
        Some(at) => {
            let states = states(here);
            named_state(states, number_at(here.choice, at, state_bits(states)))
        }
    }
}

// The cells of all locations, behind what is there.
#[tactic(auto, unfolding(run_world::specs::Seen::env, layout_base::specs::Seen::layout_of))]
fn push_cells(here: &Here, slots: &mut Vec<Slot>)
    requires room { length slots.old.items + length (seen.env here.now).layout.locations ≤ vec_capacity slots.old }
    ensures slots { map seen.place slots.new.items ≡ map seen.place slots.old.items
        ++ map (spec.entry_place (seen.env here.now).source (seen.env here.now).choice) (seen.env here.now).layout.locations }
    ensures length { length slots.new.items ≡ length slots.old.items + length (seen.env here.now).layout.locations }
    ensures capacity { vec_capacity slots.old ≤ vec_capacity slots.new }
{
    for location in here.places.locations.as_slice() {
        let _ = slots.push(Slot {
            value: value(here, location),
            marks: Marks::none(),
        });
    }
}

// The states of all locations, behind what is there.
#[tactic(auto, unfolding(run_world::specs::Seen::env, layout_base::specs::Seen::layout_of))]
fn push_states(here: &Here, slots: &mut Vec<Slot>)
    requires room { length slots.old.items + length (seen.env here.now).layout.locations ≤ vec_capacity slots.old }
    ensures slots { map seen.place slots.new.items ≡ map seen.place slots.old.items
        ++ map (spec.state_place (seen.env here.now).source (seen.env here.now).choice) (seen.env here.now).layout.locations }
    ensures capacity { vec_capacity slots.old ≤ vec_capacity slots.new }
{
    for location in here.places.locations.as_slice() {
        let _ = slots.push(Slot {
            value: Value::Number(STATE_BITS, state(here, location.state)),
            marks: Marks::none(),
        });
    }
}

/// Room for the world of runs over these places whose trace has at most that many events.
pub fn reserve(alloc: Global, places: &Places, events: usize) -> Result<World, OutOfMemory>
    ensures slots { IfOk result (λ w. 2 * length (laid.layout_of places.now).locations ≤ vec_capacity w.slots) }
    ensures trace { IfOk result (λ w. events ≤ vec_capacity w.trace) }
{
    let Some(cells) = places.count().checked_mul(2) else {
        return Err(OutOfMemory);
    };
    Ok(World {
        slots: Vec::with_capacity(alloc, cells)?,
        trace: Vec::with_capacity(alloc, events)?,
    })
}

/// The world becomes that at entry of the run; what was in it is gone. It takes no memory.
#[tactic(auto, unfolding(run_world::specs::Seen::world))]
pub fn enter(here: &Here, world: &mut World)
    requires room { 2 * length (seen.env here.now).layout.locations ≤ vec_capacity world.old.slots }
    ensures world { seen.world world.new ≡ spec.entry_world (seen.env here.now).source (seen.env here.now).layout (seen.env here.now).choice }
    ensures slots { vec_capacity world.old.slots ≤ vec_capacity world.new.slots }
    ensures trace { vec_capacity world.old.trace ≤ vec_capacity world.new.trace }
{
    world.trace.clear();
    world.slots.clear();
    push_cells(here, &mut world.slots);
    push_states(here, &mut world.slots);
}
