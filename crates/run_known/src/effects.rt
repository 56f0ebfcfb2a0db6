// What a known call does to the world.

ghost use Rattle.std.specs.Prelude.{◌≡◌, ◌<◌, ◌≤◌, ◌^◌, Ok, IsTrue, length, map};
ghost use Rattle.sc_world.specs.Known as spec;
ghost use Rattle.sc_world.specs.World as base;
ghost use Rattle.layout_base.specs.Seen as laid;
ghost use Rattle.run_world.specs.Seen as seen;
ghost use Rattle.run_paths.specs.Seen as paths;
ghost use Rattle.run_known.specs.Seen as known;

use crate::acting::Acting;
use crate::given::Given;
use crate::needs::{out_state, param_state, state_after};
use layout_base::Kind;
use run_calls::{escape, free};
use run_entry::{bit_at, integer_bits, number_at};
use run_paths::{Found, Sort, Written, argument, is_of, spot_at, spot_behind};
use run_store::Flag;
use run_world::{Ended, Here, Value, World, set_state};
use sc_gather::{is_integer, is_pointer};
use sum_rows::{Item, ItemRows, State};

// The locations get their states, and are touched.
fn set_states(here: &Here, world: &mut World, locks: &[Found])
    ensures states { spec.set_states (seen.env here.now) (map (spec.state_after (seen.env here.now))
        (map paths.locked locks.now)) (map paths.locked locks.now)
        (seen.world world.old) ≡ (Ok tt, seen.world world.new) }
    ensures trace { world.new.trace ≡ world.old.trace }
{
    for lock in locks {
        set_state(here, world, lock.at, state_after(here, lock));
        world.mark(lock.at as usize, Flag::Touched);
    }
}

// A fresh object is allocated, any other one may be known outside.
fn mark_if(world: &mut World, object: Option<u32>, kind: State)
    ensures mark { spec.mark_if object kind (seen.world world.old) ≡ (Ok tt, seen.world world.new) }
    ensures trace { world.new.trace ≡ world.old.trace }
{
    match object {
        None => {}
        Some(at) => match kind {
            State::Fresh => world.mark(at as usize, Flag::Allocated),
            State::Other => world.mark(at as usize, Flag::Escaped),
            State::Nil
            | State::At(_)
            | State::Bad
            | State::Held
            | State::Escaped
            | State::Freed
            | State::Null
            | State::Same => {}
        },
    }
}

fn out_cell(kind: State, object: Option<u32>) -> Value
    ensures { seen.cell result ≡ spec.out_cell kind object }
{
    match kind {
        State::Null => Value::Pointer(None),
        State::Nil
        | State::At(_)
        | State::Bad
        | State::Held
        | State::Escaped
        | State::Freed
        | State::Fresh
        | State::Other
        | State::Same => Value::Pointer(object),
    }
}

fn put_out(world: &mut World, kind: State, out: &Found)
    ensures put { base.goes_on (base.store out.now.at (spec.out_cell kind out.now.object)
        (seen.world world.old)) (λ _. spec.mark_if out.now.object kind)
        ≡ (Ok tt, seen.world world.new) }
    ensures trace { world.new.trace ≡ world.old.trace }
{
    world.store(out.at as usize, out_cell(kind, out.object));
    mark_if(world, out.object, kind);
}

fn set_out_as(world: &mut World, kind: State, out: &Found)
    ensures set { spec.set_out_as kind (paths.outed out.now) (seen.world world.old) ≡ (Ok tt, seen.world world.new) }
    ensures trace { world.new.trace ≡ world.old.trace }
{
    match kind {
        State::Same => {}
        State::Nil
        | State::At(_)
        | State::Bad
        | State::Held
        | State::Escaped
        | State::Freed
        | State::Null
        | State::Fresh
        | State::Other => put_out(world, kind, out),
    }
}

// The pointers that parameters point to get what the choice says.
#[tactic(auto, unfolding(run_world::specs::Seen::env))]
fn set_outs(here: &Here, world: &mut World, outs: &[Found])
    ensures set { spec.set_outs (seen.env here.now) (map paths.outed outs.now) (seen.world world.old) ≡
        (Ok tt, seen.world world.new) }
    ensures trace { world.new.trace ≡ world.old.trace }
{
    for out in outs {
        let kind = out_state(number_at(here.choice, out.bit, 2));
        set_out_as(world, kind, out);
    }
}

// Whether a location is a pointer cell, or one of numbers of that width.
fn takes(here: &Here, kind: Kind, width: u32) -> bool
    ensures value { result ≡ known.takes (seen.env here.now).source (laid.type_of kind.entry) width }
    ensures width { IsTrue result → width ≤ 64 }
{
    match kind {
        Kind::Stub | Kind::Void => false,
        Kind::Of(t) => {
            if is_pointer(t) {
                width == 0
            } else {
                is_integer(t) && width != 0 && integer_bits(here, t) == width
            }
        }
    }
}

#[tactic(auto, unfolding(run_world::specs::Seen::env))]
fn written_cell(here: &Here, x: &Written) -> Value
    requires { x.now.width ≤ 64 }
    ensures { seen.cell result ≡ spec.written_cell (seen.env here.now) (paths.written x.now) }
{
    if x.width == 0 {
        Value::Pointer(if bit_at(here.choice, x.bit as usize) {
            x.object
        } else {
            None
        })
    } else {
        Value::Number(x.width, number_at(here.choice, x.bit, x.width))
    }
}

// A cell of another width is not written.
#[tactic(auto, using(crate::proofs::CellKinds::kind_of_written), unfolding(run_world::specs::Seen::env))]
fn set_written(here: &Here, world: &mut World, x: &Written)
    ensures set { spec.set_written (seen.env here.now) (paths.written x.now) (seen.world world.old) ≡
        (Ok tt, seen.world world.new) }
    ensures trace { world.new.trace ≡ world.old.trace }
{
    if takes(here, here.places.location(x.at).kind, x.width) {
        world.store(x.at as usize, written_cell(here, x));
    }
}

// The other written cells get what the choice says.
fn set_writes(here: &Here, world: &mut World, writes: &[Written])
    ensures set { spec.set_writes (seen.env here.now) (map paths.written writes.now) (seen.world world.old) ≡
        (Ok tt, seen.world world.new) }
    ensures trace { world.new.trace ≡ world.old.trace }
{
    for x in writes {
        set_written(here, world, x);
    }
}

fn param_effect(
    here: &Here,
    world: &mut World,
    kind: Option<State>,
    pointer: Value,
) -> Result<(), Ended>
    ensures effect { seen.Does (λ x. x) (spec.param_effect (seen.env here.now) kind (seen.cell pointer)
        (seen.world world.old)) result (seen.world world.new) }
    ensures trace { world.new.trace ≡ world.old.trace }
{
    match kind {
        None => Ok(()),
        Some(state) => match state {
            State::Escaped => {
                escape(here, world, pointer);
                Ok(())
            }
            State::Freed => free(here, world, pointer),
            State::Nil
            | State::At(_)
            | State::Bad
            | State::Held
            | State::Null
            | State::Fresh
            | State::Other
            | State::Same => Ok(()),
        },
    }
}

#[tactic(auto, unfolding(run_world::specs::Seen::env))]
fn param_acts(
    here: &Here,
    world: &mut World,
    arguments: &[Value],
    spot: usize,
    item: &Item,
) -> Result<(), Ended>
    ensures effect { seen.Does (λ x. x) (spec.param_acts (seen.env here.now)
        (map seen.cell arguments.now) spot item.now (seen.world world.old)) result (seen.world world.new) }
    ensures trace { world.new.trace ≡ world.old.trace }
{
    match item {
        Item::Param(n) => {
            let kind = param_state(number_at(here.choice, spot_at(here.places, spot).bit, 2));
            param_effect(here, world, kind, argument(arguments, *n))
        }
        Item::Exit | Item::Lock(_) | Item::Out(_) => Ok(()),
    }
}

// Objects of parameters escape or are freed.
fn params_act(
    here: &Here,
    world: &mut World,
    arguments: &[Value],
    spot: usize,
    items: &[ItemRows],
) -> Result<(), Ended>
    requires spot { spot < 2 ^ 62 }
    requires few { length items.now < 2 ^ 32 }
    ensures effect { seen.Does (λ x. x) (spec.params_act (seen.env here.now)
        (map seen.cell arguments.now) spot items.now (seen.world world.old)) result (seen.world world.new) }
    ensures trace { world.new.trace ≡ world.old.trace }
{
    let mut k = spot;
    for x in items {
        param_acts(here, world, arguments, k, &x.item)?;
        k = spot_behind(is_of(Sort::Param, &x.item), k);
    }
    Ok(())
}

/// What a known call does that ends in no error, and what it gives.
pub fn effects(
    here: &Here,
    world: &mut World,
    acting: &Acting,
    given: Given,
) -> Result<Value, Ended>
    requires params { acting.now.params ≡ spec.param_spot (known.acting acting.now) }
    requires spot { acting.now.params < 2 ^ 62 }
    requires few { length acting.now.summary.now.items < 2 ^ 32 }
    ensures effects { seen.Does seen.cell (spec.effects (seen.env here.now) (known.acting acting.now)
        (known.given given)
        (map (spec.state_after (seen.env here.now)) (known.acting acting.now).locks)
        (seen.world world.old)) result (seen.world world.new) }
    ensures trace { world.new.trace ≡ world.old.trace }
{
    set_states(here, world, acting.locks);
    set_outs(here, world, acting.outs);
    set_writes(here, world, acting.writes);
    params_act(
        here,
        world,
        acting.arguments,
        acting.params,
        acting.summary.items.as_slice(),
    )?;
    mark_if(world, given.object, given.kind);
    Ok(given.value)
}
