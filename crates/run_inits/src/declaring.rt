// Declarations in a body (C11 6.7, 6.7.9).

ghost use Rattle.std.specs.Prelude.{◌≡◌, ◌+◌, ◌<◌, ◌≤◌, ◌^◌, length, vec_capacity, OnOk};
ghost use Rattle.sc_world.specs.Exec as spec;
ghost use Rattle.sc_world.specs.Tree.{One};
ghost use Rattle.run_world.specs.Seen as seen;
ghost use Rattle.run_inits.specs.Reads.{reads_at};
ghost use Rattle.run_inits.specs.Room.{HasRoom, Uses, room_of_exp, room_of_init, room_of_dec, room_of_decs};
ghost use Rattle.run_inits.specs.Seen.{exp_of, init_of, dec_of, decs_of};

use crate::braces::braces;
use crate::evaluating::evaluate;
use crate::space::Space;
use run_exprs::Calls;
use run_room::is_scalar;
use run_values::{Want, copy, location_of};
use run_world::{Ended, Here, World};
use sc_typed::{Declared, TDeclarator, TExpr, TInit};
use sc_world::Origin;

// Sets an object to the value of an expression.
fn one<C: Calls>(
    here: &Here,
    world: &mut World,
    space: &mut Space,
    calls: &mut C,
    at: u32,
    e: &TExpr,
) -> Result<(), Ended>
    requires reads { C.reads calls.old ≡ reads_at (seen.env here.now) }
    requires few { length here.now.places.now.locations.items < 2 ^ 32 }
    requires room { HasRoom here.now world.old space.old.kept (room_of_exp here.now e.now) }
    requires stores { room_of_exp here.now e.now ≤ vec_capacity space.old.stores }
    ensures initialised { seen.Does (λ _. tt)
        (spec.initialise at (One (exp_of here.now e.now)) (seen.env here.now) (seen.world world.old))
        result (seen.world world.new) }
    ensures used { Uses world.old world.new space.old.kept space.new.kept (room_of_exp here.now e.now) }
    ensures arguments { OnOk result (space.new.kept.arguments.items ≡ space.old.kept.arguments.items) }
    ensures store_room { vec_capacity space.old.stores ≤ vec_capacity space.new.stores }
    ensures reads { C.reads calls.new ≡ C.reads calls.old }
{
    if is_scalar(here, e) {
        let value = evaluate(here, world, space, calls, e, Want::Value)?;
        world.store(at as usize, value);
    } else {
        let from = evaluate(here, world, space, calls, e, Want::Place)?;
        copy(here, world, &mut space.kept.cells, from.place(), at);
    }
    Ok(())
}

// Sets an object to an initialiser, if there is one.
fn initialise<C: Calls>(
    here: &Here,
    world: &mut World,
    space: &mut Space,
    calls: &mut C,
    at: u32,
    init: &Option<TInit>,
) -> Result<(), Ended>
    requires reads { C.reads calls.old ≡ reads_at (seen.env here.now) }
    requires few { length here.now.places.now.locations.items < 2 ^ 32 }
    requires room { HasRoom here.now world.old space.old.kept (room_of_init here.now init.now) }
    requires stores { room_of_init here.now init.now ≤ vec_capacity space.old.stores }
    ensures initialised { seen.Does (λ _. tt)
        (spec.initialise at (init_of here.now init.now) (seen.env here.now) (seen.world world.old))
        result (seen.world world.new) }
    ensures used { Uses world.old world.new space.old.kept space.new.kept (room_of_init here.now init.now) }
    ensures arguments { OnOk result (space.new.kept.arguments.items ≡ space.old.kept.arguments.items) }
    ensures store_room { vec_capacity space.old.stores ≤ vec_capacity space.new.stores }
    ensures reads { C.reads calls.new ≡ C.reads calls.old }
{
    match init {
        None => Ok(()),
        Some(init) => match init {
            TInit::One(e) => one(here, world, space, calls, at, e),
            TInit::Braces(items) => braces(here, world, space, calls, at, items.as_slice()),
        },
    }
}

// A declarator: a local is set to its initialiser.
#[tactic(auto, unfolding(run_world::specs::Seen::env))]
fn declarator<C: Calls>(
    here: &Here,
    world: &mut World,
    space: &mut Space,
    calls: &mut C,
    d: &TDeclarator,
) -> Result<(), Ended>
    requires reads { C.reads calls.old ≡ reads_at (seen.env here.now) }
    requires few { length here.now.places.now.locations.items < 2 ^ 32 }
    requires room { HasRoom here.now world.old space.old.kept (room_of_dec here.now d.now) }
    requires stores { room_of_dec here.now d.now ≤ vec_capacity space.old.stores }
    ensures declared { seen.Does (λ _. tt)
        (spec.declarator (dec_of here.now d.now) (seen.env here.now) (seen.world world.old))
        result (seen.world world.new) }
    ensures used { Uses world.old world.new space.old.kept space.new.kept (room_of_dec here.now d.now) }
    ensures arguments { OnOk result (space.new.kept.arguments.items ≡ space.old.kept.arguments.items) }
    ensures store_room { vec_capacity space.old.stores ≤ vec_capacity space.new.stores }
    ensures reads { C.reads calls.new ≡ C.reads calls.old }
{
    match d.declared {
        Declared::Local(n) => {
            let at = location_of(here, Origin::Local(n));
            initialise(here, world, space, calls, at, &d.init)
        }
        Declared::Global(_) | Declared::Function => Ok(()),
    }
}

/// Declarators, one after another: each local is set to its initialiser. It takes no memory.
pub fn declarators<C: Calls>(
    here: &Here,
    world: &mut World,
    space: &mut Space,
    calls: &mut C,
    declarators: &[TDeclarator],
) -> Result<(), Ended>
    requires reads { C.reads calls.old ≡ reads_at (seen.env here.now) }
    requires few { length here.now.places.now.locations.items < 2 ^ 32 }
    requires room { HasRoom here.now world.old space.old.kept (room_of_decs here.now declarators.now) }
    requires stores { room_of_decs here.now declarators.now ≤ vec_capacity space.old.stores }
    ensures declared { seen.Does (λ _. tt)
        (spec.declarators (decs_of here.now declarators.now) (seen.env here.now) (seen.world world.old))
        result (seen.world world.new) }
    ensures used { Uses world.old world.new space.old.kept space.new.kept (room_of_decs here.now declarators.now) }
    ensures arguments { OnOk result (space.new.kept.arguments.items ≡ space.old.kept.arguments.items) }
    ensures store_room { vec_capacity space.old.stores ≤ vec_capacity space.new.stores }
    ensures reads { C.reads calls.new ≡ C.reads calls.old }
{
    for d in declarators {
        declarator(here, world, space, calls, d)?;
    }
    Ok(())
}
