// Values in braces (C11 6.7.9): all of them are evaluated, and then the cells of the object are set, the rest to 0 or
// null.

ghost use Rattle.std.specs.Prelude.{◌≡◌, ◌+◌, ◌<◌, ◌≤◌, ◌^◌, length, map, vec_capacity, OnOk};
ghost use Rattle.sc_world.specs.Exec as spec;
ghost use Rattle.sc_world.specs.Tree.{Braces};
ghost use Rattle.run_world.specs.Seen as seen;
ghost use Rattle.run_inits.specs.Reads.{reads_at};
ghost use Rattle.run_inits.specs.Room.{HasRoom, Uses, room_of_given, room_of_givens};
ghost use Rattle.run_inits.specs.Seen.{given_of, givens_of};
ghost use Rattle.run_inits.specs.Stores.{due_of, joined, given_stores, all_stores};

use crate::cells::{clear_cells, load_cells};
use crate::evaluating::evaluate;
use crate::parts::part_at;
use crate::space::Space;
use crate::stores::{make_stores, set_part};
use run_exprs::Calls;
use run_room::is_scalar;
use run_values::Want;
use run_world::{Ended, Here, World};
use sc_typed::TInitItem;

// Evaluates a value in braces; the stores that it is to make stand behind those of the values before.
#[tactic(auto, using(crate::proofs::StoreLaws::given_steps))]
fn gather_given<C: Calls>(
    here: &Here,
    world: &mut World,
    space: &mut Space,
    calls: &mut C,
    at: u32,
    item: &TInitItem,
) -> Result<(), Ended>
    requires reads { C.reads calls.old ≡ reads_at (seen.env here.now) }
    requires few { length here.now.places.now.locations.items < 2 ^ 32 }
    requires room { HasRoom here.now world.old space.old.kept (room_of_given here.now item.now) }
    requires stores { length space.old.stores.items + room_of_given here.now item.now ≤ vec_capacity space.old.stores }
    ensures gathered { seen.Does (λ _. map due_of space.new.stores.items)
        (joined (map due_of space.old.stores.items)
        (given_stores (seen.env here.now) at (given_of here.now item.now) (seen.world world.old)))
        result (seen.world world.new) }
    ensures used { Uses world.old world.new space.old.kept space.new.kept (room_of_given here.now item.now) }
    ensures arguments { OnOk result (space.new.kept.arguments.items ≡ space.old.kept.arguments.items) }
    ensures stores { length space.new.stores.items ≤ length space.old.stores.items + room_of_given here.now item.now }
    ensures store_room { vec_capacity space.old.stores ≤ vec_capacity space.new.stores }
    ensures reads { C.reads calls.new ≡ C.reads calls.old }
{
    let part = part_at(here, at, &item.way);
    let e = &item.value;
    if is_scalar(here, e) {
        let value = evaluate(here, world, space, calls, e, Want::Value)?;
        set_part(here, part, &[value], &mut space.stores);
    } else {
        let place = evaluate(here, world, space, calls, e, Want::Place)?;
        load_cells(here, world, place.place(), &mut space.kept.cells);
        set_part(here, part, space.kept.cells.as_slice(), &mut space.stores);
    }
    Ok(())
}

// Evaluates all values: the stores that they are to make.
#[tactic(auto, using(crate::proofs::StoreLaws::gather_steps))]
fn gather_all<C: Calls>(
    here: &Here,
    world: &mut World,
    space: &mut Space,
    calls: &mut C,
    at: u32,
    items: &[TInitItem],
) -> Result<(), Ended>
    requires reads { C.reads calls.old ≡ reads_at (seen.env here.now) }
    requires few { length here.now.places.now.locations.items < 2 ^ 32 }
    requires room { HasRoom here.now world.old space.old.kept (room_of_givens here.now items.now) }
    requires stores { room_of_givens here.now items.now ≤ vec_capacity space.old.stores }
    ensures gathered { seen.Does (λ _. map due_of space.new.stores.items)
        (all_stores (seen.env here.now) at (givens_of here.now items.now) (seen.world world.old))
        result (seen.world world.new) }
    ensures used { Uses world.old world.new space.old.kept space.new.kept (room_of_givens here.now items.now) }
    ensures arguments { OnOk result (space.new.kept.arguments.items ≡ space.old.kept.arguments.items) }
    ensures store_room { vec_capacity space.old.stores ≤ vec_capacity space.new.stores }
    ensures reads { C.reads calls.new ≡ C.reads calls.old }
{
    space.stores.clear();
    for item in items {
        gather_given(here, world, space, calls, at, item)?;
    }
    Ok(())
}

/// Sets an object to values in braces.
pub fn braces<C: Calls>(
    here: &Here,
    world: &mut World,
    space: &mut Space,
    calls: &mut C,
    at: u32,
    items: &[TInitItem],
) -> Result<(), Ended>
    requires reads { C.reads calls.old ≡ reads_at (seen.env here.now) }
    requires few { length here.now.places.now.locations.items < 2 ^ 32 }
    requires room { HasRoom here.now world.old space.old.kept (room_of_givens here.now items.now) }
    requires stores { room_of_givens here.now items.now ≤ vec_capacity space.old.stores }
    ensures initialised { seen.Does (λ _. tt)
        (spec.initialise at (Braces (givens_of here.now items.now)) (seen.env here.now) (seen.world world.old))
        result (seen.world world.new) }
    ensures used { Uses world.old world.new space.old.kept space.new.kept (room_of_givens here.now items.now) }
    ensures arguments { OnOk result (space.new.kept.arguments.items ≡ space.old.kept.arguments.items) }
    ensures store_room { vec_capacity space.old.stores ≤ vec_capacity space.new.stores }
    ensures reads { C.reads calls.new ≡ C.reads calls.old }
{
    gather_all(here, world, space, calls, at, items)?;
    clear_cells(here, world, at);
    make_stores(world, space.stores.as_slice());
    Ok(())
}
