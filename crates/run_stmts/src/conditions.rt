// Conditions, with the events that tell them.

ghost use Rattle.std.specs.Prelude.{◌≡◌, ◌+◌, ◌<◌, ◌≤◌, ◌^◌, length, vec_capacity, OnOk, Ok};
ghost use Rattle.sc_world.specs.Exec as spec;
ghost use Rattle.sc_world.specs.World as worlds;
ghost use Rattle.run_world.specs.Seen as seen;
ghost use Rattle.run_inits.specs.Reads.{reads_at};
ghost use Rattle.run_inits.specs.Room.{HasRoom, Uses, room_of_exp};
ghost use Rattle.run_inits.specs.Seen.{exp_of};
ghost use Rattle.run_stmts.specs.Room.{room_of_if};
ghost use Rattle.run_stmts.specs.Seen.{asked};
ghost use Rattle.run_stmts.specs.Trees.{exp_if_of};

use run_exprs::Calls;
use run_inits::{Space, evaluate};
use run_values::Want;
use run_world::{Ended, Here, World};
use sc_base::Pos;
use sc_typed::TExpr;
use sum_rows::What;

/// What a condition stands in.
#[derive(Clone, Copy, Debug, PartialEq, Eq)]
pub enum Test {
    If,
    Loop,
}

// The event of a condition.
fn told(test: Test, holds: bool) -> What
    ensures { result ≡ asked test holds }
{
    match test {
        Test::If => What::If(holds),
        Test::Loop => What::Loop(holds),
    }
}

/// What happens next. There has to be room for it.
#[tactic(auto, using(crate::proofs::Events::event_length))]
pub fn event(world: &mut World, pos: Pos, what: What)
    requires room { length world.old.trace.items < vec_capacity world.old.trace }
    ensures event { worlds.event pos what (seen.world world.old) ≡ (Ok tt, seen.world world.new) }
    ensures length { length world.new.trace.items ≤ length world.old.trace.items + 1 }
    ensures room { vec_capacity world.old.trace ≤ vec_capacity world.new.trace }
{
    world.event(pos, what);
}

/// Whether a condition holds; its event stands behind those of its calls.
pub fn condition<C: Calls>(
    here: &Here,
    world: &mut World,
    space: &mut Space,
    calls: &mut C,
    pos: Pos,
    test: Test,
    e: &TExpr,
) -> Result<bool, Ended>
    requires reads { C.reads calls.old ≡ reads_at (seen.env here.now) }
    requires few { length here.now.places.now.locations.items < 2 ^ 32 }
    requires room { HasRoom here.now world.old space.old.kept (room_of_exp here.now e.now + 1) }
    ensures done { seen.Does (λ x. x)
        (spec.condition pos (asked test) (exp_of here.now e.now) (seen.env here.now) (seen.world world.old))
        result (seen.world world.new) }
    ensures used { Uses world.old world.new space.old.kept space.new.kept (room_of_exp here.now e.now + 1) }
    ensures arguments { OnOk result (space.new.kept.arguments.items ≡ space.old.kept.arguments.items) }
    ensures store_room { vec_capacity space.old.stores ≤ vec_capacity space.new.stores }
    ensures reads { C.reads calls.new ≡ C.reads calls.old }
{
    let value = evaluate(here, world, space, calls, e, Want::Value)?;
    let holds = value.is_true();
    event(world, pos, told(test, holds));
    Ok(holds)
}

/// The same of a loop; a condition that is left out holds.
pub fn condition_if<C: Calls>(
    here: &Here,
    world: &mut World,
    space: &mut Space,
    calls: &mut C,
    pos: Pos,
    e: &Option<TExpr>,
) -> Result<bool, Ended>
    requires reads { C.reads calls.old ≡ reads_at (seen.env here.now) }
    requires few { length here.now.places.now.locations.items < 2 ^ 32 }
    requires room { HasRoom here.now world.old space.old.kept (room_of_if here.now e.now + 1) }
    ensures done { seen.Does (λ x. x)
        (spec.condition_if pos (exp_if_of here.now e.now) (seen.env here.now) (seen.world world.old))
        result (seen.world world.new) }
    ensures used { Uses world.old world.new space.old.kept space.new.kept (room_of_if here.now e.now + 1) }
    ensures arguments { OnOk result (space.new.kept.arguments.items ≡ space.old.kept.arguments.items) }
    ensures store_room { vec_capacity space.old.stores ≤ vec_capacity space.new.stores }
    ensures reads { C.reads calls.new ≡ C.reads calls.old }
{
    match e {
        None => {
            event(world, pos, What::Loop(true));
            Ok(true)
        }
        Some(e) => condition(here, world, space, calls, pos, Test::Loop, e),
    }
}
