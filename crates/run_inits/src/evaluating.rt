// An expression in a statement.

ghost use Rattle.std.specs.Prelude.{◌≡◌, ◌<◌, ◌^◌, length, OnOk};
ghost use Rattle.sc_world.specs.Eval as spec;
ghost use Rattle.run_world.specs.Seen as seen;
ghost use Rattle.run_values.specs.Seen.{want_of};
ghost use Rattle.run_inits.specs.Reads.{reads_at};
ghost use Rattle.run_inits.specs.Room.{HasRoom, Uses, room_of_exp};
ghost use Rattle.run_inits.specs.Seen.{exp_of};

use crate::space::Space;
use run_exprs::{Calls, eval};
use run_values::Want;
use run_world::{Ended, Here, Value, World};
use sc_typed::TExpr;

/// Evaluates an expression, as `run_exprs` does: its value, or its place as the pointer to it.
#[tactic(auto, using(crate::proofs::Turns::read_here))]
pub fn evaluate<C: Calls>(
    here: &Here,
    world: &mut World,
    space: &mut Space,
    calls: &mut C,
    e: &TExpr,
    want: Want,
) -> Result<Value, Ended>
    requires reads { C.reads calls.old ≡ reads_at (seen.env here.now) }
    requires few { length here.now.places.now.locations.items < 2 ^ 32 }
    requires room { HasRoom here.now world.old space.old.kept (room_of_exp here.now e.now) }
    ensures evaluated { seen.Does seen.cell
        (spec.eval (exp_of here.now e.now) (want_of want) (seen.env here.now) (seen.world world.old))
        result (seen.world world.new) }
    ensures used { Uses world.old world.new space.old.kept space.new.kept (room_of_exp here.now e.now) }
    ensures arguments { OnOk result (space.new.kept.arguments.items ≡ space.old.kept.arguments.items) }
    ensures stores { space.new.stores ≡ space.old.stores }
    ensures reads { C.reads calls.new ≡ C.reads calls.old }
{
    eval(here, world, &mut space.kept, calls, e, want)
}
