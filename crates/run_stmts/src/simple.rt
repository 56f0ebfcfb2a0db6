// Statements without statements in them.

ghost use Rattle.std.specs.Prelude.{◌≡◌, ◌+◌, ◌<◌, ◌≤◌, ◌^◌, length, vec_capacity, OnOk};
ghost use Rattle.sc_world.specs.Exec as spec;
ghost use Rattle.sc_typed.specs.Arith as numbers;
ghost use Rattle.sc_world.specs.Tree as tree;
ghost use Rattle.sc_world.specs.View as view;
ghost use Rattle.run_world.specs.Seen as seen;
ghost use Rattle.run_inits.specs.Reads.{reads_at};
ghost use Rattle.run_inits.specs.Room.{HasRoom, Uses};
ghost use Rattle.run_inits.specs.Seen.{exp_of};
ghost use Rattle.run_stmts.specs.Room.{room_of_if, room_of_start};
ghost use Rattle.run_stmts.specs.Seen.{flow};
ghost use Rattle.run_stmts.specs.Trees.{exp_if_of, start_of};

use crate::conditions::event;
use crate::flow::Flow;
use run_exprs::Calls;
use run_inits::{Space, declarators, evaluate};
use run_values::{Want, has_sign};
use run_world::{Ended, Here, Value, World};
use sc_base::Pos;
use sc_tree::ctype::CType;
use sc_typed::{TExpr, TForStart};
use sc_types::signed;
use sum_rows::What;

/// Evaluates an expression, if there is one; its value is not used.
pub fn evaluate_if<C: Calls>(
    here: &Here,
    world: &mut World,
    space: &mut Space,
    calls: &mut C,
    e: &Option<TExpr>,
) -> Result<(), Ended>
    requires reads { C.reads calls.old ≡ reads_at (seen.env here.now) }
    requires few { length here.now.places.now.locations.items < 2 ^ 32 }
    requires room { HasRoom here.now world.old space.old.kept (room_of_if here.now e.now) }
    ensures done { seen.Does (λ _. tt)
        (spec.evaluate_if (exp_if_of here.now e.now) (seen.env here.now) (seen.world world.old))
        result (seen.world world.new) }
    ensures used { Uses world.old world.new space.old.kept space.new.kept (room_of_if here.now e.now) }
    ensures arguments { OnOk result (space.new.kept.arguments.items ≡ space.old.kept.arguments.items) }
    ensures store_room { vec_capacity space.old.stores ≤ vec_capacity space.new.stores }
    ensures reads { C.reads calls.new ≡ C.reads calls.old }
{
    match e {
        None => Ok(()),
        Some(e) => {
            evaluate(here, world, space, calls, e, Want::Value)?;
            Ok(())
        }
    }
}

/// What stands in the first place of `for`.
pub fn begin<C: Calls>(
    here: &Here,
    world: &mut World,
    space: &mut Space,
    calls: &mut C,
    start: &TForStart,
) -> Result<(), Ended>
    requires reads { C.reads calls.old ≡ reads_at (seen.env here.now) }
    requires few { length here.now.places.now.locations.items < 2 ^ 32 }
    requires room { HasRoom here.now world.old space.old.kept (room_of_start here.now start.now) }
    requires stores { room_of_start here.now start.now ≤ vec_capacity space.old.stores }
    ensures done { seen.Does (λ _. tt)
        (spec.begin (start_of here.now start.now) (seen.env here.now) (seen.world world.old))
        result (seen.world world.new) }
    ensures used { Uses world.old world.new space.old.kept space.new.kept (room_of_start here.now start.now) }
    ensures arguments { OnOk result (space.new.kept.arguments.items ≡ space.old.kept.arguments.items) }
    ensures store_room { vec_capacity space.old.stores ≤ vec_capacity space.new.stores }
    ensures reads { C.reads calls.new ≡ C.reads calls.old }
{
    match start {
        TForStart::Nothing => Ok(()),
        TForStart::Expr(e) => {
            evaluate(here, world, space, calls, e, Want::Value)?;
            Ok(())
        }
        TForStart::Decl(ds, _) => { declarators(here, world, space, calls, ds.as_slice()) }
    }
}

/// The step of a `for` behind its body: where the body goes on with the loop.
pub fn with_step<C: Calls>(
    here: &Here,
    world: &mut World,
    space: &mut Space,
    calls: &mut C,
    e: &Option<TExpr>,
    behind: Flow,
) -> Result<Flow, Ended>
    requires reads { C.reads calls.old ≡ reads_at (seen.env here.now) }
    requires few { length here.now.places.now.locations.items < 2 ^ 32 }
    requires room { HasRoom here.now world.old space.old.kept (room_of_if here.now e.now) }
    ensures done { seen.Does flow
        (spec.with_step (exp_if_of here.now e.now) (seen.env here.now) (flow behind) (seen.world world.old))
        result (seen.world world.new) }
    ensures used { Uses world.old world.new space.old.kept space.new.kept (room_of_if here.now e.now) }
    ensures arguments { OnOk result (space.new.kept.arguments.items ≡ space.old.kept.arguments.items) }
    ensures store_room { vec_capacity space.old.stores ≤ vec_capacity space.new.stores }
    ensures reads { C.reads calls.new ≡ C.reads calls.old }
{
    match behind {
        Flow::Next | Flow::Continues => {
            evaluate_if(here, world, space, calls, e)?;
            Ok(Flow::Next)
        }
        Flow::Breaks => Ok(Flow::Breaks),
        Flow::GoesTo(name) => Ok(Flow::GoesTo(name)),
        Flow::Returns(value) => Ok(Flow::Returns(value)),
    }
}

/// `return e ;` or `return ;`
pub fn return_value<C: Calls>(
    here: &Here,
    world: &mut World,
    space: &mut Space,
    calls: &mut C,
    pos: Pos,
    e: &Option<TExpr>,
) -> Result<Flow, Ended>
    requires reads { C.reads calls.old ≡ reads_at (seen.env here.now) }
    requires few { length here.now.places.now.locations.items < 2 ^ 32 }
    requires room { HasRoom here.now world.old space.old.kept (room_of_if here.now e.now + 1) }
    ensures done { seen.Does flow
        (spec.return_value pos (exp_if_of here.now e.now) (seen.env here.now) (seen.world world.old))
        result (seen.world world.new) }
    ensures used { Uses world.old world.new space.old.kept space.new.kept (room_of_if here.now e.now + 1) }
    ensures arguments { OnOk result (space.new.kept.arguments.items ≡ space.old.kept.arguments.items) }
    ensures store_room { vec_capacity space.old.stores ≤ vec_capacity space.new.stores }
    ensures reads { C.reads calls.new ≡ C.reads calls.old }
{
    match e {
        None => {
            event(world, pos, What::Return);
            Ok(Flow::Returns(Value::Nothing))
        }
        Some(e) => {
            let value = evaluate(here, world, space, calls, e, Want::Value)?;
            event(world, pos, What::Return);
            Ok(Flow::Returns(value))
        }
    }
}

// The type of an expression.
#[tactic(auto, unfolding(run_world::specs::Seen::env, layout_base::specs::Seen::ground_of))]
fn type_of<'e>(here: &Here, e: &'e TExpr) -> &'e CType
    ensures { view.type result.now ≡ tree.type_of (exp_of here.now e.now) }
{
    here.ground.here.type_of(e)
}

// The signed number that so many bits stand for. The 64 bits that there are have no sign in more of them.
#[tactic(auto, using(crate::proofs::Signs::sign_steps))]
fn with_sign(bits: u32, n: u64) -> i128
    ensures { result ≡ numbers.signed bits n }
{
    if bits > 64 {
        i128::from(n)
    } else {
        signed(bits, n)
    }
}

/// The event of a `switch` over an expression that has that value.
pub fn switch_event(here: &Here, e: &TExpr, value: Value) -> What
    ensures { result ≡ spec.switch_event (seen.env here.now) (tree.type_of (exp_of here.now e.now)) (seen.cell value) }
{
    match value {
        Value::Number(bits, n) => What::Switch(if has_sign(type_of(here, e)) {
            with_sign(bits, n)
        } else {
            i128::from(n)
        }),
        Value::Pointer(_) | Value::Nothing => What::Switch(0),
    }
}
