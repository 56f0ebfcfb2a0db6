// The run of a body, and what the function gives.

ghost use Rattle.std.specs.Prelude.{◌≡◌, ◌+◌, ◌<◌, ◌≤◌, ◌^◌, length, vec_capacity, Some, Ok};
ghost use Rattle.sc_world.specs.Exec as spec;
ghost use Rattle.sc_world.specs.World.{goes_on};
ghost use Rattle.sc_gather.specs.Seen.{body_of};
ghost use Rattle.sc_world.specs.World as worlds;
ghost use Rattle.run_store.specs.Concrete as store;
ghost use Rattle.run_world.specs.Seen as seen;
ghost use Rattle.run_inits.specs.Reads.{reads_at};
ghost use Rattle.run_inits.specs.Room.{HasRoom, Uses};
ghost use Rattle.run_stmts.specs.Room.{Fits};
ghost use Rattle.run_stmts.specs.Seen.{flow};
ghost use Rattle.sc_interp.specs.Room.{body_room};

use run_exprs::Calls;
use run_inits::{Space, blank};
use run_stmts::{Flow, exec};
use run_world::{Ended, Here, Value, World};
use sc_base::Pos;
use sc_typed::TStmt;
use sum_rows::What;

/// The body of the function at hand, if it is taken.
#[tactic(auto, unfolding(run_world::specs::Seen::env, layout_base::specs::Seen::ground_of))]
pub fn body_at<'p>(here: &Here<'p, '_, '_>) -> Option<&'p TStmt>
    ensures { body_of (seen.env here.now).source.structs result ≡ (seen.env here.now).source.body }
{
    here.ground.here.body()
}

// The place of the closing brace of a body.
fn end_of(here: &Here, body: Option<&TStmt>) -> Pos
    ensures { result ≡ spec.end_of (body_of (seen.env here.now).source.structs body.entry) }
{
    let nowhere = Pos {
        file: 0,
        line: 0,
        col: 0,
    };
    match body {
        None => nowhere,
        Some(s) => match s {
            TStmt::Block(_, _, end) => *end,
            TStmt::Decl(_, _) | TStmt::Expr(_, _) | TStmt::Label(_, _, _) => nowhere,
            TStmt::If(_, _, _, _) | TStmt::While(_, _, _) | TStmt::Do(_, _, _) => nowhere,
            TStmt::For(_, _, _, _, _) | TStmt::Switch(_, _, _, _) => nowhere,
            TStmt::Case(_, _, _) | TStmt::Default(_) | TStmt::Goto(_, _) => nowhere,
            TStmt::Break(_) | TStmt::Continue(_) | TStmt::Return(_, _) => nowhere,
        },
    }
}

// 0, null or nothing, as the function's result has it.
#[tactic(auto, unfolding(run_world::specs::Seen::env, layout_base::specs::Seen::ground_of, sc_gather::specs::Seen::source_of, sc_world::specs::Programs::source_by))]
fn blank_result(here: &Here) -> Value
    ensures { seen.cell result
        ≡ store.blank (worlds.kind_of_type (seen.env here.now).source (Some (seen.env here.now).source.result)) }
{
    match here.ground.here.function() {
        None => Value::Nothing,
        Some(function) => blank(here, &function.result),
    }
}

// What the function gives: a missing value is 0 or null.
fn result_or(here: &Here, value: Value) -> Value
    ensures { seen.cell result ≡ spec.result_or (seen.env here.now).source (seen.cell value) }
{
    match value {
        Value::Nothing => blank_result(here),
        Value::Number(bits, n) => Value::Number(bits, n),
        Value::Pointer(at) => Value::Pointer(at),
    }
}

// The end of the function, behind a body from which the run goes on so.
fn finish(here: &Here, world: &mut World, behind: Flow) -> Value
    requires room { length world.old.trace.items < vec_capacity world.old.trace }
    ensures finished { spec.finished (seen.env here.now).source (flow behind) (seen.world world.old)
        ≡ (Ok (seen.cell result), seen.world world.new) }
    ensures trace { vec_capacity world.old.trace ≤ vec_capacity world.new.trace }
{
    match behind {
        Flow::Returns(value) => result_or(here, value),
        Flow::Next | Flow::Breaks | Flow::Continues | Flow::GoesTo(_) => {
            let end = end_of(here, body_at(here));
            world.event(end, What::End);
            result_or(here, Value::Nothing)
        }
    }
}

// Executes the body; one that is not taken is empty.
fn execute<C: Calls>(
    here: &Here,
    world: &mut World,
    space: &mut Space,
    calls: &mut C,
) -> Result<Flow, Ended>
    requires reads { C.reads calls.old ≡ reads_at (seen.env here.now) }
    requires few { length here.now.places.now.locations.items < 2 ^ 32 }
    requires room { HasRoom here.now world.old space.old.kept (body_room here.now) }
    requires stores { body_room here.now ≤ vec_capacity space.old.stores }
    requires fits { Fits here.now.turn (body_room here.now) }
    ensures executed { seen.Does flow
        (spec.exec (seen.env here.now).source.body (seen.env here.now) (seen.world world.old))
        result (seen.world world.new) }
    ensures used { Uses world.old world.new space.old.kept space.new.kept (body_room here.now) }
    ensures store_room { vec_capacity space.old.stores ≤ vec_capacity space.new.stores }
    ensures reads { C.reads calls.new ≡ C.reads calls.old }
{
    match body_at(here) {
        None => Ok(Flow::Next),
        Some(body) => exec(here, world, space, calls, body),
    }
}

/// Runs the function at hand, from the world as it stands: what it gives, or how the run ends before.
pub fn run_body<C: Calls>(
    here: &Here,
    world: &mut World,
    space: &mut Space,
    calls: &mut C,
) -> Result<Value, Ended>
    requires reads { C.reads calls.old ≡ reads_at (seen.env here.now) }
    requires few { length here.now.places.now.locations.items < 2 ^ 32 }
    requires room { HasRoom here.now world.old space.old.kept (body_room here.now + 1) }
    requires stores { body_room here.now ≤ vec_capacity space.old.stores }
    requires fits { Fits here.now.turn (body_room here.now) }
    ensures run { seen.Does seen.cell
        (goes_on (spec.exec (seen.env here.now).source.body (seen.env here.now) (seen.world world.old))
        (spec.finished (seen.env here.now).source))
        result (seen.world world.new) }
    ensures trace { vec_capacity world.old.trace ≤ vec_capacity world.new.trace }
    ensures capacity { vec_capacity space.old.kept.arguments ≤ vec_capacity space.new.kept.arguments }
    ensures cells { vec_capacity space.old.kept.cells ≤ vec_capacity space.new.kept.cells }
    ensures store_room { vec_capacity space.old.stores ≤ vec_capacity space.new.stores }
    ensures reads { C.reads calls.new ≡ C.reads calls.old }
{
    let flow = execute(here, world, space, calls)?;
    Ok(finish(here, world, flow))
}
