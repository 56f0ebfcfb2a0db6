// What loops do beside their bodies: tests, steps, and what follows a body.

ghost use Rattle.std.specs.Prelude.{◌≡◌, ◌+◌, ◌*◌, ◌<◌, ◌≤◌, ◌^◌, length, vec_capacity, OnOk};
ghost use Rattle.sc_world.specs.Exec as exec;
ghost use Rattle.run_world.specs.Seen as seen;
ghost use Rattle.run_inits.specs.Reads.{reads_at};
ghost use Rattle.run_inits.specs.Room.{HasRoom, Uses, room_of_exp};
ghost use Rattle.run_inits.specs.Seen.{exp_of};
ghost use Rattle.sum_rows.specs.declared.report.What.TheVariants as what;
ghost use Rattle.run_stmts.specs.Loops as spec;
ghost use Rattle.run_stmts.specs.Room.{Fits};
ghost use Rattle.run_stmts.specs.Seen as shown;

use crate::conditions::{Test, condition, condition_if};
use crate::flow::{Flow, ended};
use crate::simple::with_step;
use run_exprs::Calls;
use run_inits::Space;
use run_world::{Ended, Here, World};
use sc_base::Pos;
use sc_typed::TExpr;
use sc_world::Reason;

/// What a loop tests, and the step of a `for`.
#[derive(Clone, Copy)]
pub enum Loop<'e> {
    While(&'e TExpr),
    For(&'e Option<TExpr>, &'e Option<TExpr>),
    Do(&'e TExpr),
}

/// How often a loop may turn.
#[tactic(auto, unfolding(run_world::specs::Seen::env, layout_base::specs::Seen::ground_of))]
pub fn depth(here: &Here) -> u32
    ensures { result ≡ (seen.env here.now).source.depth }
{
    here.ground.here.depth()
}

/// The same in a turn of a loop that may run so many times.
#[tactic(auto, unfolding(run_world::specs::Seen::env))]
pub fn in_turn<'p, 'm, 'f>(here: &Here<'p, 'm, 'f>, times: u32, turn: u32) -> Here<'p, 'm, 'f>
    requires { here.now.turn * times + turn < 2 ^ 32 }
    ensures env { seen.env result ≡ exec.in_turn (seen.env here.now) times turn }
    ensures source { (seen.env result).source ≡ (seen.env here.now).source }
    ensures layout { (seen.env result).layout ≡ (seen.env here.now).layout }
    ensures reads { reads_at (seen.env result) ≡ reads_at (seen.env here.now) }
    ensures places { result.places.now ≡ here.now.places.now }
    ensures turn { result.turn ≡ here.now.turn * times + turn }
{
    Here {
        turn: here.turn * times + turn,
        ..*here
    }
}

/// Whether the body of a loop runs in that turn. A `do` tests nothing before its body.
pub fn test_first<C: Calls>(
    here: &Here,
    world: &mut World,
    space: &mut Space,
    calls: &mut C,
    tests: Loop<'_>,
    pos: Pos,
    turn: u32,
) -> Result<bool, Ended>
    requires reads { C.reads calls.old ≡ reads_at (seen.env here.now) }
    requires few { length here.now.places.now.locations.items < 2 ^ 32 }
    requires room { HasRoom here.now world.old space.old.kept
        (spec.first_room (shown.loop_of (seen.env here.now).source.structs tests)) }
    requires tests { Fits here.now.turn ((seen.env here.now).source.depth + 1) }
    requires low { turn ≤ (seen.env here.now).source.depth }
    ensures done { seen.Does (λ x. x)
        (spec.test_first (shown.loop_of (seen.env here.now).source.structs tests.entry) pos (seen.env here.now) turn
        (seen.world world.old))
        result (seen.world world.new) }
    ensures used { Uses world.old world.new space.old.kept space.new.kept
        (spec.first_room (shown.loop_of (seen.env here.now).source.structs tests.entry)) }
    ensures arguments { OnOk result (space.new.kept.arguments.items ≡ space.old.kept.arguments.items) }
    ensures store_room { vec_capacity space.old.stores ≤ vec_capacity space.new.stores }
    ensures reads { C.reads calls.new ≡ C.reads calls.old }
{
    match tests {
        Loop::While(e) => {
            let tested = in_turn(here, depth(here) + 1, turn);
            condition(&tested, world, space, calls, pos, Test::Loop, e)
        }
        Loop::For(e, _) => {
            let tested = in_turn(here, depth(here) + 1, turn);
            condition_if(&tested, world, space, calls, pos, e)
        }
        Loop::Do(_) => Ok(true),
    }
}

// Where a `do` goes on behind a body that ends so: it tests where the body does not end the loop.
fn test_behind<C: Calls>(
    here: &Here,
    world: &mut World,
    space: &mut Space,
    calls: &mut C,
    e: &TExpr,
    pos: Pos,
    behind: Flow,
) -> Result<Option<Flow>, Ended>
    requires reads { C.reads calls.old ≡ reads_at (seen.env here.now) }
    requires few { length here.now.places.now.locations.items < 2 ^ 32 }
    requires room { HasRoom here.now world.old space.old.kept (room_of_exp here.now e.now + 1) }
    ensures done { seen.Does shown.flow_if
        (spec.tested_behind (exec.condition pos what.Loop (exp_of here.now e.now) (seen.env here.now))
        (spec.ended_by (shown.flow behind)) (seen.world world.old))
        result (seen.world world.new) }
    ensures used { Uses world.old world.new space.old.kept space.new.kept (room_of_exp here.now e.now + 1) }
    ensures arguments { OnOk result (space.new.kept.arguments.items ≡ space.old.kept.arguments.items) }
    ensures store_room { vec_capacity space.old.stores ≤ vec_capacity space.new.stores }
    ensures reads { C.reads calls.new ≡ C.reads calls.old }
{
    match ended(behind) {
        Some(end) => Ok(Some(end)),
        None => {
            if condition(here, world, space, calls, pos, Test::Loop, e)? {
                Ok(None)
            } else {
                Ok(Some(Flow::Next))
            }
        }
    }
}

/// Where the run goes on behind the body of a loop, in its turn, if the loop ends with it.
pub fn behind_body<C: Calls>(
    here: &Here,
    world: &mut World,
    space: &mut Space,
    calls: &mut C,
    tests: Loop<'_>,
    pos: Pos,
    behind: Flow,
) -> Result<Option<Flow>, Ended>
    requires reads { C.reads calls.old ≡ reads_at (seen.env here.now) }
    requires few { length here.now.places.now.locations.items < 2 ^ 32 }
    requires room { HasRoom here.now world.old space.old.kept
        (spec.behind_room (shown.loop_of (seen.env here.now).source.structs tests)) }
    ensures done { seen.Does shown.flow_if
        (spec.behind_body (shown.loop_of (seen.env here.now).source.structs tests.entry) pos (seen.env here.now)
        (shown.flow behind) (seen.world world.old))
        result (seen.world world.new) }
    ensures used { Uses world.old world.new space.old.kept space.new.kept
        (spec.behind_room (shown.loop_of (seen.env here.now).source.structs tests.entry)) }
    ensures arguments { OnOk result (space.new.kept.arguments.items ≡ space.old.kept.arguments.items) }
    ensures store_room { vec_capacity space.old.stores ≤ vec_capacity space.new.stores }
    ensures reads { C.reads calls.new ≡ C.reads calls.old }
{
    match tests {
        Loop::While(_) => Ok(ended(behind)),
        Loop::For(_, step) => {
            let flow = with_step(here, world, space, calls, step, behind)?;
            Ok(ended(flow))
        }
        Loop::Do(e) => test_behind(here, world, space, calls, e, pos, behind),
    }
}

/// Behind the last turn of a loop: where its test still holds, and behind each `do`, the run is set aside.
pub fn last_test<C: Calls>(
    here: &Here,
    world: &mut World,
    space: &mut Space,
    calls: &mut C,
    tests: Loop<'_>,
    pos: Pos,
) -> Result<Flow, Ended>
    requires reads { C.reads calls.old ≡ reads_at (seen.env here.now) }
    requires few { length here.now.places.now.locations.items < 2 ^ 32 }
    requires room { HasRoom here.now world.old space.old.kept
        (spec.first_room (shown.loop_of (seen.env here.now).source.structs tests)) }
    requires tests { Fits here.now.turn ((seen.env here.now).source.depth + 1) }
    ensures done { seen.Does shown.flow
        (spec.last_test (shown.loop_of (seen.env here.now).source.structs tests.entry) pos (seen.env here.now)
        (seen.env here.now).source.depth (seen.world world.old))
        result (seen.world world.new) }
    ensures used { Uses world.old world.new space.old.kept space.new.kept
        (spec.first_room (shown.loop_of (seen.env here.now).source.structs tests.entry)) }
    ensures arguments { OnOk result (space.new.kept.arguments.items ≡ space.old.kept.arguments.items) }
    ensures store_room { vec_capacity space.old.stores ≤ vec_capacity space.new.stores }
    ensures reads { C.reads calls.new ≡ C.reads calls.old }
{
    match tests {
        Loop::While(e) => {
            let tested = in_turn(here, depth(here) + 1, depth(here));
            if condition(&tested, world, space, calls, pos, Test::Loop, e)? {
                Err(Ended::Aside(Reason::Depth))
            } else {
                Ok(Flow::Next)
            }
        }
        Loop::For(e, _) => {
            let tested = in_turn(here, depth(here) + 1, depth(here));
            if condition_if(&tested, world, space, calls, pos, e)? {
                Err(Ended::Aside(Reason::Depth))
            } else {
                Ok(Flow::Next)
            }
        }
        Loop::Do(_) => Err(Ended::Aside(Reason::Depth)),
    }
}
