// What calls do once their arguments have their values.

ghost use Rattle.std.specs.Prelude.{◌≡◌, ℕ, ◌+◌, ◌<◌, ◌≤◌, length, map, take, drop, vec_capacity, OnOk};
ghost use Rattle.sc_world.specs.Eval as spec;
ghost use Rattle.sc_world.specs.World.{Env};
ghost use Rattle.sc_world.specs.View.{type};
ghost use Rattle.sc_gather.specs.Seen.{meaning};
ghost use Rattle.layout_base.specs.Seen as laid;
ghost use Rattle.run_world.specs.Seen as seen;
ghost use Rattle.run_exprs.specs.Seen.{made};

use crate::room::Room;
use crate::sites::called;
use layout_base::Occurrence;
use run_world::{Ended, Here, Value, World};
use sc_base::{NameId, Pos};
use sc_gather::Effect;
use sc_tree::ctype::CType;
use sc_tree::expr::Place;
use sum_rows::What;

/// What calls do once their arguments have their values.
pub trait Calls {
    /// What they read of a run, in a turn of the loops round them.
    ghost reads: { Self → ℕ → Env };

    /// What a call does and gives, in that turn. There has to be room for one event more.
    fn act(
        &mut self,
        turn: u32,
        world: &mut World,
        pos: Pos,
        t: &CType,
        occurrence: Occurrence,
        arguments: &[Value],
        effect: Effect,
    ) -> Result<Value, Ended>
        requires room { length world.old.trace.items < vec_capacity world.old.trace }
        ensures act { seen.Does seen.cell (spec.act (reads self.old turn) pos (type t.now) (laid.occurrence_of occurrence) (map seen.cell arguments.now)
            (meaning effect) (seen.world world.old)) result (seen.world world.new) }
        ensures events { length world.new.trace.items ≤ length world.old.trace.items + 1 }
        ensures room { vec_capacity world.old.trace ≤ vec_capacity world.new.trace }
        ensures reads { reads self.new ≡ reads self.old };
}

// Makes the call with that opening bracket: the event, and what the call does in the turn at hand.
#[tactic(auto, using(crate::proofs::Events::event_length))]
fn make<C: Calls>(
    here: &Here,
    world: &mut World,
    calls: &mut C,
    place: Place,
    name: Option<NameId>,
    t: &CType,
    arguments: &[Value],
) -> Result<Value, Ended>
    requires reads { C.reads calls.old here.now.turn ≡ seen.env here.now }
    requires room { length world.old.trace.items + 2 ≤ vec_capacity world.old.trace }
    ensures made { seen.Does seen.cell (made (seen.env here.now) place name (type t.now) (map seen.cell arguments.now) (seen.world world.old))
        result (seen.world world.new) }
    ensures events { length world.new.trace.items ≤ length world.old.trace.items + 2 }
    ensures room { vec_capacity world.old.trace ≤ vec_capacity world.new.trace }
    ensures reads { C.reads calls.new ≡ C.reads calls.old }
{
    world.event(place.first, What::Call(name));
    let site = called(here, place.token);
    calls.act(
        here.turn,
        world,
        place.first,
        t,
        site.occurrence,
        arguments,
        site.effect,
    )
}

// Makes a call whose arguments stand behind those that are kept for outer calls, and takes them away.
pub(crate) fn make_kept<C: Calls>(
    here: &Here,
    world: &mut World,
    kept: &mut Room,
    calls: &mut C,
    place: Place,
    name: Option<NameId>,
    t: &CType,
    before: usize,
) -> Result<Value, Ended>
    requires reads { C.reads calls.old here.now.turn ≡ seen.env here.now }
    requires room { length world.old.trace.items + 2 ≤ vec_capacity world.old.trace }
    requires before { before ≤ length kept.old.arguments.items }
    ensures made { seen.Does seen.cell (made (seen.env here.now) place name (type t.now) (map seen.cell (drop before kept.old.arguments.items)) (seen.world world.old))
        result (seen.world world.new) }
    ensures events { length world.new.trace.items ≤ length world.old.trace.items + 2 }
    ensures room { vec_capacity world.old.trace ≤ vec_capacity world.new.trace }
    ensures reads { C.reads calls.new ≡ C.reads calls.old }
    ensures arguments { OnOk result (kept.new.arguments.items ≡ take before kept.old.arguments.items) }
    ensures capacity { vec_capacity kept.old.arguments ≤ vec_capacity kept.new.arguments }
    ensures cells { vec_capacity kept.old.cells ≤ vec_capacity kept.new.cells }
{
    let value = make(
        here,
        world,
        calls,
        place,
        name,
        t,
        &kept.arguments[before..],
    )?;
    kept.arguments.truncate(before);
    Ok(value)
}
