// A known call.

ghost use Rattle.std.specs.Prelude.{◌≡◌, ◌<◌, ◌≤◌, ◌+◌, ◌^◌, Some, length, map, vec_capacity};
ghost use Rattle.sc_world.specs.Eval as eval;
ghost use Rattle.sc_world.specs.Known as spec;
ghost use Rattle.sc_world.specs.View.{type};
ghost use Rattle.layout_base.specs.Seen as laid;
ghost use Rattle.run_world.specs.Seen as seen;
ghost use Rattle.run_paths.specs.Seen as paths;
ghost use Rattle.run_known.specs.Seen as known;

use crate::acting::Acting;
use crate::effects::effects;
use crate::given::{Given, given_by};
use crate::needs::rows_stand;
use crate::rows::{Side, Sought, given_number, stands};
use layout_base::Occurrence;
use run_calls::fails;
use run_entry::bit_at;
use run_paths::{Buffer, Found, meet_twice, resolve, spots_of};
use run_store::Flag;
use run_world::{Ended, Here, Value, World, state_of};
use sc_base::Pos;
use sc_tree::ctype::CType;
use sc_world::Reason;
use sum_rows::{Gives, State, Summary};

// Any state.
const ANY: u64 = 15;

// The first location whose operation errs by the choice.
#[tactic(auto, unfolding(run_world::specs::Seen::env))]
fn first_error<'p>(here: &Here, locks: &[Found<'p>]) -> Option<Found<'p>>
    ensures { known.locked_if result ≡ spec.first_error (seen.env here.now) (map paths.locked locks.now) }
{
    for lock in locks {
        if bit_at(here.choice, lock.bit as usize) {
            return Some(*lock);
        }
    }
    None
}

// An error needs its row from the state at hand; any state has none.
fn error_stands(given: u8, state: u64, lock: &Found) -> bool
    ensures { result ≡ spec.error_stands given state (paths.locked lock.now) }
{
    let sought = Sought {
        given,
        before: Side::Numbered(state),
        result: Gives::Nothing,
        after: Side::Named(State::Bad),
    };
    state != ANY && stands(sought, lock.rows)
}

fn errs(
    here: &Here,
    world: &mut World,
    pos: Pos,
    acting: &Acting,
    lock: &Found,
) -> Result<Value, Ended>
    requires room { length world.old.trace.items < vec_capacity world.old.trace }
    ensures errs { seen.Does seen.cell (spec.errs (seen.env here.now) (eval.fails (seen.env here.now) pos)
        (known.acting acting.now) (paths.locked lock.now)
        (seen.world world.old)) result (seen.world world.new) }
    ensures events { length world.new.trace.items ≤ length world.old.trace.items + 1 }
    ensures room { vec_capacity world.old.trace ≤ vec_capacity world.new.trace }
{
    let state = state_of(here, world, lock.at);
    if error_stands(acting.given, state, lock) {
        world.mark(lock.at as usize, Flag::Touched);
        Err(fails(here, world, pos, lock.at))
    } else {
        Err(Ended::Aside(Reason::NoRow))
    }
}

fn acts_as(
    here: &Here,
    world: &mut World,
    acting: &Acting,
    given: Option<Given>,
) -> Result<Value, Ended>
    requires params { acting.now.params ≡ spec.param_spot (known.acting acting.now) }
    requires spot { acting.now.params < 2 ^ 62 }
    requires few { length acting.now.summary.now.items < 2 ^ 32 }
    ensures acts { seen.Does seen.cell (spec.acts_as (seen.env here.now) (known.acting acting.now)
        (known.given_if given) (seen.world world.old))
        result (seen.world world.new) }
    ensures trace { world.new.trace ≡ world.old.trace }
{
    match given {
        None => Err(Ended::Aside(Reason::NoRow)),
        Some(given) => {
            if rows_stand(here, world, acting, given) {
                effects(here, world, acting, given)
            } else {
                Err(Ended::Aside(Reason::NoRow))
            }
        }
    }
}

fn acts_unless(
    here: &Here,
    world: &mut World,
    pos: Pos,
    t: &CType,
    acting: &Acting,
    error: Option<Found>,
) -> Result<Value, Ended>
    requires room { length world.old.trace.items < vec_capacity world.old.trace }
    requires params { acting.now.params ≡ spec.param_spot (known.acting acting.now) }
    requires spot { acting.now.params < 2 ^ 62 }
    requires few { length acting.now.summary.now.items < 2 ^ 32 }
    ensures acts { seen.Does seen.cell (spec.acts_unless (seen.env here.now)
        (eval.fails (seen.env here.now) pos) (type t.now) (known.acting acting.now)
        (known.locked_if error.entry) (seen.world world.old)) result (seen.world world.new) }
    ensures events { length world.new.trace.items ≤ length world.old.trace.items + 1 }
    ensures room { vec_capacity world.old.trace ≤ vec_capacity world.new.trace }
{
    match error {
        Some(lock) => errs(here, world, pos, acting, &lock),
        None => acts_as(here, world, acting, given_by(here, acting.occurrence, t)),
    }
}

fn acts(
    here: &Here,
    world: &mut World,
    pos: Pos,
    t: &CType,
    acting: &Acting,
) -> Result<Value, Ended>
    requires room { length world.old.trace.items < vec_capacity world.old.trace }
    requires params { acting.now.params ≡ spec.param_spot (known.acting acting.now) }
    requires spot { acting.now.params < 2 ^ 62 }
    requires few { length acting.now.summary.now.items < 2 ^ 32 }
    ensures acts { seen.Does seen.cell (spec.acts (seen.env here.now) (eval.fails (seen.env here.now) pos)
        (type t.now) (known.acting acting.now)
        (seen.world world.old)) result (seen.world world.new) }
    ensures events { length world.new.trace.items ≤ length world.old.trace.items + 1 }
    ensures room { vec_capacity world.old.trace ≤ vec_capacity world.new.trace }
{
    let is_alias = meet_twice(acting.locks) || meet_twice(acting.outs);
    if is_alias {
        Err(Ended::Aside(Reason::Alias))
    } else {
        acts_unless(here, world, pos, t, acting, first_error(here, acting.locks))
    }
}

/// A call that acts by the summary of its callee. The buffer has to have room for the summary, and the trace for one
/// event more.
pub fn known_call<'p>(
    here: &Here,
    world: &mut World,
    buffer: &mut Buffer<'p>,
    pos: Pos,
    t: &CType,
    occurrence: Occurrence,
    arguments: &[Value],
    summary: &'p Summary,
) -> Result<Value, Ended>
    requires room { length world.old.trace.items < vec_capacity world.old.trace }
    requires few { length here.now.places.now.locations.items < 2 ^ 32 }
    requires fits { paths.Fits buffer.old.most (Some summary.now) }
    ensures known { seen.Does seen.cell (spec.known (seen.env here.now) (eval.fails (seen.env here.now) pos)
        (laid.occurrence_of occurrence) (type t.now)
        summary.now (map seen.cell arguments.now) (seen.world world.old)) result (seen.world world.new) }
    ensures events { length world.new.trace.items ≤ length world.old.trace.items + 1 }
    ensures room { vec_capacity world.old.trace ≤ vec_capacity world.new.trace }
    ensures buffer { buffer.new.most ≡ buffer.old.most }
{
    let spots = spots_of(occurrence, summary.items.as_slice());
    resolve(here, world, arguments, spots, summary, buffer);
    let acting = Acting {
        summary,
        occurrence,
        arguments,
        given: given_number(arguments),
        locks: buffer.locks.as_slice(),
        outs: buffer.outs.as_slice(),
        writes: buffer.writes.as_slice(),
        params: spots.params,
    };
    acts(here, world, pos, t, &acting)
}
