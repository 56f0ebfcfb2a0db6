// What a call does.

ghost use Rattle.std.specs.Prelude.{◌≡◌, ◌<◌, ◌≤◌, ◌+◌, ◌^◌, length, map, vec_capacity};
ghost use Rattle.std.specs.Option.{option_copied};
ghost use Rattle.sc_world.specs.Eval as spec;
ghost use Rattle.sc_world.specs.View.{type};
ghost use Rattle.sc_world.specs.Programs.{summary};
ghost use Rattle.sc_gather.specs.Seen.{meaning};
ghost use Rattle.layout_base.specs.Seen as laid;
ghost use Rattle.run_world.specs.Seen as seen;
ghost use Rattle.run_paths.specs.Seen as paths;
ghost use Rattle.run_known.specs.Seen as known;

use crate::known::known_call;
use layout_base::Occurrence;
use run_calls::{allocate, first_argument, operation, release, try_lock, unknown};
use run_paths::Buffer;
use run_world::{Ended, Here, Value, World};
use sc_base::Pos;
use sc_gather::Effect;
use sc_tree::ctype::CType;
use sc_world::Reason;
use sum_rows::{Summary, Verdict};

fn known_by<'p>(
    here: &Here,
    world: &mut World,
    buffer: &mut Buffer<'p>,
    pos: Pos,
    t: &CType,
    occurrence: Occurrence,
    arguments: &[Value],
    summary: Option<&'p Summary>,
) -> Result<Value, Ended>
    requires room { length world.old.trace.items < vec_capacity world.old.trace }
    requires few { length here.now.places.now.locations.items < 2 ^ 32 }
    requires fits { paths.Fits buffer.old.most (option_copied summary) }
    ensures known { seen.Does seen.cell (spec.known_by (seen.env here.now) pos (type t.now)
        (laid.occurrence_of occurrence) (map seen.cell arguments.now)
        (option_copied summary.entry) (seen.world world.old)) result (seen.world world.new) }
    ensures events { length world.new.trace.items ≤ length world.old.trace.items + 1 }
    ensures room { vec_capacity world.old.trace ≤ vec_capacity world.new.trace }
    ensures buffer { buffer.new.most ≡ buffer.old.most }
{
    match summary {
        None => Ok(unknown(here, world, occurrence, t, arguments)),
        Some(summary) => known_call(here, world, buffer, pos, t, occurrence, arguments, summary),
    }
}

/// What a call does and gives, once its arguments have their values. The buffer has to have room for the summaries
/// that the function reads, and the trace for one event more.
#[tactic(auto, unfolding(run_world::specs::Seen::env))]
pub fn act<'p>(
    here: &Here<'p, '_, '_>,
    world: &mut World,
    buffer: &mut Buffer<'p>,
    pos: Pos,
    t: &CType,
    occurrence: Occurrence,
    arguments: &[Value],
    effect: Effect,
) -> Result<Value, Ended>
    requires room { length world.old.trace.items < vec_capacity world.old.trace }
    requires few { length here.now.places.now.locations.items < 2 ^ 32 }
    requires fits { paths.FitsAll (seen.env here.now).source buffer.old.most }
    ensures act { seen.Does seen.cell (spec.act (seen.env here.now) pos (type t.now)
        (laid.occurrence_of occurrence) (map seen.cell arguments.now)
        (meaning effect) (seen.world world.old)) result (seen.world world.new) }
    ensures events { length world.new.trace.items ≤ length world.old.trace.items + 1 }
    ensures room { vec_capacity world.old.trace ≤ vec_capacity world.new.trace }
    ensures buffer { buffer.new.most ≡ buffer.old.most }
{
    match effect {
        Effect::Operation(number) => {
            operation(here, world, pos, t, number, first_argument(arguments))
        }
        Effect::Try(success, failure) => try_lock(
            here,
            world,
            t,
            occurrence,
            success,
            failure,
            first_argument(arguments),
        ),
        Effect::Allocate(_) => Ok(allocate(here, world, occurrence)),
        Effect::Release => release(here, world, first_argument(arguments)),
        Effect::Ends => Err(Ended::Aside(Reason::NoReturn)),
        Effect::Expect => Ok(first_argument(arguments)),
        Effect::Known(place) => known_by(
            here,
            world,
            buffer,
            pos,
            t,
            occurrence,
            arguments,
            here.ground.summary(place),
        ),
        Effect::Unknown => Ok(unknown(here, world, occurrence, t, arguments)),
    }
}

// The items or the written cells of a summary, the larger number of both; 0 of a function that is skipped.
fn size_of(verdict: &Verdict) -> usize
    ensures { result ≡ known.size_of (summary verdict.now) }
{
    match verdict {
        Verdict::Skipped(_) => 0,
        Verdict::Done(summary, _) => summary.items.len().max(summary.writes.len()),
    }
}

// The largest of some summaries.
fn largest(verdicts: &[Verdict]) -> usize
    ensures { result ≡ known.most_of (map summary verdicts.now) }
{
    let mut most = 0;
    for verdict in verdicts {
        most = most.max(size_of(verdict));
    }
    most
}

/// For how many items and written cells a buffer needs room: the most of the summaries that the function reads.
#[tactic(auto, unfolding(run_world::specs::Seen::env, layout_base::specs::Seen::ground_of, sc_gather::specs::Seen::source_of, sc_world::specs::Programs::source_by))]
pub fn most_items(here: &Here) -> usize
    ensures most { result ≡ known.most_of (seen.env here.now).source.sums }
    ensures fits { paths.FitsAll (seen.env here.now).source result }
{
    largest(here.ground.here.verdicts)
}
