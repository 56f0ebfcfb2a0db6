// The walk over a function: its body, and then the summaries of its callees.

ghost use Rattle.std.specs.Prelude.{◌≡◌, MatchResult, Ok};
ghost use Rattle.sc_world.specs.Gather as spec;
ghost use Rattle.sc_gather.specs.Made.{Makes, Stops};
ghost use Rattle.sc_gather.specs.Seen as seen;

use crate::found::nodes;
use crate::statements::statement;
use crate::summaries::verdicts;
use crate::{Context, Found, Refused, Round};
use std::alloc::Global;

// Nothing is found yet.
#[tactic(auto, unfolding(crate::specs::Seen::found))]
fn nothing<'p>(alloc: Global) -> Found<'p>
    ensures { seen.found result ≡ spec.nothing_found }
{
    Found {
        nodes: 0,
        fields: Vec::new(alloc),
        globals: Vec::new(alloc),
        literals: Vec::new(alloc),
        sites: Vec::new(alloc),
    }
}

// The body; one that is not taken is an empty block.
fn body<'p>(found: &mut Found<'p>, here: &Context<'p, '_>) -> Result<(), Refused>
    ensures { Makes (spec.gather_stm (seen.source_of here.now) (seen.source_of here.now).body (spec.once (seen.source_of here.now)) (seen.found found.old))
        result (seen.found found.new) }
{
    let once = Round {
        factor: 1,
        turns: 1,
    };
    match here.body() {
        None => nodes(found, 1),
        Some(s) => statement(found, here, s, once),
    }
}

// The summaries of the callees.
#[tactic(auto, unfolding(crate::specs::Seen::source_of, sc_world::specs::Programs::source_by))]
fn summaries(found: &mut Found, here: &Context) -> Result<(), Refused>
    ensures { Makes (spec.gather_sums (seen.source_of here.now) (seen.source_of here.now).sums (seen.found found.old)) result (seen.found found.new) }
{
    verdicts(found, here, here.verdicts)
}

/// What the text of the function names, its nodes and its calls. Answers `Limit` of nodes exactly where they are more
/// than 4,096, as soon as they are.
pub fn gather<'p>(alloc: Global, here: &Context<'p, '_>) -> Result<Found<'p>, Refused>
    ensures { MatchResult result
        (λ f. spec.gather_function (seen.source_of here.now) spec.nothing_found ≡ Ok (tt, seen.found f))
        (Stops (spec.gather_function (seen.source_of here.now) spec.nothing_found)) }
{
    let mut found = nothing(alloc);
    body(&mut found, here)?;
    summaries(&mut found, here)?;
    Ok(found)
}
