// The locations and the choices of a function, or the limit that it passes.

ghost use Rattle.std.specs.Prelude.{◌≡◌, Ok, MatchResult};
ghost use Rattle.sc_world.specs.Places as spec;
ghost use Rattle.sc_world.specs.Layout as layouts;
ghost use Rattle.sc_world.specs.Programs.{source};
ghost use Rattle.sc_gather.specs.Made.{Makes, IsMemory};
ghost use Rattle.sc_gather.specs.Seen as gathered;
ghost use Rattle.layout_base.specs.Seen as seen;
ghost use Rattle.places.specs.Laying.{IsRefusal, IsDue, first_beyond};

use crate::calls::occur_all;
use crate::entry::{globals, levels, literals, locals, params};
use crate::numbering::number_all;
use fsm_spec::locks;
use layout_base::{Ground, Places};
use sc_base::LimitKind;
use sc_gather::{Context, Found, Refused, gather};
use sc_typed::Program;
use std::alloc::Global;
use sum_rows::Verdict;
use thiserror::Error;

/// Why a function has no places.
#[derive(Clone, Copy, Debug, PartialEq, Eq, Error)]
pub enum PlaceAnswer {
    /// It passes a limit: with more than 4,096 nodes that of nodes, else with more than 256 locations that of
    /// locations. The count is the first one that is too large.
    #[error("the function passes a limit")]
    Limit(LimitKind, u64),
    /// Memory was asked for and refused.
    #[error("out of memory")]
    OutOfMemory,
}

// All of it, in its order.
fn lay_out<'p>(laid: &mut Places<'p>, ground: &Ground<'p, '_, '_>) -> Result<(), Refused>
    ensures { Makes (spec.lay_out (seen.ground_of ground.now) (seen.layout_of laid.old)) result (seen.layout_of laid.new) }
{
    params(laid, ground, ground.params())?;
    globals(laid, ground, ground.globals())?;
    let entered = laid.locations_now()?;
    locals(laid, ground, ground.locals())?;
    literals(laid, ground.literals())?;
    levels(laid, ground, ground.reach(), 0, entered)?;
    occur_all(laid, ground, ground.sites())?;
    number_all(laid, ground, ground.sites())
}

// Nothing is laid out yet; the calls are those that were found.
#[tactic(auto, unfolding(sc_gather::specs::Seen::found))]
fn begun<'p>(alloc: Global, found: &Found<'p>) -> Result<Places<'p>, Refused>
    ensures { MatchResult result (λ p. seen.layout_of p ≡ record layouts.no_layout { sites = (gathered.found found.now).sites }) IsMemory }
{
    match Vec::from_slice(alloc, found.sites.as_slice()) {
        Ok(sites) => Ok(Places::begin(alloc, sites)),
        Err(_) => Err(Refused::Memory),
    }
}

// All of a function, once it is known what its text names.
#[tactic(auto, unfolding(layout_base::specs::Seen::ground_of))]
fn laid_out<'p>(
    alloc: Global,
    here: &Context<'p, '_>,
    found: &Found<'p>,
) -> Result<Places<'p>, Refused>
    ensures { MatchResult result
        (λ p. spec.places_of (gathered.source_of here.now) (Ok (tt, gathered.found found.now)) ≡ Ok (seen.layout_of p))
        (IsRefusal (spec.places_of (gathered.source_of here.now) (Ok (tt, gathered.found found.now)))) }
{
    let ground = Ground { here, found };
    let mut laid = begun(alloc, found)?;
    lay_out(&mut laid, &ground)?;
    Ok(laid)
}

// All of a function.
fn places_of<'p>(alloc: Global, here: &Context<'p, '_>) -> Result<Places<'p>, Refused>
    ensures { MatchResult result
        (λ p. spec.places (gathered.source_of here.now) ≡ Ok (seen.layout_of p))
        (IsRefusal (spec.places (gathered.source_of here.now))) }
{
    let found = gather(alloc, here)?;
    laid_out(alloc, here, &found)
}

// The first count that is beyond a limit of a function.
fn first_beyond(kind: LimitKind) -> u64
    ensures { result ≡ first_beyond kind }
{
    match kind {
        LimitKind::Nodes => 4097,
        LimitKind::Locations => 257,
        LimitKind::Files
        | LimitKind::Input
        | LimitKind::Functions
        | LimitKind::Edges
        | LimitKind::Params => 0,
    }
}

// The same, with the count of a limit.
fn places_with<'p>(alloc: Global, here: &Context<'p, '_>) -> Result<Places<'p>, PlaceAnswer>
    ensures { MatchResult result
        (λ p. spec.places (gathered.source_of here.now) ≡ Ok (seen.layout_of p))
        (IsDue (spec.places (gathered.source_of here.now))) }
{
    match places_of(alloc, here) {
        Ok(places) => Ok(places),
        Err(refused) => match refused {
            Refused::Memory => Err(PlaceAnswer::OutOfMemory),
            Refused::Limit(kind) => Err(PlaceAnswer::Limit(kind, first_beyond(kind))),
        },
    }
}

/// The locations and the choices of the function with that number, whose kept callees these are, ascending, with the
/// verdict of each. Answers `Limit` of nodes exactly where the function has more than 4,096 nodes once its loops are
/// unrolled, and else `Limit` of locations exactly where it has more than 256. It stops as soon as a limit is passed.
/// A function whose body is skipped has those of an empty block.
#[tactic(auto, unfolding(sc_gather::specs::Seen::source_of))]
pub fn places<'p>(
    alloc: Global,
    program: &'p Program,
    function: u32,
    kept: &'p [u32],
    verdicts: &'p [Verdict],
    depth: u32,
    reach: u32,
) -> Result<Places<'p>, PlaceAnswer>
    ensures { MatchResult result
        (λ p. spec.places (source program.now function kept.now verdicts.now depth reach) ≡ Ok (seen.layout_of p))
        (IsDue (spec.places (source program.now function kept.now verdicts.now depth reach))) }
{
    match &program.machine {
        Some(machine) => {
            let here = Context {
                program,
                machine,
                tries: false,
                function,
                kept,
                verdicts,
                depth,
                reach,
            };
            places_with(alloc, &here)
        }
        None => match locks(alloc) {
            Err(_) => Err(PlaceAnswer::OutOfMemory),
            Ok(machine) => {
                let here = Context {
                    program,
                    machine: &machine,
                    tries: true,
                    function,
                    kept,
                    verdicts,
                    depth,
                    reach,
                };
                places_with(alloc, &here)
            }
        },
    }
}
