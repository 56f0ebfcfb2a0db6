// The verdict of a function.

ghost use Rattle.std.specs.Prelude.{◌≡◌, ◌<◌, ◌^◌, IfOk, Ok, Some, length, slice_get};
ghost use Rattle.sc_base.specs.declared.skip.Skip.TheVariants as skip;
ghost use Rattle.sum_rows.specs.declared.report.Verdict.TheVariants as verdicts;
ghost use Rattle.fsm_spec.specs.Table.{IsWhole};
ghost use Rattle.sc_gather.specs.Seen as seen;
ghost use Rattle.sc_world.specs.Verdict as spec;
ghost use Rattle.sc_world.specs.Places as laying;
ghost use Rattle.sc_world.specs.Programs.{source};
ghost use Rattle.layout_base.specs.Seen as laid;
ghost use Rattle.location_texts.specs.Seen as named;
ghost use Rattle.run_laws.specs.Proper.{IsClosed};
ghost use Rattle.flow_ends.specs.Encoded.{IsEncoded};
ghost use Rattle.walk_laws.specs.Objects.{HasObjects};
ghost use Rattle.program_verdicts.specs.Verdicts.{texts, verdict_given};
ghost use Rattle.fn_analysis.specs.Analysis.{HasWholeMachine};

use bit_net::Net;
use flow_ends::Encoded;
use fn_by_gates::{Gates, judge};
use fn_facts::Around;
use fn_gates::{InGates, in_gates};
use fn_questions::Facts;
use fsm_spec::{locks, whole_machines};
use layout_base::{Ground, Places};
use location_texts::Texts;
use object_laws::objects_are_locations;
use places::{PlaceAnswer, places};
use run_laws::layouts_are_closed;
use run_world::Here;
use sat_cdcl::Cdcl;
use sc_base::{LimitKind, OutOfMemory, Skip};
use sc_gather::{Context, gather};
use sc_typed::{Function, Program, TBody};
use std::alloc::Global;
use sum_rows::Verdict;

// The verdict of a function that passes a limit.
fn beyond(kind: LimitKind) -> Verdict
    ensures { result ≡ verdicts.Skipped (skip.Limit kind (spec.limit_count kind)) }
{
    let count = match kind {
        LimitKind::Nodes => 4097,
        LimitKind::Files
        | LimitKind::Input
        | LimitKind::Functions
        | LimitKind::Edges
        | LimitKind::Params
        | LimitKind::Locations => 257,
    };
    Verdict::Skipped(Skip::Limit { kind, count })
}

// The verdict of the function at hand by gates that tell of all its runs; where not all questions have gates, by trying every choice.
#[tactic(auto, unfolding(run_world::specs::Seen::env, layout_base::specs::Seen::ground_of))]
fn by_gates<'p, 'm, 'f>(
    alloc: Global,
    given: Ground<'p, 'm, 'f>,
    texts: Texts<'p, 'f>,
    mut net: Net,
    encoded: &'f Encoded,
) -> Result<Verdict, OutOfMemory>
    requires whole { IsWhole (laid.ground_of given).source.machine }
    requires closed { IsClosed (laid.layout_of texts.places.now) }
    requires few { length texts.places.now.locations.items < 2 ^ 32 }
    requires objects { HasObjects (laid.layout_of texts.places.now) }
    requires encoded { IsEncoded (laid.ground_of given).source (laid.layout_of texts.places.now) net encoded.now }
    ensures { IfOk result (λ v. v ≡ spec.done_with (laid.ground_of given.entry).source (named.texts texts.entry)
        (spec.answers (laid.ground_of given.entry).source (named.texts texts.entry))) }
{
    let around = Around {
        here: Here {
            ground: given,
            places: texts.places,
            choice: &[],
            turn: 0,
        },
        encoded,
    };
    match Facts::new(around, texts, &mut net) {
        Ok(Some(questions)) => {
            let gates = Gates {
                net,
                questions,
                solver: Cdcl::new(alloc),
            };
            let judged = judge(alloc, given, texts, Some(gates))?;
            Ok(judged)
        }
        Ok(None) => {
            let judged = judge::<Facts, Cdcl>(alloc, given, texts, None)?;
            Ok(judged)
        }
        Err(_) => Err(OutOfMemory),
    }
}

// The verdict of the function at hand, which has this layout.
#[tactic(auto, unfolding(layout_base::specs::Seen::ground_of))]
fn of_layout<'p>(
    alloc: Global,
    here: &Context<'p, '_>,
    function: &'p Function,
    layout: &Places<'p>,
) -> Result<Verdict, OutOfMemory>
    requires whole { IsWhole (seen.source_of here.now).machine }
    requires laid { laying.places (seen.source_of here.now) ≡ Ok (laid.layout_of layout.now) }
    ensures { IfOk result (λ v. v ≡ spec.done_with (seen.source_of here.now) (texts here.now.program.now function.now (laid.layout_of layout.now))
        (spec.answers (seen.source_of here.now) (texts here.now.program.now function.now (laid.layout_of layout.now)))) }
{
    layouts_are_closed();
    objects_are_locations();
    let found = match gather(alloc, here) {
        Ok(found) => found,
        // The layout is made of the same walk over the text, so it is not the limit of nodes.
        Err(_) => return Err(OutOfMemory),
    };
    let given = Ground {
        here,
        found: &found,
    };
    let names = Texts {
        program: here.program,
        function,
        places: layout,
    };
    match in_gates(alloc, given, layout)? {
        None => {
            let judged = judge::<Facts, Cdcl>(alloc, given, names, None)?;
            Ok(judged)
        }
        Some(made) => {
            let InGates { net, encoded } = made;
            let judged = by_gates(alloc, given, names, net, &encoded)?;
            Ok(judged)
        }
    }
}

// The verdict of the function at hand, which has a body.
fn of_body<'p>(
    alloc: Global,
    here: &Context<'p, '_>,
    function: &'p Function,
) -> Result<Verdict, OutOfMemory>
    requires whole { IsWhole (seen.source_of here.now).machine }
    requires given { seen.source_of here.now ≡ source here.now.program.now here.now.function here.now.kept.now here.now.verdicts.now
        here.now.depth here.now.reach }
    ensures { IfOk result (λ v. v ≡ spec.verdict_of (seen.source_of here.now) (texts here.now.program.now function.now)) }
{
    match places(
        alloc,
        here.program,
        here.function,
        here.kept,
        here.verdicts,
        here.depth,
        here.reach,
    ) {
        Ok(layout) => of_layout(alloc, here, function, &layout),
        Err(PlaceAnswer::Limit(kind, _)) => Ok(beyond(kind)),
        Err(PlaceAnswer::OutOfMemory) => Err(OutOfMemory),
    }
}

/// The verdict of the function with that number, whose kept callees these are, ascending, with the verdict of each: its
/// skip; or its summary and its reports. They are found by gates and a solver, and by trying every choice where a function has
/// no gates. A number that no function has is answered by a skip.
#[tactic(auto, unfolding(sc_gather::specs::Seen::source_of, sc_world::specs::Programs::source_by))]
pub fn analyse<'p>(
    alloc: Global,
    program: &'p Program,
    function: u32,
    kept: &'p [u32],
    verdicts: &'p [Verdict],
    depth: u32,
    reach: u32,
) -> Result<Verdict, OutOfMemory>
    requires whole { HasWholeMachine program.now }
    ensures { IfOk result (λ v. v ≡ verdict_given program.now depth reach function kept.now verdicts.now) }
{
    whole_machines();
    let Some(found) = program.functions.as_slice().get(function as usize) else {
        return Ok(Verdict::Skipped(Skip::Limit {
            kind: LimitKind::Functions,
            count: 0,
        }));
    };
    if let TBody::Skipped(skip) = &found.body {
        return Ok(Verdict::Skipped(*skip));
    }
    match &program.machine {
        Some(machine) => of_body(
            alloc,
            &Context {
                program,
                machine,
                tries: false,
                function,
                kept,
                verdicts,
                depth,
                reach,
            },
            found,
        ),
        None => {
            let machine = match locks(alloc) {
                Ok(machine) => machine,
                Err(_) => return Err(OutOfMemory),
            };
            of_body(
                alloc,
                &Context {
                    program,
                    machine: &machine,
                    tries: true,
                    function,
                    kept,
                    verdicts,
                    depth,
                    reach,
                },
                found,
            )
        }
    }
}
