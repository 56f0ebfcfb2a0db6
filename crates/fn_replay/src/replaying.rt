// The replay of a function.

ghost use Rattle.std.specs.Prelude.{◌≡◌, IfOk, Ok, Some};
ghost use Rattle.fsm_spec.specs.Table.{IsWhole};
ghost use Rattle.sc_gather.specs.Seen.{source_of};
ghost use Rattle.sc_world.specs.Places as laying;
ghost use Rattle.sc_world.specs.Programs.{source};
ghost use Rattle.layout_base.specs.Seen as laid;
ghost use Rattle.program_verdicts.specs.Verdicts.{texts};
ghost use Rattle.choice_texts.specs.Choices.{choice_spelled};
ghost use Rattle.fn_replay.specs.Replays.{on_choice, replay_of, replay_given, HasWholeMachine};
ghost use Rattle.fn_replay.specs.Seen.{form_of, seen};

use crate::forms::Form;
use crate::replayed::Replayed;
use crate::running::tell_run;
use choice_texts::read_choice;
use fsm_spec::{locks, whole_machines};
use layout_base::{Ground, Places};
use location_texts::Texts;
use places::{PlaceAnswer, places};
use run_laws::layouts_are_closed;
use sc_base::OutOfMemory;
use sc_gather::{Context, gather};
use sc_typed::{Function, Program, TBody};
use std::alloc::Global;
use sum_rows::Verdict;

/// Which run is replayed, in which form, and how far it goes.
#[derive(Clone, Copy)]
pub struct Run<'a> {
    /// The form in which the run is told.
    pub form: Form<'a>,
    /// The number of the function.
    pub function: u32,
    /// The digits that spell the choice.
    pub digits: &'a [u8],
    /// How often a loop may turn.
    pub depth: u32,
    /// How far pointers are followed at entry.
    pub reach: u32,
}

// The replay of the function at hand, which has this layout, on a choice.
#[tactic(auto, unfolding(layout_base::specs::Seen::ground_of))]
fn on_choice<'p>(
    alloc: Global,
    form: Form<'_>,
    here: &Context<'p, '_>,
    function: &'p Function,
    layout: &Places<'p>,
    choice: &[bool],
) -> Result<Replayed, OutOfMemory>
    requires whole { IsWhole (source_of here.now).machine }
    requires laid { laying.places (source_of here.now) ≡ Ok (laid.layout_of layout.now) }
    ensures { IfOk result (λ r. seen r ≡ on_choice (form_of form.entry) here.now.program.now function.now (source_of here.now)
        (texts here.now.program.now function.now (laid.layout_of layout.now)) (Some choice.now)) }
{
    layouts_are_closed();
    let found = match gather(alloc, here) {
        Ok(found) => found,
        // The layout is made of the same walk over the text, so it is not the limit of nodes.
        Err(_) => return Err(OutOfMemory),
    };
    let given = Ground {
        here,
        found: &found,
    };
    let names = Texts {
        program: here.program,
        function,
        places: layout,
    };
    let told = tell_run(alloc, form, given, &names, choice)?;
    Ok(Replayed::Told(told))
}

// The same on the choice that digits spell.
#[tactic(auto, unfolding(layout_base::specs::Seen::layout_of))]
fn on_digits<'p>(
    alloc: Global,
    form: Form<'_>,
    here: &Context<'p, '_>,
    function: &'p Function,
    layout: &Places<'p>,
    digits: &[u8],
) -> Result<Replayed, OutOfMemory>
    requires whole { IsWhole (source_of here.now).machine }
    requires laid { laying.places (source_of here.now) ≡ Ok (laid.layout_of layout.now) }
    ensures { IfOk result (λ r. seen r ≡ on_choice (form_of form.entry) here.now.program.now function.now (source_of here.now)
        (texts here.now.program.now function.now (laid.layout_of layout.now))
        (choice_spelled (laid.layout_of layout.now).bits digits.now)) }
{
    match read_choice(alloc, digits, layout.bits)? {
        Some(choice) => on_choice(alloc, form, here, function, layout, choice.as_slice()),
        None => Ok(Replayed::BadChoice),
    }
}

// The replay of the function at hand, which has a body.
fn of_body<'p>(
    alloc: Global,
    form: Form<'_>,
    here: &Context<'p, '_>,
    function: &'p Function,
    digits: &[u8],
) -> Result<Replayed, OutOfMemory>
    requires whole { IsWhole (source_of here.now).machine }
    requires given { source_of here.now ≡ source here.now.program.now here.now.function here.now.kept.now here.now.verdicts.now
        here.now.depth here.now.reach }
    ensures { IfOk result (λ r. seen r ≡ replay_of (form_of form.entry) here.now.program.now function.now (source_of here.now)
        (texts here.now.program.now function.now) digits.now) }
{
    match places(
        alloc,
        here.program,
        here.function,
        here.kept,
        here.verdicts,
        here.depth,
        here.reach,
    ) {
        Ok(layout) => on_digits(alloc, form, here, function, &layout, digits),
        Err(PlaceAnswer::Limit(_, _)) => Ok(Replayed::Skipped),
        Err(PlaceAnswer::OutOfMemory) => Err(OutOfMemory),
    }
}

/// The replay of a run. `kept` are the kept callees of its function, ascending, and `verdicts` has the verdict of each.
/// It is `Skipped` exactly where the function is skipped, be it for a limit, and `BadChoice` where no choice of the
/// function is spelled by the digits; else the run in that form, however it ends. A number that no function has is
/// answered by `Skipped`.
///
/// # Errors
///
/// `OutOfMemory` where memory is refused.
#[tactic(auto, unfolding(sc_gather::specs::Seen::source_of, sc_world::specs::Programs::source_by))]
pub fn replay_run<'p>(
    alloc: Global,
    program: &'p Program,
    kept: &'p [u32],
    verdicts: &'p [Verdict],
    run: Run<'_>,
) -> Result<Replayed, OutOfMemory>
    requires whole { HasWholeMachine program.now }
    ensures { IfOk result (λ r. seen r ≡ replay_given (form_of run.entry.form) program.now run.entry.depth run.entry.reach run.entry.function kept.now
        verdicts.now run.entry.digits.now) }
{
    whole_machines();
    let Some(function) = program.functions.as_slice().get(run.function as usize) else {
        return Ok(Replayed::Skipped);
    };
    if let TBody::Skipped(_) = &function.body {
        return Ok(Replayed::Skipped);
    }
    match &program.machine {
        Some(machine) => of_body(
            alloc,
            run.form,
            &Context {
                program,
                machine,
                tries: false,
                function: run.function,
                kept,
                verdicts,
                depth: run.depth,
                reach: run.reach,
            },
            function,
            run.digits,
        ),
        None => {
            let machine = match locks(alloc) {
                Ok(machine) => machine,
                Err(_) => return Err(OutOfMemory),
            };
            of_body(
                alloc,
                run.form,
                &Context {
                    program,
                    machine: &machine,
                    tries: true,
                    function: run.function,
                    kept,
                    verdicts,
                    depth: run.depth,
                    reach: run.reach,
                },
                function,
                run.digits,
            )
        }
    }
}
