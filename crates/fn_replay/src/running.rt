// A run, as it is told.

ghost use Rattle.std.specs.Prelude.{◌≡◌, IfOk};
ghost use Rattle.fsm_spec.specs.Table.{IsWhole};
ghost use Rattle.layout_base.specs.Seen as laid;
ghost use Rattle.location_texts.specs.Seen as named;
ghost use Rattle.run_laws.specs.Proper.{IsClosed};
ghost use Rattle.sc_interp.specs.Seen.{ended};
ghost use Rattle.sc_world.specs.Verdict.{error_text, run_over};
ghost use Rattle.fn_replay.specs.Replays.{ending_of, told_as, told_run};
ghost use Rattle.fn_replay.specs.Seen.{form_of};
ghost use Rattle.run_json.specs.Seen.{shown_of};

use crate::forms::Form;
use layout_base::Ground;
use location_texts::{Texts, text_at};
use report_text::{Ending, replay};
use run_json::{Check, Ran, Telling, run_json};
use sc_base::OutOfMemory;
use sc_interp::{Machine, Outcome};
use std::alloc::Global;

// How a run ended, as a replay shows it.
fn ending(outcome: Outcome) -> Ending
    ensures { result ≡ ending_of (ended outcome) }
{
    match outcome {
        Outcome::Exit(_) => Ending::Exit,
        Outcome::Error(_) => Ending::Error,
        Outcome::Inner(_) => Ending::Inner,
        Outcome::Aside(reason) => Ending::Aside(reason),
    }
}

// The text of the location of the error with which a run ended; none where there is no error.
fn location_text(alloc: Global, names: &Texts, outcome: Outcome) -> Result<Vec<u8>, OutOfMemory>
    ensures { IfOk result (λ t. t.items ≡ error_text (named.texts names.now) (ended outcome)) }
{
    match outcome {
        Outcome::Error(at) | Outcome::Inner(at) => text_at(alloc, names, at),
        Outcome::Exit(_) | Outcome::Aside(_) => Ok(Vec::new(alloc)),
    }
}

// A run of the function at hand, in this form.
#[tactic(auto, unfolding(layout_base::specs::Seen::ground_of, sc_gather::specs::Seen::source_of, sc_world::specs::Programs::source_by))]
fn in_form<'p, 'm, 'f>(
    alloc: Global,
    form: Form<'_>,
    given: Ground<'p, 'm, 'f>,
    names: &Texts<'p, 'f>,
    ran: &Ran,
) -> Result<Vec<u8>, OutOfMemory>
    ensures { IfOk result (λ t. t.items ≡ told_as (form_of form.entry) names.now.program.now names.now.function.now
        (laid.ground_of given.entry).source (named.texts names.now) (shown_of ran.now) ran.now.ending) }
{
    match form {
        Form::Text => replay(alloc, names.program, ran.events, ran.ending, ran.location),
        Form::Json(marks) => {
            let check = Check {
                alloc,
                program: names.program,
                marks,
                depth: given.here.depth,
                reach: given.here.reach,
            };
            let telling = Telling {
                ground: given,
                names,
            };
            run_json(&check, telling, ran)
        }
    }
}

/// The run on a choice of the function at hand, in this form. `given` has what is read of the program, and `names` the
/// layout, which is one that `places` gives. The machine of states is one that a file spells, or that of locks.
pub(crate) fn tell_run<'p, 'm, 'f>(
    alloc: Global,
    form: Form<'_>,
    given: Ground<'p, 'm, 'f>,
    names: &Texts<'p, 'f>,
    choice: &[bool],
) -> Result<Vec<u8>, OutOfMemory>
    requires whole { IsWhole (laid.ground_of given).source.machine }
    requires closed { IsClosed (laid.layout_of names.now.places.now) }
    ensures { IfOk result (λ t. t.items ≡ told_run (form_of form.entry) names.now.program.now names.now.function.now
        (laid.ground_of given.entry).source (named.texts names.now)
        (run_over (laid.ground_of given.entry).source (laid.layout_of names.now.places.now) choice.now)) }
{
    let mut machine = Machine::reserve(alloc, given, names.places)?;
    let outcome = machine.run(choice);
    let location = location_text(alloc, names, outcome)?;
    let ran = Ran {
        choice,
        events: machine.trace(),
        location: location.as_slice(),
        ending: ending(outcome),
    };
    in_form(alloc, form, given, names, &ran)
}
