// The call of `saturn_run`.

ghost use Rattle.std.specs.Prelude.{◌≡◌, ◌≢◌, ℕ, List, map, string_bytes, codes, IfOk};
ghost use Rattle.sc_input.specs.Input.{Outside};
ghost use Rattle.top_answers.specs.Promises.{around, change, Promises};
ghost use Rattle.top_answers.specs.Seen.{seen};
ghost use Rattle.whole_replays.specs.Forms.{form_of};
ghost use Rattle.whole_replays.specs.Said.{HasWholeMachine};
ghost use Rattle.run_top.specs.Runs.{due_of_told, form_as, told_of, IsDue, IsFound, AskNothing, wording};

use crate::lines::answer_of;
use fsm_spec::whole_machines;
use line_marks::LineMarks;
use saturn_words::{Format, NoWords, RunWords, run_words};
use sc_base::{Files, OutOfMemory, Sink};
use sc_input::{Input, read_input};
use std::alloc::Global;
use top_answers::{Answer, Status, give, refused};
use whole_replays::{Asked, Form, Sources, tell};

// The form that the words name, with the line markers of the files.
fn form_as<'a>(format: Format, marks: &'a [LineMarks]) -> Form<'a>
    ensures { form_of result ≡ form_as format marks.entry.now }
{
    match format {
        Format::Text => Form::Text,
        Format::Json => Form::Json(marks),
    }
}

// A run of the function of this name on the choice that the digits spell, in this form.
fn replayed<'a>(
    format: Format,
    marks: &'a [LineMarks],
    name: &'a [u8],
    digits: &'a [u8],
    depth: u32,
    reach: u32,
) -> Asked<'a>
    ensures form { form_of result.form ≡ form_as format marks.entry.now }
    ensures name { result.name.now ≡ name.entry.now }
    ensures digits { result.digits.now ≡ digits.entry.now }
    ensures bounds { (result.depth ≡ depth) × (result.reach ≡ reach) }
{
    Asked {
        form: form_as(format, marks),
        name,
        digits,
        depth,
        reach,
    }
}

// What is due for the input.
fn answer_for(alloc: Global, asked: &RunWords, input: Input) -> Result<Answer, OutOfMemory>
    requires whole { HasWholeMachine input.machine }
    ensures { IfOk result (λ answer. seen answer ≡ due_of_told (codes "saturn_run") asked.now.function.now (told_of asked.now input)) }
{
    let Input {
        names,
        files,
        units,
        marks,
        machine,
        ..
    } = input;
    let options = &asked.options;
    let sources = Sources {
        names,
        files,
        units: units.as_slice(),
        widths: options.widths,
        machine,
    };
    let name = asked.function.as_bytes();
    let digits = asked.choice.as_bytes();
    let run = replayed(
        asked.format,
        marks.as_slice(),
        name,
        digits,
        options.depth,
        options.reach,
    );
    let told = tell(alloc, sources, run)?;
    answer_of(alloc, b"saturn_run", name, told)
}

// What is due for the files that these words name.
fn find<F: Files>(alloc: Global, asked: &RunWords, files: &mut F) -> Result<Answer, OutOfMemory>
    ensures { IfOk result (λ answer. IsFound asked.now (around (F.held files.old) (F.firm files.old) (F.faults files.old) (F.faults files.new)) (seen answer)) }
{
    whole_machines();
    let options = &asked.options;
    match read_input(alloc, files, options.machine, options.files.as_slice()) {
        Ok(input) => answer_for(alloc, asked, input),
        Err(why) => refused(alloc, b"saturn_run", why),
    }
}

// What is due where the words ask for nothing.
fn unasked(why: NoWords) -> Result<Answer, OutOfMemory>
    ensures { IfOk result (λ answer. (words : List (List ℕ)) (outside : Outside) → AskNothing words why → IsDue words outside (seen answer)) }
{
    match why {
        NoWords::Help(text) => Ok(Answer::Output(Status::Helped, text.into_bytes())),
        NoWords::Bad(text) => Ok(Answer::Errors(Status::BadWords, text.into_bytes())),
        NoWords::Memory => Err(OutOfMemory),
    }
}

// What is due for these words.
fn answer<F: Files>(
    alloc: Global,
    words: &Vec<String>,
    files: &mut F,
) -> Result<Answer, OutOfMemory>
    ensures { IfOk result (λ answer. IsDue (map string_bytes words.now.items) (around (F.held files.old) (F.firm files.old) (F.faults files.old) (F.faults files.new)) (seen answer)) }
{
    match run_words(alloc, words.as_slice()) {
        Ok(asked) => find(alloc, &asked, files),
        Err(why) => unasked(why),
    }
}

/// Runs one function of the files on a choice, as it is printed in a report: the first function of that name in the
/// order of the program. `words` are the program's name and the words of `saturn_run`. It works on the calling thread,
/// and always returns.
///
/// The run as text or as JSON, or the text of help, goes to `out`; the line that says why there is none goes to `err`. Either is
/// made whole before its first byte is written. The status of a run is `Clean`, however the run ends.
pub fn run_main<F: Files, O: Sink, E: Sink>(
    alloc: Global,
    words: &Vec<String>,
    files: &mut F,
    out: &mut O,
    err: &mut E,
) -> Status
    ensures promises { Promises
        (IsDue (map string_bytes words.now.items) (around (F.held files.old) (F.firm files.old) (F.faults files.old) (F.faults files.new)))
        (wording (map string_bytes words.now.items))
        (around (F.held files.old) (F.firm files.old) (F.faults files.old) (F.faults files.new))
        (change (O.faults out.old) (O.faults out.new) (O.taken out.old) (O.taken out.new))
        (change (E.faults err.old) (E.faults err.new) (E.taken err.old) (E.taken err.new))
        result }
    ensures never_reports { result ≢ Status.Reports }
{
    match answer(alloc, words, files) {
        Ok(answer) => give(&answer, out, err),
        Err(_) => Status::Memory,
    }
}
