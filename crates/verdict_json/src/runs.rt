// Runs that are shown.

ghost use Rattle.std.specs.Prelude.{◌≡◌, [], ◌∷◌, ◌++◌, IfOk, OnOk, codes};
ghost use Rattle.std.specs.Str.Lossy.{utf8_lossy};
ghost use Rattle.json.specs.Token.{key, string};
ghost use Rattle.report_text.specs.Shown.{choice_text};
ghost use Rattle.std.specs.Fmt.{signed_decimal};
ghost use Rattle.json.specs.Tree.{json_tokens, members_tokens};
ghost use Rattle.json_places.specs.Arrays.{array_by};
ghost use Rattle.verdict_json.specs.Runs as spec;
ghost use Rattle.verdict_json.specs.Tellings.{says_told};
ghost use Rattle.json.specs.Json as json;

use crate::tellings::{Telling, end_told};
use itoa::Buffer;
use json_places::{Check, put_place};
use json_text::JsonText;
use report_text::{name_text, put_choice};
use sc_base::{NameId, OutOfMemory, Pos};
use sc_typed::Program;
use std::alloc::Global;
use sum_rows::{Event, Shown, What};

// The last members of an event: its kind alone. The bracket is closed.
fn end_plain(text: &mut JsonText, kind: &str) -> Result<(), OutOfMemory>
    ensures { OnOk result (text.new ≡ text.old ++ members_tokens (spec.plain_members kind.now)) }
{
    text.word_member("kind", kind)?;
    text.end_object()
}

// Its kind, and a member that is a word.
fn end_word(text: &mut JsonText, kind: &str, name: &str, word: &str) -> Result<(), OutOfMemory>
    ensures { OnOk result (text.new ≡ text.old ++ members_tokens (spec.kind_members kind.now name.now (json.string word.now))) }
{
    text.word_member("kind", kind)?;
    text.word_member(name, word)?;
    text.end_object()
}

// The kind of a condition, and whether it holds.
fn end_condition(text: &mut JsonText, kind: &str, holds: bool) -> Result<(), OutOfMemory>
    ensures { OnOk result (text.new ≡ text.old ++ members_tokens (spec.kind_members kind.now (codes "holds") (json.boolean holds))) }
{
    text.word_member("kind", kind)?;
    text.boolean_member("holds", holds)?;
    text.end_object()
}

fn put_callee(
    text: &mut JsonText,
    program: &Program,
    name: Option<NameId>,
) -> Result<(), OutOfMemory>
    ensures { OnOk result (text.new ≡ text.old ++ json_tokens (spec.callee_value program.now name)) }
{
    match name {
        Some(name) => text.string(name_text(program, name)),
        None => text.null(),
    }
}

fn end_call(text: &mut JsonText, program: &Program, name: Option<NameId>) -> Result<(), OutOfMemory>
    ensures { OnOk result (text.new ≡ text.old
        ++ members_tokens (spec.kind_members (codes "call") (codes "callee") (spec.callee_value program.now name))) }
{
    text.word_member("kind", "call")?;
    text.key("callee")?;
    put_callee(text, program, name)?;
    text.end_object()?;
    Ok(())
}

fn end_switch(text: &mut JsonText, number: i128) -> Result<(), OutOfMemory>
    ensures { OnOk result (text.new ≡ text.old
        ++ members_tokens (spec.kind_members (codes "switch") (codes "number") (json.string (signed_decimal number)))) }
{
    let mut buffer = Buffer::new();
    end_word(text, "switch", "number", buffer.format(number))
}

// What happens, and the closing bracket.
fn end_event(text: &mut JsonText, program: &Program, what: What) -> Result<(), OutOfMemory>
    ensures { OnOk result (text.new ≡ text.old ++ members_tokens (spec.what_members program.now what)) }
{
    match what {
        What::Call(name) => end_call(text, program, name),
        What::If(holds) => end_condition(text, "if", holds),
        What::Loop(holds) => end_condition(text, "loop", holds),
        What::Switch(number) => end_switch(text, number),
        What::Goto(name) => end_word(text, "goto", "label", name_text(program, name)),
        What::Return => end_plain(text, "return"),
        What::End => end_plain(text, "end"),
        What::Bad(_) => end_plain(text, "error"),
    }
}

// An event of a function in the file with that number.
fn put_event(text: &mut JsonText, check: &Check, file: u32, event: Event) -> Result<(), OutOfMemory>
    ensures { OnOk result (text.new ≡ text.old
        ++ json_tokens (spec.event_value check.now.program.now check.now.marks.now file event)) }
{
    let at = Pos {
        file,
        line: event.line,
        col: event.col,
    };
    text.begin_object()?;
    text.key("place")?;
    put_place(text, check, at)?;
    end_event(text, check.program, event.what)?;
    Ok(())
}

fn put_events(
    text: &mut JsonText,
    check: &Check,
    file: u32,
    events: &[Event],
) -> Result<(), OutOfMemory>
    ensures { OnOk result (text.new ≡ text.old
        ++ json_tokens (array_by (spec.event_value check.now.program.now check.now.marks.now file) events.now)) }
{
    text.begin_array()?;
    for event in events {
        put_event(text, check, file, *event)?;
    }
    text.end_array()?;
    Ok(())
}

// The digits of a choice.
fn digits_of(alloc: Global, choice: &[bool]) -> Result<Vec<u8>, OutOfMemory>
    ensures { IfOk result (λ t. t.items ≡ choice_text choice.now) }
{
    let mut digits = Vec::new(alloc);
    put_choice(&mut digits, choice)?;
    Ok(digits)
}

// The same as a member.
fn put_choice_member(text: &mut JsonText, alloc: Global, choice: &[bool]) -> Result<(), OutOfMemory>
    ensures { OnOk result (text.new ≡ text.old ++ key (codes "choice") ∷ string (utf8_lossy (choice_text choice.now)) ∷ []) }
{
    let digits = digits_of(alloc, choice)?;
    text.bytes_member("choice", digits.as_slice())
}

/// Puts a run of a function in the file with that number: its choice with what it says, the text of the location of its error,
/// and its events.
///
/// # Errors
///
/// `OutOfMemory` where memory is refused.
pub fn put_ran(
    text: &mut JsonText,
    check: &Check,
    telling: Option<Telling>,
    file: u32,
    choice: &[bool],
    location: &[u8],
    events: &[Event],
) -> Result<(), OutOfMemory>
    ensures { OnOk result (text.new ≡ text.old
        ++ json_tokens (spec.ran_value check.now.program.now check.now.marks.now file (says_told check.now telling.entry)
        choice.now location.now events.now)) }
{
    text.begin_object()?;
    put_choice_member(text, check.alloc, choice)?;
    text.bytes_member("location", location)?;
    text.key("events")?;
    put_events(text, check, file, events)?;
    end_told(text, check, telling, choice)?;
    Ok(())
}

/// The same of a run that is shown.
pub(crate) fn put_run(
    text: &mut JsonText,
    check: &Check,
    telling: Option<Telling>,
    file: u32,
    run: &Shown,
) -> Result<(), OutOfMemory>
    ensures { OnOk result (text.new ≡ text.old
        ++ json_tokens (spec.run_value check.now.program.now check.now.marks.now file (says_told check.now telling.entry) run.now)) }
{
    put_ran(
        text,
        check,
        telling,
        file,
        run.choice.as_slice(),
        run.text.as_slice(),
        run.trace.as_slice(),
    )?;
    Ok(())
}

/// Puts runs in brackets.
pub(crate) fn put_runs(
    text: &mut JsonText,
    check: &Check,
    telling: Option<Telling>,
    file: u32,
    runs: &[Shown],
) -> Result<(), OutOfMemory>
    ensures { OnOk result (text.new ≡ text.old
        ++ json_tokens (array_by (spec.run_value check.now.program.now check.now.marks.now file
        (says_told check.now telling.entry)) runs.now)) }
{
    text.begin_array()?;
    for run in runs {
        put_run(text, check, telling, file, run)?;
    }
    text.end_array()?;
    Ok(())
}
