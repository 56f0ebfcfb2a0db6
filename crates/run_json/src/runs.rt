// The JSON of one run.

ghost use Rattle.std.specs.Prelude.{◌≡◌, ◌++◌, OnOk, IfOk, Some};
ghost use Rattle.std.specs.Str.{IsUtf8};
ghost use Rattle.json.specs.Json.{document};
ghost use Rattle.json.specs.Print.{print};
ghost use Rattle.json.specs.Tree.{json_tokens, members_tokens};
ghost use Rattle.layout_base.specs.Seen.{ground_of};
ghost use Rattle.location_texts.specs.Seen as named;
ghost use Rattle.verdict_json.specs.Tellings.{says_told, says_with};
ghost use Rattle.run_json.specs.Runs as spec;
ghost use Rattle.run_json.specs.Seen.{shown_of};

use crate::outcomes::put_outcome;
use crate::ran::Ran;
use json_places::{is_in_header, put_place};
use json_text::JsonText;
use report_text::name_text;
use sc_base::OutOfMemory;
use sc_typed::Function;
use verdict_json::{Check, Telling, put_options, put_ran};

// The form and its number, with the opening bracket.
fn begin(text: &mut JsonText) -> Result<(), OutOfMemory>
    ensures { OnOk result (text.new ≡ text.old ++ spec.first_tokens) }
{
    text.begin_object()?;
    text.word_member("format", "nalvegop run")?;
    text.count_member("version", 1)?;
    Ok(())
}

// The function that is run.
fn put_function(text: &mut JsonText, check: &Check, function: &Function) -> Result<(), OutOfMemory>
    ensures { OnOk result (text.new ≡ text.old
        ++ json_tokens (spec.function_value check.now.program.now check.now.marks.now function.now)) }
{
    text.begin_object()?;
    text.word_member("name", name_text(check.program, function.name))?;
    text.key("place")?;
    put_place(text, check, function.pos)?;
    text.boolean_member("in_header", is_in_header(check, function.pos))?;
    text.end_object()?;
    Ok(())
}

// The run and how it ended, with the closing bracket.
fn end_ran(
    text: &mut JsonText,
    check: &Check,
    telling: Telling,
    file: u32,
    ran: &Ran,
) -> Result<(), OutOfMemory>
    ensures { OnOk result (text.new ≡ text.old
        ++ members_tokens (spec.ran_members check.now.program.now check.now.marks.now (says_told check.now (Some telling.entry))
        file (shown_of ran.now) ran.now.ending)) }
{
    text.key("run")?;
    put_ran(
        text,
        check,
        Some(telling),
        file,
        ran.choice,
        ran.location,
        ran.events,
    )?;
    text.key("outcome")?;
    put_outcome(text, ran.ending)?;
    text.end_object()?;
    Ok(())
}

fn put_replay(
    text: &mut JsonText,
    check: &Check,
    telling: Telling,
    function: &Function,
    ran: &Ran,
) -> Result<(), OutOfMemory>
    ensures { OnOk result (text.new ≡ text.old
        ++ json_tokens (spec.replay_value check.now.program.now check.now.marks.now check.now.depth check.now.reach
        (says_told check.now (Some telling.entry)) function.now (shown_of ran.now) ran.now.ending)) }
{
    begin(text)?;
    text.key("options")?;
    put_options(text, check)?;
    text.key("function")?;
    put_function(text, check, function)?;
    end_ran(text, check, telling, function.pos.file, ran)?;
    Ok(())
}

/// The JSON of a run of the function that is told of: a text (RFC 8259) that is read as the value which is defined.
///
/// # Errors
///
/// `OutOfMemory` where memory is refused, or a count does not fit its type.
#[tactic(auto, unfolding(verdict_json::specs::Tellings::says_told))]
pub fn run_json(check: &Check, telling: Telling, ran: &Ran) -> Result<Vec<u8>, OutOfMemory>
    ensures bytes { IfOk result (λ bytes. bytes.items ≡ print (json_tokens (spec.replay_value check.now.program.now
        check.now.marks.now check.now.depth check.now.reach
        (says_with check.now.program.now check.now.marks.now (ground_of telling.entry.ground).source
        (named.texts telling.entry.names.now))
        telling.entry.names.now.function.now (shown_of ran.now) ran.now.ending))) }
    ensures utf8 { IfOk result (λ bytes. IsUtf8 bytes.items) }
    ensures value { IfOk result (λ bytes. document bytes.items ≡ Some (spec.replay_value check.now.program.now
        check.now.marks.now check.now.depth check.now.reach
        (says_with check.now.program.now check.now.marks.now (ground_of telling.entry.ground).source
        (named.texts telling.entry.names.now))
        telling.entry.names.now.function.now (shown_of ran.now) ran.now.ending)) }
{
    let mut text = JsonText::new(check.alloc);
    put_replay(&mut text, check, telling, telling.names.function, ran)?;
    Ok(text.into_bytes())
}
