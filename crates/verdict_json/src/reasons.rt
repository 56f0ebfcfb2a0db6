// Why a function or a declaration is left out.

ghost use Rattle.std.specs.Prelude.{◌≡◌, ◌++◌, OnOk};
ghost use Rattle.json.specs.Tree.{json_tokens};
ghost use Rattle.json_places.specs.Arrays.{array_by};
ghost use Rattle.verdict_json.specs.Reasons as spec;

use json_places::{Check, put_place};
use json_text::JsonText;
use report_text::{ill_typed_word, limit_word, unsupported_word};
use sc_base::{OutOfMemory, Pos, Skip};

fn put_limit(text: &mut JsonText, kind: &[u8], count: u64) -> Result<(), OutOfMemory>
    ensures { OnOk result (text.new ≡ text.old ++ json_tokens (spec.limit_value kind.now count)) }
{
    text.begin_object()?;
    text.word_member("reason", "limit")?;
    text.bytes_member("kind", kind)?;
    text.count_member("count", count)?;
    text.end_object()?;
    Ok(())
}

fn put_grammar(text: &mut JsonText, check: &Check, at: Pos) -> Result<(), OutOfMemory>
    ensures { OnOk result (text.new ≡ text.old
        ++ json_tokens (spec.grammar_value check.now.program.now check.now.marks.now at)) }
{
    text.begin_object()?;
    text.word_member("reason", "grammar")?;
    text.key("place")?;
    put_place(text, check, at)?;
    text.end_object()?;
    Ok(())
}

// A reason with its kind.
fn put_kind(
    text: &mut JsonText,
    check: &Check,
    reason: &str,
    kind: &[u8],
    at: Pos,
) -> Result<(), OutOfMemory>
    ensures { OnOk result (text.new ≡ text.old
        ++ json_tokens (spec.kind_value check.now.program.now check.now.marks.now reason.now kind.now at)) }
{
    text.begin_object()?;
    text.word_member("reason", reason)?;
    text.bytes_member("kind", kind)?;
    text.key("place")?;
    put_place(text, check, at)?;
    text.end_object()?;
    Ok(())
}

/// Puts why something is left out.
pub(crate) fn put_skip(text: &mut JsonText, check: &Check, skip: Skip) -> Result<(), OutOfMemory>
    ensures { OnOk result (text.new ≡ text.old
        ++ json_tokens (spec.skip_value check.now.program.now check.now.marks.now skip)) }
{
    match skip {
        Skip::Grammar { pos } => put_grammar(text, check, pos),
        Skip::Unsupported { kind, pos } => {
            put_kind(text, check, "unsupported", unsupported_word(kind), pos)
        }
        Skip::IllTyped { kind, pos } => {
            put_kind(text, check, "illtyped", ill_typed_word(kind), pos)
        }
        Skip::Limit { kind, count } => put_limit(text, limit_word(kind), count),
    }
}

/// Puts the notes in brackets.
pub(crate) fn put_notes(
    text: &mut JsonText,
    check: &Check,
    notes: &[Skip],
) -> Result<(), OutOfMemory>
    ensures { OnOk result (text.new ≡ text.old
        ++ json_tokens (array_by (spec.skip_value check.now.program.now check.now.marks.now) notes.now)) }
{
    text.begin_array()?;
    for note in notes {
        put_skip(text, check, *note)?;
    }
    text.end_array()?;
    Ok(())
}
