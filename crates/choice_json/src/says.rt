// What a choice says, thing by thing.

ghost use Rattle.std.specs.Prelude.{◌≡◌, ◌++◌, OnOk};
ghost use Rattle.json.specs.Tree.{json_tokens};
ghost use Rattle.json_places.specs.Arrays.{array_by};
ghost use Rattle.layout_base.specs.Seen as laid;
ghost use Rattle.location_texts.specs.Seen as named;
ghost use Rattle.choice_json.specs.Seen.{speaker_of};
ghost use Rattle.choice_json.specs.Says as spec;

use crate::calls::{begin_call, effect_of, firsts_of, put_item_at, put_write_at};
use crate::speech::Speech;
use crate::words::{end_value, put_location_member};
use choice_words::{Said, Subject, Word, said, things};
use json_places::Check;
use json_text::JsonText;
use layout_base::Ground;
use location_texts::Texts;
use sc_base::OutOfMemory;

// Of a location: its cell, or its state at entry.
fn put_location(
    text: &mut JsonText,
    speech: &Speech,
    kind: &str,
    at: u32,
    word: Word,
) -> Result<(), OutOfMemory>
    ensures { OnOk result (text.new ≡ text.old ++ json_tokens (spec.location_said (speaker_of speech.now) kind.now at word)) }
{
    text.begin_object()?;
    text.word_member("kind", kind)?;
    put_location_member(text, speech, "location", at)?;
    end_value(text, speech, word)?;
    Ok(())
}

// What a call does itself.
fn put_call(text: &mut JsonText, speech: &Speech, call: u32, word: Word) -> Result<(), OutOfMemory>
    ensures { OnOk result (text.new ≡ text.old ++ json_tokens (spec.call_said (speaker_of speech.now) call word)) }
{
    begin_call(text, speech, "call", call)?;
    end_value(text, speech, word)?;
    Ok(())
}

// What a known call does to an item of its callee's summary.
fn put_item(
    text: &mut JsonText,
    speech: &Speech,
    call: u32,
    item: usize,
    word: Word,
) -> Result<(), OutOfMemory>
    ensures { OnOk result (text.new ≡ text.old ++ json_tokens (spec.item_said (speaker_of speech.now) call item word)) }
{
    begin_call(text, speech, "item", call)?;
    put_item_at(text, speech, effect_of(speech.names.places, call), item)?;
    end_value(text, speech, word)?;
    Ok(())
}

// What it does to a written cell.
fn put_write(
    text: &mut JsonText,
    speech: &Speech,
    call: u32,
    write: usize,
    word: Word,
) -> Result<(), OutOfMemory>
    ensures { OnOk result (text.new ≡ text.old ++ json_tokens (spec.write_said (speaker_of speech.now) call write word)) }
{
    begin_call(text, speech, "write", call)?;
    put_write_at(text, speech, effect_of(speech.names.places, call), write)?;
    end_value(text, speech, word)?;
    Ok(())
}

fn put_said(text: &mut JsonText, speech: &Speech, said: Said) -> Result<(), OutOfMemory>
    ensures { OnOk result (text.new ≡ text.old ++ json_tokens (spec.said_value (speaker_of speech.now) said)) }
{
    match said.of {
        Subject::Cell(at) => put_location(text, speech, "cell", at, said.word),
        Subject::State(at) => put_location(text, speech, "state", at, said.word),
        Subject::Call(call) => put_call(text, speech, call, said.word),
        Subject::Item { call, item } => put_item(text, speech, call, item, said.word),
        Subject::Write { call, write } => put_write(text, speech, call, write, said.word),
    }
}

// All that is said, in brackets.
fn put_all(text: &mut JsonText, speech: &Speech, said: &[Said]) -> Result<(), OutOfMemory>
    ensures { OnOk result (text.new ≡ text.old
        ++ json_tokens (array_by (spec.said_value (speaker_of speech.now)) said.now)) }
{
    text.begin_array()?;
    for one in said {
        put_said(text, speech, *one)?;
    }
    text.end_array()?;
    Ok(())
}

/// Puts what a choice of a function says, thing by thing, in brackets: the locations in their order, then the calls in theirs.
/// `ground` is what is read of the function with its kept callees, and `names` has its layout. The time is linear in what is
/// written, but for the texts of locations, which are copied at each of their steps.
///
/// # Errors
///
/// `OutOfMemory` where memory is refused.
#[tactic(auto, unfolding(crate::specs::Says::says_value, layout_base::specs::Seen::ground_of, layout_base::specs::Seen::layout_of, sc_gather::specs::Seen::source_of, sc_world::specs::Programs::source_by))]
pub fn put_says(
    text: &mut JsonText,
    check: &Check,
    ground: &Ground,
    names: &Texts,
    choice: &[bool],
) -> Result<(), OutOfMemory>
    ensures { OnOk result (text.new ≡ text.old
        ++ json_tokens (spec.says_value check.now.program.now check.now.marks.now (laid.ground_of ground.now).source
        (named.texts names.now) choice.now)) }
{
    let alloc = check.alloc;
    let firsts = firsts_of(alloc, names.places.sites.as_slice())?;
    let things = things(alloc, ground, names.places)?;
    let states = ground.here.machine.states();
    let said = said(alloc, states, things.as_slice(), choice)?;
    let speech = Speech {
        check,
        ground: *ground,
        names,
        firsts: firsts.as_slice(),
    };
    put_all(text, &speech, said.as_slice())?;
    Ok(())
}
