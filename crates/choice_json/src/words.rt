// What is said of one thing.

ghost use Rattle.std.specs.Prelude.{◌≡◌, [], ◌∷◌, ◌++◌, OnOk, codes};
ghost use Rattle.std.specs.Fmt.{signed_decimal};
ghost use Rattle.json.specs.Json as json;
ghost use Rattle.json.specs.Token.{key, string};
ghost use Rattle.json.specs.Tree.{json_tokens, members_tokens};
ghost use Rattle.json_text.specs.Values.{text_value};
ghost use Rattle.report_text.specs.Rows.{machine_state as name_of_state};
ghost use Rattle.choice_json.specs.Seen.{speaker_of};
ghost use Rattle.choice_json.specs.Words as spec;

use crate::speech::Speech;
use choice_words::Word;
use fsm_spec::MachineSpec;
use itoa::Buffer;
use json_text::JsonText;
use location_texts::text_at;
use report_text::machine_state;
use sc_base::OutOfMemory;

// A word under a word.
#[tactic(auto, unfolding(crate::specs::Words::under))]
fn put_under(text: &mut JsonText, name: &str, word: &str) -> Result<(), OutOfMemory>
    ensures { OnOk result (text.new ≡ text.old ++ json_tokens (spec.under name.now (json.string word.now))) }
{
    text.begin_object()?;
    text.word_member(name, word)?;
    text.end_object()
}

/// Puts a member that is a location by its text.
pub(crate) fn put_location_member(
    text: &mut JsonText,
    speech: &Speech,
    name: &str,
    at: u32,
) -> Result<(), OutOfMemory>
    ensures { OnOk result (text.new ≡ text.old ++ key name.now ∷ json_tokens (spec.location_value (speaker_of speech.now) at)) }
{
    let spelled = text_at(speech.check.alloc, speech.names, at)?;
    text.bytes_member(name, spelled.as_slice())
}

// A location under a word.
#[tactic(auto, unfolding(crate::specs::Words::under))]
fn put_location_under(
    text: &mut JsonText,
    speech: &Speech,
    name: &str,
    at: u32,
) -> Result<(), OutOfMemory>
    ensures { OnOk result (text.new ≡ text.old
        ++ json_tokens (spec.under name.now (spec.location_value (speaker_of speech.now) at))) }
{
    text.begin_object()?;
    put_location_member(text, speech, name, at)?;
    text.end_object()
}

fn put_number(text: &mut JsonText, number: i128) -> Result<(), OutOfMemory>
    ensures { OnOk result (text.new ≡ text.old
        ++ json_tokens (spec.under (codes "number") (json.string (signed_decimal number)))) }
{
    let mut buffer = Buffer::new();
    put_under(text, "number", buffer.format(number))
}

// The state with that number, by its name.
fn put_state(
    text: &mut JsonText,
    machine: &Option<MachineSpec>,
    state: u64,
) -> Result<(), OutOfMemory>
    ensures { OnOk result (text.new ≡ text.old
        ++ json_tokens (spec.under (codes "state") (json.string (name_of_state machine.now state)))) }
{
    match u32::try_from(state) {
        Ok(state) => put_under(text, "state", machine_state(machine, state)),
        Err(_) => Err(OutOfMemory),
    }
}

fn put_word(text: &mut JsonText, speech: &Speech, word: Word) -> Result<(), OutOfMemory>
    ensures { OnOk result (text.new ≡ text.old ++ json_tokens (spec.word_value (speaker_of speech.now) word)) }
{
    match word {
        Word::Number(number) => put_number(text, number),
        Word::Null => text.string("null"),
        Word::Object(at) => put_location_under(text, speech, "object", at),
        Word::Fresh(at) => put_location_under(text, speech, "fresh", at),
        Word::Other(at) => put_location_under(text, speech, "other", at),
        Word::Same => text.string("same"),
        Word::Succeeds => text.string("succeeds"),
        Word::Fails => text.string("fails"),
        Word::State(state) => put_state(text, &speech.check.program.machine, state),
        Word::Errs => text.string("error"),
        Word::Held => text.string("held"),
        Word::Escaped => text.string("escaped"),
        Word::Freed => text.string("freed"),
        Word::NoRow => text.string("none"),
    }
}

/// Puts the last member, which is the value, and the closing bracket.
pub(crate) fn end_value(text: &mut JsonText, speech: &Speech, word: Word) -> Result<(), OutOfMemory>
    ensures { OnOk result (text.new ≡ text.old ++ members_tokens (spec.value_member (speaker_of speech.now) word)) }
{
    text.key("value")?;
    put_word(text, speech, word)?;
    text.end_object()
}
