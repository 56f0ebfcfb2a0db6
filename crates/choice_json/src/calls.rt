// Calls, and what of their callees' summaries is spoken of.

ghost use Rattle.std.specs.Prelude.{◌≡◌, ◌+◌, ◌∷◌, ◌++◌, IfOk, OnOk, map, slice_get, slice_index_or};
ghost use Rattle.std.specs.Option.{option_copied};
ghost use Rattle.json.specs.Json.{Members};
ghost use Rattle.json.specs.Token.{begin_object};
ghost use Rattle.json.specs.Tree.{members_tokens};
ghost use Rattle.sc_gather.specs.Seen as gathered;
ghost use Rattle.sc_world.specs.Layout.{no_occurrence};
ghost use Rattle.sc_world.specs.Paths.{site_of};
ghost use Rattle.layout_base.specs.Seen as laid;
ghost use Rattle.choice_json.specs.Seen.{speaker_of};
ghost use Rattle.choice_json.specs.Speakers.{firsts_of};
ghost use Rattle.choice_json.specs.Calls as spec;

use crate::speech::Speech;
use json_places::{put_path, put_place};
use json_text::JsonText;
use layout_base::{Ground, Places};
use location_texts::call_pos;
use report_text::param_text;
use sc_base::OutOfMemory;
use sc_gather::{Effect, Site};
use sc_typed::{Param, Program};
use std::alloc::Global;
use sum_rows::{Item, ItemRows, Path, Summary, Write};

/// The number of the first occurrence of each call.
pub(crate) fn firsts_of(alloc: Global, sites: &[Site]) -> Result<Vec<u32>, OutOfMemory>
    ensures { IfOk result (λ l. l.items ≡ firsts_of 0 (map gathered.call sites.now)) }
{
    let mut firsts = Vec::new(alloc);
    let mut before = 0;
    for site in sites {
        firsts.push(before)?;
        before = sum(before, site.turns)?;
    }
    Ok(firsts)
}

fn sum(a: u32, b: u32) -> Result<u32, OutOfMemory>
    ensures { IfOk result (λ n. n ≡ a + b) }
{
    a.checked_add(b).ok_or(OutOfMemory)
}

// The number in the text of the call with that number.
#[tactic(auto, unfolding(layout_base::specs::Seen::layout_of))]
fn site_number(places: &Places, call: u32) -> u32
    ensures { result ≡ (slice_index_or (laid.layout_of places.now).occurrences call no_occurrence).site }
{
    match places.occurrences.get(call as usize) {
        Some(occurrence) => occurrence.site,
        None => 0,
    }
}

/// What the call with that number does.
#[tactic(auto, unfolding(layout_base::specs::Seen::layout_of))]
pub(crate) fn effect_of(places: &Places, call: u32) -> Effect
    ensures { gathered.meaning result ≡ (site_of (laid.layout_of places.now) call).effect }
{
    match places.sites.get(site_number(places, call) as usize) {
        Some(site) => site.effect,
        None => Effect::Unknown,
    }
}

// The turn of the call with that number.
fn turn_of(speech: &Speech, call: u32) -> u32
    ensures { result ≡ spec.turn_of (speaker_of speech.now) call }
{
    match speech
        .firsts
        .get(site_number(speech.names.places, call) as usize)
    {
        Some(first) => call.saturating_sub(*first),
        None => call,
    }
}

/// Puts the opening bracket, the kind, and which call it is.
pub(crate) fn begin_call(
    text: &mut JsonText,
    speech: &Speech,
    kind: &str,
    call: u32,
) -> Result<(), OutOfMemory>
    ensures { OnOk result ((more : Members) → text.new ++ members_tokens more
        ≡ text.old ++ begin_object ∷ members_tokens (spec.call_members (speaker_of speech.now) kind.now call more)) }
{
    text.begin_object()?;
    text.word_member("kind", kind)?;
    text.key("place")?;
    put_place(text, speech.check, call_pos(speech.names.places, call))?;
    text.count_member("turn", u64::from(turn_of(speech, call)))?;
    Ok(())
}

// The number of the kept callee with that place.
#[tactic(auto, unfolding(layout_base::specs::Seen::ground_of, sc_gather::specs::Seen::source_of, sc_world::specs::Programs::source_by))]
fn kept_at(ground: &Ground, place: usize) -> u32
    ensures { result ≡ slice_index_or (laid.ground_of ground.now).source.kept place 0 }
{
    match ground.here.kept.get(place) {
        Some(function) => *function,
        None => 0,
    }
}

// The parameters of the function with that number.
fn params_at(program: &Program, function: u32) -> &[Param]
    ensures { result.now ≡ spec.params_if (slice_get program.now.functions function) }
{
    match program.functions.as_slice().get(function as usize) {
        Some(function) => function.params.as_slice(),
        None => &[],
    }
}

// The parameters of the callee of a call that does this.
fn params_of<'a>(speech: &Speech<'a, '_, '_>, effect: Effect) -> &'a [Param]
    ensures { result.now ≡ spec.params_of (speaker_of speech.now) (gathered.meaning effect) }
{
    match effect {
        Effect::Known(n) => params_at(speech.check.program, kept_at(&speech.ground, n)),
        Effect::Operation(_)
        | Effect::Try(_, _)
        | Effect::Allocate(_)
        | Effect::Release
        | Effect::Ends
        | Effect::Expect
        | Effect::Unknown => &[],
    }
}

// The summary of that callee.
fn summary_of<'p>(speech: &Speech<'_, 'p, '_>, effect: Effect) -> Option<&'p Summary>
    ensures { option_copied result ≡ spec.summary_of (speaker_of speech.now) (gathered.meaning effect) }
{
    match effect {
        Effect::Known(n) => speech.ground.summary(n),
        Effect::Operation(_)
        | Effect::Try(_, _)
        | Effect::Allocate(_)
        | Effect::Release
        | Effect::Ends
        | Effect::Expect
        | Effect::Unknown => None,
    }
}

// The items of a summary, if there is one.
fn items_of(summary: Option<&Summary>) -> &[ItemRows]
    ensures { result.now ≡ spec.items_if (option_copied summary.entry) }
{
    match summary {
        Some(summary) => summary.items.as_slice(),
        None => &[],
    }
}

// Its written cells.
fn writes_of(summary: Option<&Summary>) -> &[Write]
    ensures { result.now ≡ spec.writes_if (option_copied summary.entry) }
{
    match summary {
        Some(summary) => summary.writes.as_slice(),
        None => &[],
    }
}

// The end of the callee.
fn put_end(text: &mut JsonText) -> Result<(), OutOfMemory>
    ensures { OnOk result ((more : Members) → text.new ++ members_tokens more ≡ text.old ++ members_tokens (spec.end_members more)) }
{
    text.word_member("item", "end")
}

// A location of the callee.
fn put_state(
    text: &mut JsonText,
    speech: &Speech,
    params: &[Param],
    path: &Path,
) -> Result<(), OutOfMemory>
    ensures { OnOk result ((more : Members) → text.new ++ members_tokens more
        ≡ text.old ++ members_tokens (spec.state_members (speaker_of speech.now) params.now path.now more)) }
{
    text.word_member("item", "state")?;
    text.key("path")?;
    put_path(text, speech.check, params, path)?;
    Ok(())
}

// What a parameter of the callee points to.
fn put_parameter(
    text: &mut JsonText,
    speech: &Speech,
    params: &[Param],
    word: &str,
    n: u32,
) -> Result<(), OutOfMemory>
    ensures { OnOk result ((more : Members) → text.new ++ members_tokens more
        ≡ text.old ++ members_tokens (spec.parameter_members (speaker_of speech.now) params.now word.now n more)) }
{
    text.word_member("item", word)?;
    text.count_member("parameter", u64::from(n))?;
    text.word_member("name", param_text(speech.check.program, params, n))?;
    Ok(())
}

fn put_item(
    text: &mut JsonText,
    speech: &Speech,
    params: &[Param],
    item: &Item,
) -> Result<(), OutOfMemory>
    ensures { OnOk result ((more : Members) → text.new ++ members_tokens more
        ≡ text.old ++ members_tokens (spec.item_members (speaker_of speech.now) params.now item.now more)) }
{
    match item {
        Item::Exit => put_end(text),
        Item::Lock(path) => put_state(text, speech, params, path),
        Item::Param(n) => put_parameter(text, speech, params, "object", *n),
        Item::Out(n) => put_parameter(text, speech, params, "pointer", *n),
    }
}

fn put_write(
    text: &mut JsonText,
    speech: &Speech,
    params: &[Param],
    write: &Write,
) -> Result<(), OutOfMemory>
    ensures { OnOk result ((more : Members) → text.new ++ members_tokens more
        ≡ text.old ++ members_tokens (spec.write_members (speaker_of speech.now) params.now write.now more)) }
{
    text.key("path")?;
    put_path(text, speech.check, params, &write.path)
}

/// Puts the members of the item with that number of the callee's summary; nothing where there is none.
pub(crate) fn put_item_at(
    text: &mut JsonText,
    speech: &Speech,
    effect: Effect,
    number: usize,
) -> Result<(), OutOfMemory>
    ensures { OnOk result ((more : Members) → text.new ++ members_tokens more
        ≡ text.old ++ members_tokens (spec.item_at (speaker_of speech.now) (gathered.meaning effect) number more)) }
{
    match items_of(summary_of(speech, effect)).get(number) {
        Some(item) => put_item(text, speech, params_of(speech, effect), &item.item),
        None => Ok(()),
    }
}

/// Puts the path of the written cell with that number of the callee's summary; nothing where there is none.
pub(crate) fn put_write_at(
    text: &mut JsonText,
    speech: &Speech,
    effect: Effect,
    number: usize,
) -> Result<(), OutOfMemory>
    ensures { OnOk result ((more : Members) → text.new ++ members_tokens more
        ≡ text.old ++ members_tokens (spec.write_at (speaker_of speech.now) (gathered.meaning effect) number more)) }
{
    match writes_of(summary_of(speech, effect)).get(number) {
        Some(write) => put_write(text, speech, params_of(speech, effect), write),
        None => Ok(()),
    }
}
