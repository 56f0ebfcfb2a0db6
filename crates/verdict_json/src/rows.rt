// Rows, items and written cells of a summary.

ghost use Rattle.std.specs.Prelude.{◌≡◌, ◌∷◌, ◌++◌, OnOk};
ghost use Rattle.std.specs.List.{flat_map};
ghost use Rattle.json.specs.Token.{key};
ghost use Rattle.json.specs.Tree.{json_tokens};
ghost use Rattle.json_places.specs.Arrays.{array_by};
ghost use Rattle.verdict_json.specs.Rows as spec;

use fsm_spec::MachineSpec;
use json_places::{Check, put_path};
use json_text::JsonText;
use report_text::{machine_state, param_text};
use sc_base::OutOfMemory;
use sc_typed::Param;
use sum_rows::{Gives, Item, ItemRows, Path, Row, State, Write};

// The entry bits, the highest first.
fn put_bits(text: &mut JsonText, digits: u8, given: u8) -> Result<(), OutOfMemory>
    ensures { OnOk result (text.new ≡ text.old ++ flat_map json_tokens (spec.bits_values digits given)) }
{
    if digits == 0 {
        return Ok(());
    }
    put_bits(text, digits - 1, given / 2)?;
    text.boolean(given % 2 == 1)?;
    Ok(())
}

fn put_entry(text: &mut JsonText, digits: u8, given: u8) -> Result<(), OutOfMemory>
    ensures { OnOk result (text.new ≡ text.old ++ json_tokens (spec.entry_value digits given)) }
{
    text.begin_array()?;
    put_bits(text, digits, given)?;
    text.end_array()?;
    Ok(())
}

#[tactic(auto, unfolding(crate::specs::Rows::named_state))]
fn put_named_state(text: &mut JsonText, name: &str) -> Result<(), OutOfMemory>
    ensures { OnOk result (text.new ≡ text.old ++ json_tokens (spec.named_state name.now)) }
{
    text.begin_object()?;
    text.word_member("state", name)?;
    text.end_object()
}

fn put_state(
    text: &mut JsonText,
    machine: &Option<MachineSpec>,
    state: State,
) -> Result<(), OutOfMemory>
    ensures { OnOk result (text.new ≡ text.old ++ json_tokens (spec.state_value machine.now state)) }
{
    match state {
        State::Nil => text.null(),
        State::At(n) => put_named_state(text, machine_state(machine, n)),
        State::Bad => text.string("error"),
        State::Held => text.string("held"),
        State::Escaped => text.string("escaped"),
        State::Freed => text.string("freed"),
        State::Null => text.string("null"),
        State::Fresh => text.string("fresh"),
        State::Other => text.string("other"),
        State::Same => text.string("same"),
    }
}

fn result_word(gives: Gives) -> &'static str
    ensures { result.now ≡ spec.result_word gives }
{
    match gives {
        Gives::Nothing => "none",
        Gives::Zero => "zero",
        Gives::NotZero => "nonzero",
    }
}

// A member that is a state.
fn put_state_member(
    text: &mut JsonText,
    name: &str,
    machine: &Option<MachineSpec>,
    state: State,
) -> Result<(), OutOfMemory>
    ensures { OnOk result (text.new ≡ text.old ++ key name.now ∷ json_tokens (spec.state_value machine.now state)) }
{
    text.key(name)?;
    put_state(text, machine, state)
}

fn put_row(
    text: &mut JsonText,
    machine: &Option<MachineSpec>,
    bits: u8,
    row: Row,
) -> Result<(), OutOfMemory>
    ensures { OnOk result (text.new ≡ text.old ++ json_tokens (spec.row_value machine.now bits row)) }
{
    text.begin_object()?;
    text.key("entry")?;
    put_entry(text, bits, row.given)?;
    put_state_member(text, "before", machine, row.before)?;
    text.word_member("result", result_word(row.result))?;
    put_state_member(text, "after", machine, row.after)?;
    text.end_object()?;
    Ok(())
}

fn put_rows(
    text: &mut JsonText,
    machine: &Option<MachineSpec>,
    bits: u8,
    rows: &[Row],
) -> Result<(), OutOfMemory>
    ensures { OnOk result (text.new ≡ text.old ++ json_tokens (array_by (spec.row_value machine.now bits) rows.now)) }
{
    text.begin_array()?;
    for row in rows {
        put_row(text, machine, bits, *row)?;
    }
    text.end_array()?;
    Ok(())
}

// The end of the function.
fn put_end(text: &mut JsonText, check: &Check, bits: u8, rows: &[Row]) -> Result<(), OutOfMemory>
    ensures { OnOk result (text.new ≡ text.old ++ json_tokens (spec.end_value check.now.program.now bits rows.now)) }
{
    text.begin_object()?;
    text.word_member("item", "end")?;
    text.key("rows")?;
    put_rows(text, &check.program.machine, bits, rows)?;
    text.end_object()?;
    Ok(())
}

// The states of a location.
fn put_location(
    text: &mut JsonText,
    check: &Check,
    params: &[Param],
    bits: u8,
    path: &Path,
    rows: &[Row],
) -> Result<(), OutOfMemory>
    ensures { OnOk result (text.new ≡ text.old
        ++ json_tokens (spec.location_value check.now.program.now params.now bits path.now rows.now)) }
{
    text.begin_object()?;
    text.word_member("item", "state")?;
    text.key("path")?;
    put_path(text, check, params, path)?;
    text.key("rows")?;
    put_rows(text, &check.program.machine, bits, rows)?;
    text.end_object()?;
    Ok(())
}

// The members in front of the rows of what a parameter points to.
fn begin_parameter(
    text: &mut JsonText,
    check: &Check,
    params: &[Param],
    word: &str,
    n: u32,
) -> Result<(), OutOfMemory>
    ensures { OnOk result (text.new ≡ text.old ++ spec.parameter_head check.now.program.now params.now word.now n) }
{
    text.begin_object()?;
    text.word_member("item", word)?;
    text.count_member("parameter", u64::from(n))?;
    text.word_member("name", param_text(check.program, params, n))?;
    Ok(())
}

// What the parameter with that number points to.
fn put_parameter_item(
    text: &mut JsonText,
    check: &Check,
    params: &[Param],
    word: &str,
    bits: u8,
    n: u32,
    rows: &[Row],
) -> Result<(), OutOfMemory>
    ensures { OnOk result (text.new ≡ text.old
        ++ json_tokens (spec.parameter_item check.now.program.now params.now word.now bits n rows.now)) }
{
    begin_parameter(text, check, params, word, n)?;
    text.key("rows")?;
    put_rows(text, &check.program.machine, bits, rows)?;
    text.end_object()?;
    Ok(())
}

fn put_item(
    text: &mut JsonText,
    check: &Check,
    params: &[Param],
    bits: u8,
    item: &ItemRows,
) -> Result<(), OutOfMemory>
    ensures { OnOk result (text.new ≡ text.old
        ++ json_tokens (spec.item_value check.now.program.now params.now bits item.now)) }
{
    let rows = item.rows.as_slice();
    match &item.item {
        Item::Exit => put_end(text, check, bits, rows),
        Item::Lock(path) => put_location(text, check, params, bits, path, rows),
        Item::Param(n) => put_parameter_item(text, check, params, "object", bits, *n, rows),
        Item::Out(n) => put_parameter_item(text, check, params, "pointer", bits, *n, rows),
    }
}

/// Puts the items of a summary in brackets.
pub(crate) fn put_items(
    text: &mut JsonText,
    check: &Check,
    params: &[Param],
    bits: u8,
    items: &[ItemRows],
) -> Result<(), OutOfMemory>
    ensures { OnOk result (text.new ≡ text.old
        ++ json_tokens (array_by (spec.item_value check.now.program.now params.now bits) items.now)) }
{
    text.begin_array()?;
    for item in items {
        put_item(text, check, params, bits, item)?;
    }
    text.end_array()?;
    Ok(())
}

fn put_write(
    text: &mut JsonText,
    check: &Check,
    params: &[Param],
    write: &Write,
) -> Result<(), OutOfMemory>
    ensures { OnOk result (text.new ≡ text.old
        ++ json_tokens (spec.write_value check.now.program.now params.now write.now)) }
{
    text.begin_object()?;
    text.key("path")?;
    put_path(text, check, params, &write.path)?;
    text.count_member("width", u64::from(write.width))?;
    text.end_object()?;
    Ok(())
}

/// Puts the written cells of a summary in brackets.
pub(crate) fn put_writes(
    text: &mut JsonText,
    check: &Check,
    params: &[Param],
    writes: &[Write],
) -> Result<(), OutOfMemory>
    ensures { OnOk result (text.new ≡ text.old
        ++ json_tokens (array_by (spec.write_value check.now.program.now params.now) writes.now)) }
{
    text.begin_array()?;
    for write in writes {
        put_write(text, check, params, write)?;
    }
    text.end_array()?;
    Ok(())
}
