//! Rows and items of a summary.

ghost use Rattle.std.specs.Prelude.{◌≡◌, ◌++◌, OnOk};
ghost use Rattle.report_text.specs.Rows as spec;

use crate::names::param_text;
use crate::paths::put_path;
use crate::put::put;
use fsm_spec::MachineSpec;
use sc_base::OutOfMemory;
use sc_typed::{Param, Program};
use std::alloc::Global;
use sum_rows::{Gives, Item, ItemRows, Path, Row, State};

/// The name of a state of locks.
fn lock_state(n: u32) -> &'static str
    ensures { result.now ≡ spec.lock_state n }
{
    match n {
        0 => "U",
        1 => "L",
        _ => "",
    }
}

/// The name of a state of the machine; of locks where there is none.
pub fn machine_state(machine: &Option<MachineSpec>, n: u32) -> &str
    ensures { result.now ≡ spec.machine_state machine.now n }
{
    match machine {
        None => lock_state(n),
        Some(machine) if (n as usize) < machine.states() => machine.state_name(n as usize),
        Some(_) => "",
    }
}

fn state_text(machine: &Option<MachineSpec>, state: State) -> &str
    ensures { result.now ≡ spec.state_text machine.now state }
{
    match state {
        State::Nil => "",
        State::At(n) => machine_state(machine, n),
        State::Bad => "!",
        State::Held => "held",
        State::Escaped => "escaped",
        State::Freed => "freed",
        State::Null => "null",
        State::Fresh => "fresh",
        State::Other => "other",
        State::Same => "same",
    }
}

/// Puts a state behind a space; nothing where there is none.
fn put_state(
    out: &mut Vec<u8>,
    machine: &Option<MachineSpec>,
    state: State,
) -> Result<(), OutOfMemory>
    ensures { OnOk result (out.new.items ≡ out.old.items ++ spec.spaced_state machine.now state) }
{
    if matches!(state, State::Nil) {
        return Ok(());
    }
    put(out, b" ")?;
    put(out, state_text(machine, state).as_bytes())
}

fn result_text(gives: Gives) -> &'static [u8]
    ensures { result.now ≡ spec.result_text gives }
{
    match gives {
        Gives::Nothing => b"-",
        Gives::Zero => b"0",
        Gives::NotZero => b"1",
    }
}

/// Puts a number in so many binary digits, the highest first.
#[tactic(auto, unfolding(crate::specs::Rows::binary))]
fn put_binary(out: &mut Vec<u8>, digits: u8, n: u8) -> Result<(), OutOfMemory>
    ensures { OnOk result (out.new.items ≡ out.old.items ++ spec.binary digits n) }
{
    if digits == 0 {
        return Ok(());
    }
    put_binary(out, digits - 1, n / 2)?;
    out.push(b'0' + n % 2)?;
    Ok(())
}

/// Puts the entry bits.
fn put_bits(out: &mut Vec<u8>, digits: u8, given: u8) -> Result<(), OutOfMemory>
    ensures { OnOk result (out.new.items ≡ out.old.items ++ spec.bits_text digits given) }
{
    if digits == 0 {
        put(out, b"-")
    } else {
        put_binary(out, digits, given)
    }
}

#[tactic(auto, unfolding(crate::specs::Rows::row_line))]
fn put_row(
    out: &mut Vec<u8>,
    machine: &Option<MachineSpec>,
    bits: u8,
    row: Row,
) -> Result<(), OutOfMemory>
    ensures { OnOk result (out.new.items ≡ out.old.items ++ spec.row_line machine.now bits row) }
{
    put(out, b"    ")?;
    put_bits(out, bits, row.given)?;
    put_state(out, machine, row.before)?;
    put(out, b" -> ")?;
    put(out, result_text(row.result))?;
    put_state(out, machine, row.after)?;
    put(out, b"\n")
}

pub fn machine_word(machine: &Option<MachineSpec>) -> &str
    ensures { result.now ≡ spec.machine_word machine.now }
{
    match machine {
        None => "lock",
        Some(machine) => machine.name(),
    }
}

fn end_line(rows: &[Row]) -> &'static [u8]
    ensures { result.now ≡ spec.end_line rows.now }
{
    if rows.is_empty() {
        b"  exits no\n"
    } else {
        b"  exits\n"
    }
}

#[tactic(auto, unfolding(crate::specs::Rows::lock_line))]
fn put_lock_line(
    out: &mut Vec<u8>,
    alloc: Global,
    program: &Program,
    params: &[Param],
    path: &Path,
) -> Result<(), OutOfMemory>
    ensures { OnOk result (out.new.items ≡ out.old.items ++ spec.lock_line program.now params.now path.now) }
{
    put(out, b"  ")?;
    put(out, machine_word(&program.machine).as_bytes())?;
    put(out, b" ")?;
    put_path(out, alloc, program, params, path)?;
    put(out, b"\n")
}

#[tactic(auto, unfolding(crate::specs::Rows::param_line))]
fn put_param_line(
    out: &mut Vec<u8>,
    program: &Program,
    params: &[Param],
    word: &[u8],
    n: u32,
) -> Result<(), OutOfMemory>
    ensures { OnOk result (out.new.items ≡ out.old.items ++ spec.param_line program.now params.now word.now n) }
{
    put(out, word)?;
    put(out, param_text(program, params, n).as_bytes())?;
    put(out, b"\n")
}

fn put_item_line(
    out: &mut Vec<u8>,
    alloc: Global,
    program: &Program,
    params: &[Param],
    item: &ItemRows,
) -> Result<(), OutOfMemory>
    ensures { OnOk result (out.new.items ≡ out.old.items ++ spec.item_line program.now params.now item.now.item item.now.rows) }
{
    match &item.item {
        Item::Exit => put(out, end_line(item.rows.as_slice())),
        Item::Lock(path) => put_lock_line(out, alloc, program, params, path),
        Item::Param(n) => put_param_line(out, program, params, b"  param ", *n),
        Item::Out(n) => put_param_line(out, program, params, b"  out ", *n),
    }
}

/// Puts an item: its line, and its rows.
#[tactic(auto, unfolding(crate::specs::Rows::item_text))]
pub(crate) fn put_item(
    out: &mut Vec<u8>,
    alloc: Global,
    program: &Program,
    params: &[Param],
    bits: u8,
    item: &ItemRows,
) -> Result<(), OutOfMemory>
    ensures { OnOk result (out.new.items ≡ out.old.items ++ spec.item_text program.now params.now bits item.now) }
{
    put_item_line(out, alloc, program, params, item)?;
    for row in item.rows.as_slice() {
        put_row(out, &program.machine, bits, *row)?;
    }
    Ok(())
}
