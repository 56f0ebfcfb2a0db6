// The JSON of a whole check.

ghost use Rattle.std.specs.Prelude.{◌≡◌, ◌≤◌, ◌+◌, ◌++◌, OnOk, IfOk, Some, length, map, sum_by};
ghost use Rattle.std.specs.Arc.{arc_value};
ghost use Rattle.std.specs.List.{flat_map, range_with_len};
ghost use Rattle.std.specs.Str.{IsUtf8};
ghost use Rattle.json.specs.Json.{document};
ghost use Rattle.json.specs.Print.{print};
ghost use Rattle.json.specs.Tree.{json_tokens, members_tokens};
ghost use Rattle.json_places.specs.Arrays.{array_by};
ghost use Rattle.verdict_json.specs.Checks as spec;
ghost use Rattle.verdict_json.specs.Tellings.{says_among};

use crate::functions::put_function;
use crate::reasons::put_notes;
use crate::tellings::All;
use fsm_spec::MachineSpec;
use json_places::{Check, main_source};
use json_text::JsonText;
use plan_core::Plan;
use report_text::{Totals, file_text, machine_state, machine_word, totals_of};
use sc_base::{OutOfMemory, RowList};
use sc_tree::ctype::Widths;
use sc_typed::Function;
use std::sync::Arc;
use sum_rows::Verdict;

fn model_word(widths: Widths) -> &'static str
    ensures { result.now ≡ spec.model_word widths }
{
    match widths {
        Widths::Ilp32 => "ilp32",
        Widths::Lp64 => "lp64",
    }
}

// How many states the machine has.
fn count_of_states(machine: &Option<MachineSpec>) -> usize
    ensures { result ≡ spec.count_of_states machine.now }
{
    match machine {
        Some(machine) => machine.states(),
        None => 2,
    }
}

// A number of 32 bits.
fn number(n: usize) -> Result<u32, OutOfMemory>
    ensures { IfOk result (λ k. k ≡ n) }
{
    match u32::try_from(n) {
        Ok(k) => Ok(k),
        Err(_) => Err(OutOfMemory),
    }
}

// The next number.
fn next(n: u32) -> Result<u32, OutOfMemory>
    ensures { IfOk result (λ m. m ≡ n + 1) }
{
    n.checked_add(1).ok_or(OutOfMemory)
}

// The name of the state with that number.
fn put_state(
    text: &mut JsonText,
    machine: &Option<MachineSpec>,
    state: usize,
) -> Result<(), OutOfMemory>
    ensures { OnOk result (text.new ≡ text.old ++ json_tokens (spec.state_name machine.now state)) }
{
    let state = number(state)?;
    text.string(machine_state(machine, state))
}

// The names of the states in brackets.
fn put_states(text: &mut JsonText, machine: &Option<MachineSpec>) -> Result<(), OutOfMemory>
    ensures { OnOk result (text.new ≡ text.old
        ++ json_tokens (array_by (spec.state_name machine.now) (range_with_len 0 (spec.count_of_states machine.now)))) }
{
    text.begin_array()?;
    for n in 0..count_of_states(machine) {
        put_state(text, machine, n)?;
    }
    text.end_array()?;
    Ok(())
}

/// Puts the options of a check.
///
/// # Errors
///
/// `OutOfMemory` where memory is refused, or a count does not fit its type.
pub fn put_options(text: &mut JsonText, check: &Check) -> Result<(), OutOfMemory>
    ensures { OnOk result (text.new ≡ text.old
        ++ json_tokens (spec.options_value check.now.program.now check.now.depth check.now.reach)) }
{
    text.begin_object()?;
    text.count_member("depth", u64::from(check.depth))?;
    text.count_member("reach", u64::from(check.reach))?;
    text.word_member("model", model_word(check.program.widths))?;
    text.word_member("machine", machine_word(&check.program.machine))?;
    text.key("states")?;
    put_states(text, &check.program.machine)?;
    text.end_object()?;
    Ok(())
}

fn put_file(text: &mut JsonText, check: &Check, file: u32) -> Result<(), OutOfMemory>
    ensures { OnOk result (text.new ≡ text.old
        ++ json_tokens (spec.file_value check.now.program.now check.now.marks.now file)) }
{
    text.begin_object()?;
    text.word_member("name", file_text(check.program, file))?;
    text.bytes_member("source", main_source(check, file))?;
    text.end_object()?;
    Ok(())
}

// The same by a number of any width.
fn put_file_at(text: &mut JsonText, check: &Check, file: usize) -> Result<(), OutOfMemory>
    ensures { OnOk result (text.new ≡ text.old
        ++ json_tokens (spec.file_value check.now.program.now check.now.marks.now file)) }
{
    let file = number(file)?;
    put_file(text, check, file)
}

// The files in brackets.
fn put_files(text: &mut JsonText, check: &Check) -> Result<(), OutOfMemory>
    ensures { OnOk result (text.new ≡ text.old
        ++ json_tokens (array_by (spec.file_value check.now.program.now check.now.marks.now)
        (range_with_len 0 (length check.now.program.now.files)))) }
{
    text.begin_array()?;
    for file in 0..check.program.files.len() {
        put_file_at(text, check, file)?;
    }
    text.end_array()?;
    Ok(())
}

// The functions, each with its verdict.
fn put_each_function(
    text: &mut JsonText,
    all: &All,
    functions: &[Function],
) -> Result<(), OutOfMemory>
    ensures { OnOk result (text.new ≡ text.old
        ++ flat_map json_tokens (spec.functions_values all.now.check.now.program.now all.now.check.now.marks.now (says_among all.now)
        0 functions.now (map arc_value all.now.verdicts.now))) }
{
    let mut rest = all.verdicts;
    let mut count = 0;
    for function in functions {
        let Some((verdict, more)) = rest.split_first() else {
            return Ok(());
        };
        put_function(text, all, count, function, verdict)?;
        count = next(count)?;
        rest = more;
    }
    Ok(())
}

// The same in brackets.
fn put_functions(text: &mut JsonText, all: &All, functions: &[Function]) -> Result<(), OutOfMemory>
    ensures { OnOk result (text.new ≡ text.old
        ++ json_tokens (spec.functions_value all.now.check.now.program.now all.now.check.now.marks.now (says_among all.now)
        functions.now (map arc_value all.now.verdicts.now))) }
{
    text.begin_array()?;
    put_each_function(text, all, functions)?;
    text.end_array()?;
    Ok(())
}

fn put_totals(text: &mut JsonText, functions: usize, totals: &Totals) -> Result<(), OutOfMemory>
    ensures { OnOk result (text.new ≡ text.old
        ++ json_tokens (spec.totals_value functions totals.now.skipped totals.now.rows totals.now.reports)) }
{
    text.begin_object()?;
    text.count_member("functions", functions as u64)?;
    text.count_member("skipped", totals.skipped as u64)?;
    text.count_member("rows", totals.rows as u64)?;
    text.count_member("reports", totals.reports as u64)?;
    text.end_object()?;
    Ok(())
}

// The totals of these verdicts.
fn put_totals_of(text: &mut JsonText, verdicts: &[Arc<Verdict>]) -> Result<(), OutOfMemory>
    ensures { OnOk result (text.new ≡ text.old ++ json_tokens (spec.totals_of (map arc_value verdicts.now))) }
{
    let totals = totals_of(verdicts)?;
    put_totals(text, verdicts.len(), &totals)?;
    Ok(())
}

// What is found out, and the closing bracket.
fn end_found(text: &mut JsonText, all: &All) -> Result<(), OutOfMemory>
    ensures { OnOk result (text.new ≡ text.old
        ++ members_tokens (spec.found_members all.now.check.now.program.now all.now.check.now.marks.now (says_among all.now)
        (map arc_value all.now.verdicts.now))) }
{
    let program = all.check.program;
    text.key("notes")?;
    put_notes(text, all.check, program.notes.as_slice())?;
    text.key("functions")?;
    put_functions(text, all, program.functions.as_slice())?;
    text.key("totals")?;
    put_totals_of(text, all.verdicts)?;
    text.end_object()?;
    Ok(())
}

// The form and its number, with the opening bracket.
fn begin(text: &mut JsonText) -> Result<(), OutOfMemory>
    ensures { OnOk result (text.new ≡ text.old ++ spec.first_tokens) }
{
    text.begin_object()?;
    text.word_member("format", "nalvegop verdicts")?;
    text.count_member("version", 1)?;
    Ok(())
}

fn put_check(text: &mut JsonText, all: &All) -> Result<(), OutOfMemory>
    ensures { OnOk result (text.new ≡ text.old
        ++ json_tokens (spec.check_value all.now.check.now.program.now all.now.check.now.marks.now all.now.check.now.depth
        all.now.check.now.reach all.now.plan.now.callees (map arc_value all.now.verdicts.now))) }
{
    let check = all.check;
    begin(text)?;
    text.key("options")?;
    put_options(text, check)?;
    text.key("files")?;
    put_files(text, check)?;
    end_found(text, all)?;
    Ok(())
}

/// The JSON of a whole check: a text (RFC 8259) that is read as the value which is defined. A verdict belongs to the function
/// at its place in the program, and the plan has the kept callees of each function.
///
/// # Errors
///
/// `OutOfMemory` where memory is refused, or a count does not fit its type.
pub fn check_json(
    check: &Check,
    plan: &Plan,
    verdicts: &RowList<Verdict>,
) -> Result<Vec<u8>, OutOfMemory>
    ensures bytes { IfOk result (λ bytes. bytes.items ≡ print (json_tokens (spec.check_value check.now.program.now
        check.now.marks.now check.now.depth check.now.reach plan.now.callees (map arc_value verdicts.now.list.items)))) }
    ensures utf8 { IfOk result (λ bytes. IsUtf8 bytes.items) }
    ensures value { IfOk result (λ bytes. document bytes.items ≡ Some (spec.check_value check.now.program.now
        check.now.marks.now check.now.depth check.now.reach plan.now.callees (map arc_value verdicts.now.list.items))) }
{
    let mut text = JsonText::new(check.alloc);
    let all = All {
        check,
        plan,
        verdicts: verdicts.list.as_slice(),
    };
    put_check(&mut text, &all)?;
    Ok(text.into_bytes())
}
