//! The text of one function.

ghost use Rattle.std.specs.Prelude.{◌≡◌, ◌+◌, ◌≤◌, ◌++◌, OnOk, IfOk, length};
ghost use Rattle.std.specs.List.{flat_map};
ghost use Rattle.report_text.specs.Functions as spec;
ghost use Rattle.report_text.specs.Reports.{report_text};

use crate::names::{name_text, put_place_in_file};
use crate::paths::put_path;
use crate::put::put;
use crate::reasons::put_reason;
use crate::reports::put_report;
use crate::rows::put_item;
use sc_base::{OutOfMemory, Skip};
use sc_typed::{Function, Param, Program};
use sc_types::is_scalar;
use std::alloc::Global;
use sum_rows::{Report, Summary, Verdict, Write};

/// Puts the name of a parameter if it is one of the entry bits', and gives how many there are then.
fn put_entry_name(
    out: &mut Vec<u8>,
    program: &Program,
    param: &Param,
    before: usize,
) -> Result<usize, OutOfMemory>
    requires { before ≤ 3 }
    ensures name { OnOk result (out.new.items ≡ out.old.items ++ flat_map (spec.spaced_name program.now) (spec.entry_if before param.now)) }
    ensures count { IfOk result (λ n. n ≡ before + length (spec.entry_if before param.now)) }
    ensures few { IfOk result (λ n. n ≤ 3) }
{
    if before < 3 && is_scalar(&param.ctype) {
        put(out, b" ")?;
        put(out, name_text(program, param.name).as_bytes())?;
        Ok(before + 1)
    } else {
        Ok(before)
    }
}

/// Puts the names of the parameters of the entry bits, and gives how many there are.
fn put_names(out: &mut Vec<u8>, program: &Program, params: &[Param]) -> Result<usize, OutOfMemory>
    ensures names { OnOk result (out.new.items ≡ out.old.items ++ flat_map (spec.spaced_name program.now) (spec.entry_params params.now)) }
    ensures count { IfOk result (λ n. n ≡ length (spec.entry_params params.now)) }
{
    let mut count = 0;
    for param in params {
        count = put_entry_name(out, program, param, count)?;
    }
    Ok(count)
}

fn put_entry(out: &mut Vec<u8>, program: &Program, params: &[Param]) -> Result<(), OutOfMemory>
    ensures { OnOk result (out.new.items ≡ out.old.items ++ spec.entry_line program.now params.now) }
{
    put(out, b"  entry")?;
    if put_names(out, program, params)? == 0 {
        put(out, b" -")?;
    }
    put(out, b"\n")
}

#[tactic(auto, unfolding(crate::specs::Functions::write_line))]
fn put_write(
    out: &mut Vec<u8>,
    alloc: Global,
    program: &Program,
    params: &[Param],
    write: &Write,
) -> Result<(), OutOfMemory>
    ensures { OnOk result (out.new.items ≡ out.old.items ++ spec.write_line program.now params.now write.now) }
{
    put(out, b"  writes ")?;
    put_path(out, alloc, program, params, &write.path)?;
    put(out, b"\n")
}

fn put_summary(
    out: &mut Vec<u8>,
    alloc: Global,
    program: &Program,
    params: &[Param],
    summary: &Summary,
) -> Result<(), OutOfMemory>
    ensures { OnOk result (out.new.items ≡ out.old.items ++ spec.summary_text program.now params.now summary.now) }
{
    put_entry(out, program, params)?;
    for item in summary.items.as_slice() {
        put_item(out, alloc, program, params, summary.bits, item)?;
    }
    for write in summary.writes.as_slice() {
        put_write(out, alloc, program, params, write)?;
    }
    Ok(())
}

#[tactic(auto, unfolding(crate::specs::Functions::function_line))]
fn put_function_line(
    out: &mut Vec<u8>,
    program: &Program,
    function: &Function,
) -> Result<(), OutOfMemory>
    ensures { OnOk result (out.new.items ≡ out.old.items ++ spec.function_line program.now function.now) }
{
    put(out, b"function ")?;
    put(out, name_text(program, function.name).as_bytes())?;
    put(out, b" at ")?;
    put_place_in_file(out, program, function.pos)?;
    put(out, b"\n")
}

#[tactic(auto, unfolding(crate::specs::Functions::skipped_line))]
fn put_skipped(out: &mut Vec<u8>, skip: Skip) -> Result<(), OutOfMemory>
    ensures { OnOk result (out.new.items ≡ out.old.items ++ spec.skipped_line skip) }
{
    put(out, b"  skipped ")?;
    put_reason(out, skip)?;
    put(out, b"\n")
}

fn put_reports(
    out: &mut Vec<u8>,
    alloc: Global,
    program: &Program,
    params: &[Param],
    reports: &[Report],
) -> Result<(), OutOfMemory>
    ensures { OnOk result (out.new.items ≡ out.old.items ++ flat_map (report_text program.now params.now) reports.now) }
{
    for report in reports {
        put_report(out, alloc, program, params, report)?;
    }
    Ok(())
}

fn put_verdict(
    out: &mut Vec<u8>,
    alloc: Global,
    program: &Program,
    function: &Function,
    verdict: &Verdict,
) -> Result<(), OutOfMemory>
    ensures { OnOk result (out.new.items ≡ out.old.items ++ spec.verdict_text program.now function.now verdict.now) }
{
    match verdict {
        Verdict::Skipped(skip) => put_skipped(out, *skip),
        Verdict::Done(summary, reports) => {
            let params = function.params.as_slice();
            put_summary(out, alloc, program, params, summary)?;
            put_reports(out, alloc, program, params, reports.as_slice())
        }
    }
}

/// Puts the text of a function with its verdict.
#[tactic(auto, unfolding(crate::specs::Functions::function_text))]
pub(crate) fn put_function(
    out: &mut Vec<u8>,
    alloc: Global,
    program: &Program,
    function: &Function,
    verdict: &Verdict,
) -> Result<(), OutOfMemory>
    ensures { OnOk result (out.new.items ≡ out.old.items ++ spec.function_text program.now function.now verdict.now) }
{
    put_function_line(out, program, function)?;
    put_verdict(out, alloc, program, function, verdict)
}
