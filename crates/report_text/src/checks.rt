//! The text of a whole check.

ghost use Rattle.std.specs.Prelude.{◌≡◌, ◌++◌, OnOk, IfOk, length, map, sum_by, ◌+◌};
ghost use Rattle.std.specs.List.{flat_map};
ghost use Rattle.std.specs.Arc.{arc_value};
ghost use Rattle.report_text.specs.Reasons.{note_text};
ghost use Rattle.sum_rows.specs.declared.row.ItemRows.{ItemRows};
ghost use Rattle.report_text.specs.Checks as spec;

use crate::functions::put_function;
use crate::put::{put, put_number};
use crate::reasons::put_note;
use sc_base::{OutOfMemory, RowList, Skip};
use sc_typed::{Function, Program};
use std::alloc::Global;
use std::sync::Arc;
use sum_rows::{Summary, Verdict};

fn put_notes(out: &mut Vec<u8>, program: &Program, notes: &[Skip]) -> Result<(), OutOfMemory>
    ensures { OnOk result (out.new.items ≡ out.old.items ++ flat_map (note_text program.now) notes.now) }
{
    for note in notes {
        put_note(out, program, *note)?;
    }
    Ok(())
}

fn put_functions(
    out: &mut Vec<u8>,
    alloc: Global,
    program: &Program,
    functions: &[Function],
    verdicts: &[Arc<Verdict>],
) -> Result<(), OutOfMemory>
    ensures { OnOk result (out.new.items ≡ out.old.items ++ spec.functions_text program.now functions.now (map arc_value verdicts.now)) }
{
    let mut rest = verdicts;
    for function in functions {
        let Some((verdict, more)) = rest.split_first() else {
            return Ok(());
        };
        put_function(out, alloc, program, function, verdict)?;
        rest = more;
    }
    Ok(())
}

/// How many functions are skipped, and how many rows and reports the others have.
#[derive(Clone, Copy)]
pub struct Totals {
    pub skipped: usize,
    pub rows: usize,
    pub reports: usize,
}

/// A sum; memory could not hold what it counts where it does not fit.
fn sum(a: usize, b: usize) -> Result<usize, OutOfMemory>
    ensures { IfOk result (λ n. n ≡ a + b) }
{
    a.checked_add(b).ok_or(OutOfMemory)
}

fn rows_of(summary: &Summary) -> Result<usize, OutOfMemory>
    ensures { IfOk result (λ n. n ≡ sum_by (λ (x : ItemRows). length x.rows) summary.now.items) }
{
    let mut rows = 0;
    for item in summary.items.as_slice() {
        rows = sum(rows, item.rows.len())?;
    }
    Ok(rows)
}

fn with_verdict(totals: Totals, verdict: &Verdict) -> Result<Totals, OutOfMemory>
    ensures skipped { IfOk result (λ t. t.skipped ≡ totals.skipped + spec.skipped_in verdict.now) }
    ensures rows { IfOk result (λ t. t.rows ≡ totals.rows + spec.rows_in verdict.now) }
    ensures reports { IfOk result (λ t. t.reports ≡ totals.reports + spec.reports_in verdict.now) }
{
    match verdict {
        Verdict::Skipped(_) => Ok(Totals {
            skipped: sum(totals.skipped, 1)?,
            rows: totals.rows,
            reports: totals.reports,
        }),
        Verdict::Done(summary, reports) => Ok(Totals {
            skipped: totals.skipped,
            rows: sum(totals.rows, rows_of(summary)?)?,
            reports: sum(totals.reports, reports.len())?,
        }),
    }
}

pub fn totals_of(verdicts: &[Arc<Verdict>]) -> Result<Totals, OutOfMemory>
    ensures skipped { IfOk result (λ t. t.skipped ≡ sum_by spec.skipped_in (map arc_value verdicts.now)) }
    ensures rows { IfOk result (λ t. t.rows ≡ sum_by spec.rows_in (map arc_value verdicts.now)) }
    ensures reports { IfOk result (λ t. t.reports ≡ sum_by spec.reports_in (map arc_value verdicts.now)) }
{
    let mut totals = Totals {
        skipped: 0,
        rows: 0,
        reports: 0,
    };
    for verdict in verdicts {
        totals = with_verdict(totals, verdict)?;
    }
    Ok(totals)
}

/// Puts a word, and behind it a number.
#[tactic(auto, unfolding(crate::specs::Checks::counted))]
fn put_count(out: &mut Vec<u8>, word: &[u8], n: usize) -> Result<(), OutOfMemory>
    ensures { OnOk result (out.new.items ≡ out.old.items ++ spec.counted word.now n) }
{
    put(out, word)?;
    put_number(out, n)
}

#[tactic(auto, unfolding(crate::specs::Checks::total_line))]
fn put_totals(out: &mut Vec<u8>, functions: usize, totals: &Totals) -> Result<(), OutOfMemory>
    ensures { OnOk result (out.new.items ≡ out.old.items ++ spec.total_line functions totals.now.skipped totals.now.rows totals.now.reports) }
{
    put_count(out, b"total functions ", functions)?;
    put_count(out, b" skipped ", totals.skipped)?;
    put_count(out, b" rows ", totals.rows)?;
    put_count(out, b" reports ", totals.reports)?;
    put(out, b"\n")
}

/// The text of a whole check: a line for each note; each function with its verdict, which stands at the function's
/// place in `verdicts`; and a last line of totals.
pub fn text(
    alloc: Global,
    program: &Program,
    verdicts: &RowList<Verdict>,
) -> Result<Vec<u8>, OutOfMemory>
    ensures { IfOk result (λ t. t.items ≡ spec.text program.now (map arc_value verdicts.now.list.items)) }
{
    let mut out = Vec::new(alloc);
    let verdicts = verdicts.list.as_slice();
    put_notes(&mut out, program, program.notes.as_slice())?;
    put_functions(
        &mut out,
        alloc,
        program,
        program.functions.as_slice(),
        verdicts,
    )?;
    put_totals(&mut out, verdicts.len(), &totals_of(verdicts)?)?;
    Ok(out)
}
