// What is counted of verdicts.

ghost use Rattle.std.specs.Prelude.{◌≡◌, ◌+◌, IfOk, IfSome, length, map, sum_by};
ghost use Rattle.std.specs.Arc.{arc_value};
ghost use Rattle.sum_rows.specs.declared.row.ItemRows.{ItemRows};
ghost use Rattle.report_text.specs.Checks.{skipped_in, rows_in};
ghost use Rattle.check_counts.specs.Counts as spec;

use sc_base::OutOfMemory;
use std::sync::Arc;
use sum_rows::{ItemRows, Report, Verdict};

/// How many reports of each kind there are.
#[derive(Clone, Copy, Debug, PartialEq, Eq)]
pub struct Kinds {
    pub double: usize,
    pub ambiguous: usize,
    pub inner: usize,
    pub leak: usize,
}

/// What is counted of the verdicts of a program.
#[derive(Clone, Copy, Debug, PartialEq, Eq)]
pub struct Counts {
    /// How many functions have a verdict.
    pub functions: usize,
    /// How many of them are skipped.
    pub skipped: usize,
    /// How many rows the others have.
    pub rows: usize,
    /// How many reports they have.
    pub reports: Kinds,
}

// The counts with one report more. None where a count does not fit.
fn with_report(kinds: Kinds, report: &Report) -> Option<Kinds>
    ensures double { IfSome result (λ k. k.double ≡ kinds.double + spec.doubles_in report.now) }
    ensures ambiguous { IfSome result (λ k. k.ambiguous ≡ kinds.ambiguous + spec.ambiguous_in report.now) }
    ensures inner { IfSome result (λ k. k.inner ≡ kinds.inner + spec.inner_in report.now) }
    ensures leak { IfSome result (λ k. k.leak ≡ kinds.leak + spec.leaks_in report.now) }
{
    let mut more = kinds;
    match report {
        Report::Double(..) => more.double = kinds.double.checked_add(1)?,
        Report::Ambiguous(..) => more.ambiguous = kinds.ambiguous.checked_add(1)?,
        Report::Inner(..) => more.inner = kinds.inner.checked_add(1)?,
        Report::Leak(..) => more.leak = kinds.leak.checked_add(1)?,
    }
    Some(more)
}

// The counts with these reports more. None where a count does not fit.
fn with_reports(kinds: Kinds, reports: &[Report]) -> Option<Kinds>
    ensures double { IfSome result (λ k. k.double ≡ kinds.double + sum_by spec.doubles_in reports.now) }
    ensures ambiguous { IfSome result (λ k. k.ambiguous ≡ kinds.ambiguous + sum_by spec.ambiguous_in reports.now) }
    ensures inner { IfSome result (λ k. k.inner ≡ kinds.inner + sum_by spec.inner_in reports.now) }
    ensures leak { IfSome result (λ k. k.leak ≡ kinds.leak + sum_by spec.leaks_in reports.now) }
{
    let mut more = kinds;
    for report in reports {
        more = with_report(more, report)?;
    }
    Some(more)
}

// The count with the rows of these items more. None where it does not fit.
fn with_rows(rows: usize, items: &[ItemRows]) -> Option<usize>
    ensures { IfSome result (λ n. n ≡ rows + sum_by (λ (x : ItemRows). length x.rows) items.now) }
{
    let mut more = rows;
    for item in items {
        more = more.checked_add(item.rows.len())?;
    }
    Some(more)
}

// The counts with one verdict more. None where a count does not fit.
fn with_verdict(counts: Counts, verdict: &Verdict) -> Option<Counts>
    ensures functions { IfSome result (λ c. c.functions ≡ counts.functions) }
    ensures skipped { IfSome result (λ c. c.skipped ≡ counts.skipped + skipped_in verdict.now) }
    ensures rows { IfSome result (λ c. c.rows ≡ counts.rows + rows_in verdict.now) }
    ensures double { IfSome result (λ c. c.reports.double ≡ counts.reports.double + spec.reports_by spec.doubles_in verdict.now) }
    ensures ambiguous { IfSome result (λ c. c.reports.ambiguous ≡ counts.reports.ambiguous + spec.reports_by spec.ambiguous_in verdict.now) }
    ensures inner { IfSome result (λ c. c.reports.inner ≡ counts.reports.inner + spec.reports_by spec.inner_in verdict.now) }
    ensures leak { IfSome result (λ c. c.reports.leak ≡ counts.reports.leak + spec.reports_by spec.leaks_in verdict.now) }
{
    match verdict {
        Verdict::Skipped(_) => Some(Counts {
            functions: counts.functions,
            skipped: counts.skipped.checked_add(1)?,
            rows: counts.rows,
            reports: counts.reports,
        }),
        Verdict::Done(summary, reports) => Some(Counts {
            functions: counts.functions,
            skipped: counts.skipped,
            rows: with_rows(counts.rows, summary.items.as_slice())?,
            reports: with_reports(counts.reports, reports.as_slice())?,
        }),
    }
}

// The counts of these verdicts. None where one does not fit.
fn counted(verdicts: &[Arc<Verdict>]) -> Option<Counts>
    ensures { IfSome result (λ c. c ≡ spec.counts_of (map arc_value verdicts.now)) }
{
    let mut counts = Counts {
        functions: verdicts.len(),
        skipped: 0,
        rows: 0,
        reports: Kinds {
            double: 0,
            ambiguous: 0,
            inner: 0,
            leak: 0,
        },
    };
    for verdict in verdicts {
        counts = with_verdict(counts, verdict)?;
    }
    Some(counts)
}

/// The counts of these verdicts, in one pass.
///
/// # Errors
///
/// `OutOfMemory` where a count does not fit: memory could not hold what it counts.
pub fn count(verdicts: &[Arc<Verdict>]) -> Result<Counts, OutOfMemory>
    ensures { IfOk result (λ c. c ≡ spec.counts_of (map arc_value verdicts.now)) }
{
    counted(verdicts).ok_or(OutOfMemory)
}
