//! Reports: a line, and the runs that show it.

ghost use Rattle.std.specs.Prelude.{◌≡◌, ◌++◌, OnOk, codes};
ghost use Rattle.std.specs.List.{flat_map};
ghost use Rattle.sc_world.specs.Paths.{place_text};
ghost use Rattle.report_text.specs.Paths.{path_text};
ghost use Rattle.report_text.specs.Shown.{shown_text};
ghost use Rattle.report_text.specs.Reports as spec;

use crate::paths::put_path;
use crate::put::{put, put_place};
use crate::shown::put_shown;
use sc_base::{OutOfMemory, Pos};
use sc_typed::{Param, Program};
use std::alloc::Global;
use sum_rows::{Path, Report, Shown};

/// Puts the line of a report on a path.
#[tactic(auto, unfolding(crate::specs::Reports::report_line))]
fn put_path_line(
    out: &mut Vec<u8>,
    alloc: Global,
    program: &Program,
    params: &[Param],
    kind: &[u8],
    path: &Path,
) -> Result<(), OutOfMemory>
    ensures { OnOk result (out.new.items ≡ out.old.items ++ spec.report_line kind.now (path_text program.now params.now path.now)) }
{
    put(out, b"  report ")?;
    put(out, kind)?;
    put(out, b" ")?;
    put_path(out, alloc, program, params, path)?;
    put(out, b"\n")
}

/// Puts the line of a report on a location that the caller does not know.
#[tactic(auto, unfolding(crate::specs::Reports::report_line))]
fn put_location_line(out: &mut Vec<u8>, kind: &[u8], location: &[u8]) -> Result<(), OutOfMemory>
    ensures { OnOk result (out.new.items ≡ out.old.items ++ spec.report_line kind.now location.now) }
{
    put(out, b"  report ")?;
    put(out, kind)?;
    put(out, b" ")?;
    put(out, location)?;
    put(out, b"\n")
}

/// Puts the line of a report on an object of the call at that place.
#[tactic(auto, unfolding(crate::specs::Reports::report_line))]
fn put_leak_line(out: &mut Vec<u8>, at: Pos) -> Result<(), OutOfMemory>
    ensures { OnOk result (out.new.items ≡ out.old.items ++ spec.report_line (codes "leak") (place_text at)) }
{
    put(out, b"  report ")?;
    put(out, b"leak")?;
    put(out, b" ")?;
    put_place(out, at)?;
    put(out, b"\n")
}

/// Puts runs that are shown.
fn put_runs(out: &mut Vec<u8>, program: &Program, runs: &[Shown]) -> Result<(), OutOfMemory>
    ensures { OnOk result (out.new.items ≡ out.old.items ++ flat_map (shown_text program.now) runs.now) }
{
    for run in runs {
        put_shown(out, program, run)?;
    }
    Ok(())
}

/// Puts a report of the function with these parameters.
pub(crate) fn put_report(
    out: &mut Vec<u8>,
    alloc: Global,
    program: &Program,
    params: &[Param],
    report: &Report,
) -> Result<(), OutOfMemory>
    ensures { OnOk result (out.new.items ≡ out.old.items ++ spec.report_text program.now params.now report.now) }
{
    match report {
        Report::Double(path, runs) => {
            put_path_line(out, alloc, program, params, b"double", path)?;
            put_runs(out, program, runs.as_slice())
        }
        Report::Ambiguous(path, one, other) => {
            put_path_line(out, alloc, program, params, b"ambiguous", path)?;
            put_shown(out, program, one)?;
            put_shown(out, program, other)
        }
        Report::Inner(run) => {
            put_location_line(out, b"inner", run.text.as_slice())?;
            put_shown(out, program, run)
        }
        Report::Leak(at, run) => {
            put_leak_line(out, *at)?;
            put_shown(out, program, run)
        }
    }
}
