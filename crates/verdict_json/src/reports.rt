// Reports, each with the runs that show it.

ghost use Rattle.std.specs.Prelude.{◌≡◌, ◌∷◌, [], ◌++◌, OnOk, codes};
ghost use Rattle.json.specs.Tree.{json_tokens};
ghost use Rattle.json_places.specs.Arrays.{array_by};
ghost use Rattle.verdict_json.specs.Reports as spec;
ghost use Rattle.verdict_json.specs.Tellings.{says_told};

use crate::runs::{put_run, put_runs};
use crate::tellings::Telling;
use json_places::{Check, put_path, put_place};
use json_text::JsonText;
use sc_base::{OutOfMemory, Pos};
use sc_typed::Function;
use sum_rows::{Path, Report, Shown};

// One run in brackets.
fn put_one(
    text: &mut JsonText,
    check: &Check,
    telling: Option<Telling>,
    file: u32,
    run: &Shown,
) -> Result<(), OutOfMemory>
    ensures { OnOk result (text.new ≡ text.old
        ++ json_tokens (spec.runs_value check.now.program.now check.now.marks.now (says_told check.now telling.entry) file (run.now ∷ []))) }
{
    text.begin_array()?;
    put_run(text, check, telling, file, run)?;
    text.end_array()?;
    Ok(())
}

// Two runs in brackets.
fn put_two(
    text: &mut JsonText,
    check: &Check,
    telling: Option<Telling>,
    file: u32,
    one: &Shown,
    other: &Shown,
) -> Result<(), OutOfMemory>
    ensures { OnOk result (text.new ≡ text.old
        ++ json_tokens (spec.runs_value check.now.program.now check.now.marks.now (says_told check.now telling.entry) file (one.now ∷ other.now ∷ []))) }
{
    text.begin_array()?;
    put_run(text, check, telling, file, one)?;
    put_run(text, check, telling, file, other)?;
    text.end_array()?;
    Ok(())
}

// From every state the operation on a location may end in an error.
fn put_double(
    text: &mut JsonText,
    check: &Check,
    telling: Option<Telling>,
    function: &Function,
    path: &Path,
    runs: &[Shown],
) -> Result<(), OutOfMemory>
    ensures { OnOk result (text.new ≡ text.old
        ++ json_tokens (spec.location_report check.now.program.now check.now.marks.now (says_told check.now telling.entry) function.now.pos.file function.now.params
        (codes "double") path.now runs.now)) }
{
    text.begin_object()?;
    text.word_member("kind", "double")?;
    text.key("path")?;
    put_path(text, check, function.params.as_slice(), path)?;
    text.key("runs")?;
    put_runs(text, check, telling, function.pos.file, runs)?;
    text.end_object()?;
    Ok(())
}

// From one state a location may end in two.
fn put_ambiguous(
    text: &mut JsonText,
    check: &Check,
    telling: Option<Telling>,
    function: &Function,
    path: &Path,
    one: &Shown,
    other: &Shown,
) -> Result<(), OutOfMemory>
    ensures { OnOk result (text.new ≡ text.old
        ++ json_tokens (spec.location_report check.now.program.now check.now.marks.now (says_told check.now telling.entry) function.now.pos.file function.now.params
        (codes "ambiguous") path.now (one.now ∷ other.now ∷ []))) }
{
    text.begin_object()?;
    text.word_member("kind", "ambiguous")?;
    text.key("path")?;
    put_path(text, check, function.params.as_slice(), path)?;
    text.key("runs")?;
    put_two(text, check, telling, function.pos.file, one, other)?;
    text.end_object()?;
    Ok(())
}

// An error at a location that the caller does not know.
fn put_inner(
    text: &mut JsonText,
    check: &Check,
    telling: Option<Telling>,
    file: u32,
    run: &Shown,
) -> Result<(), OutOfMemory>
    ensures { OnOk result (text.new ≡ text.old
        ++ json_tokens (spec.inner_report check.now.program.now check.now.marks.now (says_told check.now telling.entry) file run.now)) }
{
    text.begin_object()?;
    text.word_member("kind", "inner")?;
    text.key("runs")?;
    put_one(text, check, telling, file, run)?;
    text.end_object()?;
    Ok(())
}

// An object of the call at a place is lost.
fn put_leak(
    text: &mut JsonText,
    check: &Check,
    telling: Option<Telling>,
    file: u32,
    at: Pos,
    run: &Shown,
) -> Result<(), OutOfMemory>
    ensures { OnOk result (text.new ≡ text.old
        ++ json_tokens (spec.leak_report check.now.program.now check.now.marks.now (says_told check.now telling.entry) file at run.now)) }
{
    text.begin_object()?;
    text.word_member("kind", "leak")?;
    text.key("place")?;
    put_place(text, check, at)?;
    text.key("runs")?;
    put_one(text, check, telling, file, run)?;
    text.end_object()?;
    Ok(())
}

fn put_report(
    text: &mut JsonText,
    check: &Check,
    telling: Option<Telling>,
    function: &Function,
    report: &Report,
) -> Result<(), OutOfMemory>
    ensures { OnOk result (text.new ≡ text.old
        ++ json_tokens (spec.report_value check.now.program.now check.now.marks.now (says_told check.now telling.entry) function.now.pos.file function.now.params
        report.now)) }
{
    let file = function.pos.file;
    match report {
        Report::Double(path, runs) => put_double(
            text,
            check,
            telling,
            function,
            path,
            runs.as_slice(),
        ),
        Report::Ambiguous(path, one, other) => {
            put_ambiguous(text, check, telling, function, path, one, other)
        }
        Report::Inner(run) => put_inner(text, check, telling, file, run),
        Report::Leak(at, run) => put_leak(text, check, telling, file, *at, run),
    }
}

/// Puts the reports of a function in brackets.
pub(crate) fn put_reports(
    text: &mut JsonText,
    check: &Check,
    telling: Option<Telling>,
    function: &Function,
    reports: &[Report],
) -> Result<(), OutOfMemory>
    ensures { OnOk result (text.new ≡ text.old
        ++ json_tokens (array_by (spec.report_value check.now.program.now check.now.marks.now (says_told check.now telling.entry) function.now.pos.file
        function.now.params) reports.now)) }
{
    text.begin_array()?;
    for report in reports {
        put_report(text, check, telling, function, report)?;
    }
    text.end_array()?;
    Ok(())
}
