// What is read to tell the choices of a function.

ghost use Rattle.std.specs.Prelude.{◌≡◌, ◌++◌, IfOk, OnOk, map};
ghost use Rattle.std.specs.Arc.{arc_value};
ghost use Rattle.json.specs.Json.{no_members};
ghost use Rattle.json.specs.Tree.{members_tokens};
ghost use Rattle.plan_core.specs.Graph as plans;
ghost use Rattle.program_verdicts.specs.Verdicts as verdicts;
ghost use Rattle.verdict_json.specs.Tellings as spec;

use choice_json::put_says;
use json_places::Check;
use json_text::JsonText;
use layout_base::Ground;
use location_texts::Texts;
use plan_core::Plan;
use sc_base::{LimitKind, OutOfMemory, Skip};
use std::alloc::Global;
use std::sync::Arc;
use sum_rows::Verdict;
use verdict_copies::copy;

/// What is read to tell the choices of a function: the function with its kept callees, and its layout.
#[derive(Clone, Copy)]
pub struct Telling<'t, 'p, 'm, 'f, 'g> {
    pub ground: Ground<'p, 'm, 'f>,
    pub names: &'t Texts<'p, 'g>,
}

/// The whole check: what is read beside the verdicts, the plan of the functions, and the verdicts.
#[derive(Clone, Copy)]
pub(crate) struct All<'a> {
    pub(crate) check: &'a Check<'a>,
    pub(crate) plan: &'a Plan,
    pub(crate) verdicts: &'a [Arc<Verdict>],
}

/// Puts the last member of a run, which tells its choice, and the closing bracket.
#[tactic(auto, unfolding(crate::specs::Tellings::says_told))]
pub(crate) fn end_told(
    text: &mut JsonText,
    check: &Check,
    telling: Option<Telling>,
    choice: &[bool],
) -> Result<(), OutOfMemory>
    ensures { OnOk result (text.new ≡ text.old
        ++ members_tokens (spec.says_told check.now telling.entry choice.now no_members)) }
{
    if let Some(telling) = telling {
        text.key("says")?;
        put_says(text, check, &telling.ground, telling.names, choice)?;
    }
    text.end_object()
}

/// The kept callees of a function; none of one that is not there.
pub(crate) fn callees(plan: &Plan, function: u32) -> &[u32]
    ensures { result.now ≡ plans.callees plan.now.callees function }
{
    match plan.callees.as_slice().get(function as usize) {
        Some(row) => row.as_slice(),
        None => &[],
    }
}

// What stands for the verdict of a function that is not there.
fn no_verdict() -> Verdict
    ensures { result ≡ verdicts.no_verdict }
{
    Verdict::Skipped(Skip::Limit {
        kind: LimitKind::Functions,
        count: 0,
    })
}

// A copy of the verdict of a function, out of those of all.
fn verdict_at(
    alloc: Global,
    verdicts: &[Arc<Verdict>],
    function: u32,
) -> Result<Verdict, OutOfMemory>
    ensures { IfOk result (λ v. v ≡ spec.verdict_at (map arc_value verdicts.now) function) }
{
    match verdicts.get(function as usize) {
        Some(verdict) => copy(alloc, verdict),
        None => Ok(no_verdict()),
    }
}

/// Copies of the verdicts of these functions, out of those of all.
pub(crate) fn verdicts_of(
    alloc: Global,
    verdicts: &[Arc<Verdict>],
    functions: &[u32],
) -> Result<Vec<Verdict>, OutOfMemory>
    ensures { IfOk result (λ vs. vs.items ≡ map (spec.verdict_at (map arc_value verdicts.now)) functions.now) }
{
    let mut copies = Vec::new(alloc);
    for function in functions {
        copies.push(verdict_at(alloc, verdicts, *function)?)?;
    }
    Ok(copies)
}
