// The whole replay.

ghost use Rattle.std.specs.Prelude.{◌≡◌, ◌<◌, ◌^◌, ℕ, IfOk, List, Some, length};
ghost use Rattle.program_verdicts.specs.CallGraph as graph;
ghost use Rattle.sc_check.specs.Typed.{Sources as Trees};
ghost use Rattle.whole_checks.specs.Planned.{Says};
ghost use Rattle.whole_checks.specs.Said.{HasWholeMachine};
ghost use Rattle.whole_checks.specs.Seen as seen_of;
ghost use Rattle.fn_replay.specs.Replays.{Form as Forms};
ghost use Rattle.fn_replay.specs.Seen as replay;
ghost use Rattle.fn_replay.specs.Seen.{form_of};
ghost use Rattle.whole_replays.specs.Told.{told, told_of_function, told_of_replay};
ghost use Rattle.whole_replays.specs.Seen.{seen};

use crate::named::function_named;
use crate::needed::needed_verdicts;
use crate::spared::callees;
use crate::told::Told;
use fn_replay::{Form, Replayed, Run, replay_run};
use plan_core::Plan;
use sc_base::OutOfMemory;
use sc_typed::Program;
use std::alloc::Global;
use whole_checks::{Analysis, NoPlan, Sources, planned};

/// What is replayed, and in which form.
#[derive(Clone, Copy)]
pub struct Asked<'a> {
    /// The form in which the run is told.
    pub form: Form<'a>,
    /// The name of the function.
    pub name: &'a [u8],
    /// The digits that spell the choice.
    pub digits: &'a [u8],
    /// How often a loop may turn.
    pub depth: u32,
    /// How far pointers are followed at entry.
    pub reach: u32,
}

// What is said in place of a run where there is no plan.
fn without_plan(why: NoPlan) -> Result<Told, OutOfMemory>
    ensures { IfOk result (λ t. (form : Forms) (s : Trees) (depth reach : ℕ) (name digits : List ℕ) → Says s why
        → seen t ≡ told form s depth reach name digits) }
{
    match why {
        NoPlan::Twice(name) => Ok(Told::Twice(name)),
        NoPlan::Beyond(kind, count) => Ok(Told::Beyond(kind, count)),
        NoPlan::OutOfMemory => Err(OutOfMemory),
    }
}

// What is said of a function with this replay.
fn told_of(replayed: Replayed) -> Told
    ensures { seen result ≡ told_of_replay (replay.seen replayed) }
{
    match replayed {
        Replayed::Told(bytes) => Told::Run(bytes),
        Replayed::Skipped => Told::Skipped,
        Replayed::BadChoice => Told::BadChoice,
    }
}

// What is said of the function with that number.
fn of_function(
    alloc: Global,
    program: &Program,
    plan: &Plan,
    asked: Asked<'_>,
    function: u32,
) -> Result<Told, OutOfMemory>
    requires few { length program.now.functions < 2 ^ 32 }
    requires inside { function < length program.now.functions }
    requires planned { plan.now ≡ graph.plan program.now }
    requires whole { HasWholeMachine program.now.machine }
    ensures { IfOk result (λ t. seen t ≡ told_of_function (form_of asked.entry.form) program.now asked.entry.depth asked.entry.reach asked.entry.digits.now (Some function)) }
{
    let analysis = Analysis {
        alloc,
        program,
        plan,
        depth: asked.depth,
        reach: asked.reach,
    };
    let verdicts = needed_verdicts(analysis, function)?;
    let run = Run {
        form: asked.form,
        function,
        digits: asked.digits,
        depth: asked.depth,
        reach: asked.reach,
    };
    let kept = callees(plan, function as usize);
    let replayed = replay_run(alloc, program, kept, verdicts.as_slice(), run)?;
    Ok(told_of(replayed))
}

/// What a replay says of the trees of all files: the run of the first function of that name on the choice that the digits
/// spell, in the form that is asked for, however it ends; or the first reason why there is none. The verdicts that the
/// function needs are made on the calling thread, and it always returns.
///
/// # Errors
///
/// `OutOfMemory` where memory is refused.
pub fn tell(alloc: Global, sources: Sources<'_>, asked: Asked<'_>) -> Result<Told, OutOfMemory>
    requires whole { HasWholeMachine sources.machine }
    ensures { IfOk result (λ t. seen t ≡ told (form_of asked.entry.form) (seen_of.sources sources.entry) asked.entry.depth asked.entry.reach asked.entry.name.now
        asked.entry.digits.now) }
{
    let (program, plan) = match planned(alloc, sources) {
        Ok(planned) => planned,
        Err(why) => return without_plan(why),
    };
    match function_named(&program, asked.name) {
        Some(function) => of_function(alloc, &program, &plan, asked, function as u32),
        None => Ok(Told::NoFunction),
    }
}
