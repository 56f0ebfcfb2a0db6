// The functions of a program, one after the other, each with the summaries of its callees.

ghost use Rattle.fn_analysis.specs.Analysis.{HasWholeMachine};
ghost use Rattle.fsm_spec.specs.Table.{IsWhole};

use crate::beside::{Compared, Tally, beside};
use crate::setting::{laid_out, machine, program};
use fn_analysis::analyse;
use fsm_spec::MachineSpec;
use plan_core::Plan;
use program_plan::plan;
use sc_gather::Context;
use sc_typed::Program;
use std::alloc::Global;
use std::process::Abort;
use sum_rows::Verdict;
use verdict_copies::copy;

/// So many steps behind a pointer have locations.
const REACH: u32 = 2;

/// How the text of a program with locks begins.
pub const SPINLOCK: &str = "typedef struct{int v;}spinlock_t;";

/// How the text of a program begins whose machine of states is that of handles.
pub const HANDLE: &str = "struct h{_Bool x;};";

/// How the text of each generated program begins.
pub const GENERATED: &str = "typedef struct{int v;}spinlock_t;\
    struct node{spinlock_t lock;struct node*next;_Bool flag;char*buf;char v;_Bool arr[2];};\
    struct pair{spinlock_t m;_Bool on;struct pair*up;};struct box{_Bool on;struct box*up;spinlock_t m;};\
    void ext(void*p);int note(int x);_Bool ask(void);";

/// A program in which each function stands behind its callees, and what an independent program counts of all runs of all its
/// functions, where loops turn at most once, twice, and three times.
pub struct Row {
    /// How many choices there are, on how many of them the function comes to its end, and on how many it ends by an error at a
    /// location. On all others it is set aside.
    pub runs: [[u64; 3]; 3],
    pub text: &'static str,
}

/// Rows: counts of the runs of each program, and its text.
macro_rules! rows {
    ($($runs:expr => $text:literal),* $(,)?) => {
        &[$($crate::programs::Row { runs: $runs, text: $text }),*]
    };
}

pub(crate) use rows;

/// Programs over a machine of states that a text spells.
pub struct Machined {
    pub spelled: &'static str,
    pub rows: &'static [Row],
}

// The verdicts of kept callees.
fn verdicts_of(alloc: Global, kept: &[u32], done: &[Verdict]) -> Option<Vec<Verdict>> {
    let mut verdicts = Vec::new(alloc);
    for number in kept {
        let verdict = copy(alloc, done.get(*number as usize)?).ok()?;
        verdicts.push(verdict).ok()?;
    }
    Some(verdicts)
}

// Whether the verdict of the function at hand by its gates is this one.
fn is_verdict(alloc: Global, here: &Context, verdict: &Verdict) -> bool
    requires { HasWholeMachine here.now.program.now }
{
    match analyse(
        alloc,
        here.program,
        here.function,
        here.kept,
        here.verdicts,
        here.depth,
        here.reach,
    ) {
        Ok(found) => found == *verdict,
        Err(_) => false,
    }
}

// What was found, if the verdict by gates is that by trying every choice.
fn confirmed(alloc: Global, here: &Context, compared: Compared) -> Option<Compared>
    requires { HasWholeMachine here.now.program.now }
{
    if is_verdict(alloc, here, &compared.verdict) {
        Some(compared)
    } else {
        None
    }
}

// Gates and runs of the function at hand agree, and so do the verdicts by gates and by trying every choice.
fn compared(alloc: Global, here: &Context) -> Option<Compared>
    requires table { IsWhole here.now.machine.now }
    requires whole { HasWholeMachine here.now.program.now }
{
    let places = laid_out(alloc, here)?;
    match beside(alloc, here, &places) {
        Some(compared) => confirmed(alloc, here, compared),
        None => None,
    }
}

// The same of the function with that number, whose callees stand before it.
fn function_at(
    alloc: Global,
    program: &Program,
    machine: &MachineSpec,
    plan: &Plan,
    number: u32,
    done: &[Verdict],
    depth: u32,
) -> Option<Compared>
    requires table { IsWhole machine.now }
    requires whole { HasWholeMachine program.now }
{
    if number as usize >= plan.len() {
        return None;
    }
    let kept = plan.callees_of(number);
    let verdicts = verdicts_of(alloc, kept, done)?;
    let here = Context {
        program,
        machine,
        tries: program.machine.is_none(),
        function: number,
        kept,
        verdicts: verdicts.as_slice(),
        depth,
        reach: REACH,
    };
    compared(alloc, &here)
}

// The same of all functions of the plan: what came of their runs.
fn all_planned(
    alloc: Global,
    program: &Program,
    machine: &MachineSpec,
    plan: &Plan,
    depth: u32,
) -> Option<Tally>
    requires table { IsWhole machine.now }
    requires whole { HasWholeMachine program.now }
{
    let count = u32::try_from(plan.len()).ok()?;
    let mut done = Vec::new(alloc);
    let mut tally = Tally::none();
    for number in 0..count {
        let one = function_at(
            alloc,
            program,
            machine,
            plan,
            number,
            done.as_slice(),
            depth,
        )?;
        tally = tally.with(one.tally);
        done.push(one.verdict).ok()?;
    }
    Some(tally)
}

// The same of all functions of the program.
fn all_functions(
    alloc: Global,
    program: &Program,
    machine: &MachineSpec,
    depth: u32,
) -> Option<Tally>
    requires table { IsWhole machine.now }
    requires whole { HasWholeMachine program.now }
{
    match plan(alloc, program) {
        Ok(plan) => all_planned(alloc, program, machine, &plan, depth),
        Err(_) => None,
    }
}

// Whether the runs of a program are as the row says.
fn is_as_told(alloc: Global, program: &Program, machine: &MachineSpec, row: &Row) -> bool
    requires table { IsWhole machine.now }
    requires whole { HasWholeMachine program.now }
{
    for turns in 0..3 {
        let [choices, exits, errors] = row.runs[turns];
        let told = Tally {
            choices,
            exits,
            errors,
        };
        if all_functions(alloc, program, machine, turns as u32 + 1) != Some(told) {
            return false;
        }
    }
    true
}

// The same of its text, with this machine.
fn runs_hold(alloc: Global, spelled: &str, text: &str, machine: &MachineSpec, row: &Row) -> bool
    requires { IsWhole machine.now }
{
    match program(alloc, text, spelled) {
        Some(program) => is_as_told(alloc, &program, machine, row),
        None => false,
    }
}

// The same with the machine that a text spells.
fn text_holds(alloc: Global, spelled: &str, text: &str, row: &Row) -> bool {
    match machine(alloc, spelled) {
        Some(machine) => runs_hold(alloc, spelled, text, &machine, row),
        None => false,
    }
}

// A text that begins so and goes on so.
fn joined(alloc: Global, start: &str, rest: &str) -> Option<String> {
    let mut text = String::from_str(alloc, start).ok()?;
    text.push_str(rest).ok()?;
    Some(text)
}

// The same of a row whose text begins so.
fn holds(alloc: Global, start: &str, spelled: &str, row: &Row) -> bool {
    match joined(alloc, start, row.text) {
        Some(text) => text_holds(alloc, spelled, text.as_str(), row),
        None => false,
    }
}

/// On every choice of each function of these programs, whose texts begin so, its gates tell its run, the verdict by its gates is the
/// one that trying every choice gives, and its runs are as the row says. The machine is that of locks where no text spells one.
pub fn all_hold(rt: &impl Abort, alloc: Global, start: &str, spelled: &str, rows: &[Row]) {
    for row in rows {
        assert!(rt; holds(alloc, start, spelled, row), "{}", row.text);
    }
}

/// The same of programs over machines of their own.
pub fn all_hold_over(rt: &impl Abort, alloc: Global, start: &str, machines: &[Machined]) {
    for over in machines {
        all_hold(rt, alloc, start, over.spelled, over.rows);
    }
}
