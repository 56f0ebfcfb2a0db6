// The call graph of a program.

ghost use Rattle.std.specs.Prelude.{◌≡◌, ◌<◌, ◌^◌, IfOk, length};
ghost use Rattle.sc_gather.specs.Seen as seen;
ghost use Rattle.program_verdicts.specs.CallGraph as graph;
ghost use Rattle.program_plan.specs.Graphs as made;
ghost use Rattle.program_plan.specs.Marks as spec;

use crate::statements::statement;
use fsm_spec::{MachineSpec, locks};
use sc_base::{List, OutOfMemory};
use sc_gather::Context;
use sc_typed::Program;
use std::alloc::Global;

// The numbers of the marks that are set, ascending.
fn set_marks(alloc: Global, marks: &[bool]) -> Result<List<u32>, OutOfMemory>
    requires few { length marks.now < 2 ^ 32 }
    ensures { IfOk result (λ found. found ≡ spec.set_from 0 marks.now) }
{
    let mut found = List::new(alloc);
    for (number, is_set) in marks.iter().enumerate() {
        if *is_set {
            found.push(number as u32)?;
        }
    }
    Ok(found)
}

// Marks the functions that the body calls; one that is not taken calls none.
fn body(marks: &mut [bool], here: &Context)
    ensures { marks.new ≡ spec.mark_stm (seen.source_of here.now) (seen.source_of here.now).body marks.old }
{
    match here.body() {
        None => {}
        Some(s) => statement(marks, here, s),
    }
}

// The functions that the function at hand calls, ascending, each once. Each row takes a pass over the marks of all
// functions, which are few.
#[tactic(auto, using(crate::proofs::CallRows::marks_are_calls))]
fn row(alloc: Global, here: &Context) -> Result<List<u32>, OutOfMemory>
    requires few { length here.now.program.now.functions < 2 ^ 32 }
    ensures { IfOk result (λ row. row ≡ made.row_in here.now.program.now (seen.source_of here.now)) }
{
    let mut room = vec![in alloc; false; here.program.functions.len()]?;
    let marks = room.as_mut_slice();
    body(marks, here);
    set_marks(alloc, marks)
}

// The row of the function with that number, with a machine that is told.
#[tactic(auto, unfolding(sc_gather::specs::Seen::source_of))]
fn row_with(
    alloc: Global,
    program: &Program,
    machine: &MachineSpec,
    tries: bool,
    function: u32,
) -> Result<List<u32>, OutOfMemory>
    requires few { length program.now.functions < 2 ^ 32 }
    ensures { IfOk result (λ row. row ≡ made.row_with program.now machine.now tries function) }
{
    let here = Context {
        program,
        machine,
        tries,
        function,
        kept: &[],
        verdicts: &[],
        depth: 0,
        reach: 0,
    };
    row(alloc, &here)
}

// The call graph, with a machine that is told.
fn rows_with(
    alloc: Global,
    program: &Program,
    machine: &MachineSpec,
    tries: bool,
) -> Result<List<List<u32>>, OutOfMemory>
    requires few { length program.now.functions < 2 ^ 32 }
    ensures { IfOk result (λ rows. rows ≡ made.rows_with program.now machine.now tries) }
{
    let mut rows = List::new(alloc);
    for number in 0..program.functions.len() {
        let row = row_with(alloc, program, machine, tries, number as u32)?;
        rows.push(row)?;
    }
    Ok(rows)
}

/// The call graph: for each function those that it calls by name, ascending, each once.
pub fn rows(alloc: Global, program: &Program) -> Result<List<List<u32>>, OutOfMemory>
    requires few { length program.now.functions < 2 ^ 32 }
    ensures { IfOk result (λ rows. rows ≡ graph.rows program.now) }
{
    match &program.machine {
        Some(machine) => rows_with(alloc, program, machine, false),
        None => match locks(alloc) {
            Ok(machine) => rows_with(alloc, program, &machine, true),
            Err(_) => Err(OutOfMemory),
        },
    }
}
