//! Reading a machine from the bytes of a file.
#![tactic(auto)]

ghost use Rattle.std.specs.Prelude.{◌≡◌, IfOk, bytes_eq, option_map};
ghost use Rattle.std.specs.List.{list_any};
ghost use Rattle.fsm_spec.specs.Forms.{name_in, states_in};
ghost use Rattle.fsm_spec.specs.Reading.{Answers, spelled};
ghost use Rattle.fsm_spec.specs.Steps.{Gives, at_line, next_in, operations_answer};

use crate::words::Lines;
use crate::{List, MachineAnswer, MachineSpec, Operation, OutOfMemory, Word, forms};
use std::alloc::Global;

/// How many operations a machine has at most.
const MAX_OPERATIONS: usize = 64;

/// The machine that the bytes of a file spell. `Line` with the number of the first line that breaks the
/// form of a machine file, counted from 1, or with one more than the number of lines where lines are
/// missing. `OutOfMemory` may come at any time.
#[tactic(auto, unfolding(crate::specs::Reading::spelled))]
pub fn machine(alloc: Global, bytes: &[u8]) -> Result<MachineSpec, MachineAnswer>
    ensures { Answers result (spelled bytes.now) }
{
    let mut lines = Lines::of(bytes);
    let name = name(alloc, lines.next())?;
    let states = states(alloc, lines.next())?;
    let operations = operations(alloc, states.as_slice(), lines)?;
    Ok(MachineSpec {
        name,
        states,
        operations,
    })
}

/// The name of the machine, of line 1.
fn name(alloc: Global, line: Option<&[u8]>) -> Result<Word, MachineAnswer>
    ensures { Gives result (at_line name_in 1 (option_map (λ l. l.now) line.entry)) }
{
    let Some(line) = line else {
        return Err(MachineAnswer::Line(1));
    };
    forms::name(alloc, line)?.ok_or(MachineAnswer::Line(1))
}

/// The names of the states, of line 2.
fn states(alloc: Global, line: Option<&[u8]>) -> Result<List<Word>, MachineAnswer>
    ensures { Gives result (at_line states_in 2 (option_map (λ l. l.now) line.entry)) }
{
    let Some(line) = line else {
        return Err(MachineAnswer::Line(2));
    };
    forms::states(alloc, line)?.ok_or(MachineAnswer::Line(2))
}

/// Whether an operation has this function.
fn has_function(operations: &[Operation], function: &Word) -> bool
    ensures { result ≡ list_any (λ o. bytes_eq o.function function.now) operations.now }
{
    let function = function.as_str().as_bytes();
    operations
        .iter()
        .any(|operation| operation.function.is(function))
}

/// The operation of a line behind some operations: none where there are 64 already, where the line has
/// another form, or where its function has an operation.
fn next_operation(
    alloc: Global,
    states: &[Word],
    operations: &[Operation],
    line: &[u8],
) -> Result<Option<Operation>, OutOfMemory>
    ensures { IfOk result (λ operation. operation ≡ next_in states.now operations.now line.now) }
{
    if operations.len() >= MAX_OPERATIONS {
        return Ok(None);
    }
    let Some(operation) = forms::operation(alloc, states, line)? else {
        return Ok(None);
    };
    if has_function(operations, &operation.function) {
        return Ok(None);
    }
    Ok(Some(operation))
}

/// The operations, of the lines from line 3 on.
fn operations(
    alloc: Global,
    states: &[Word],
    mut lines: Lines<'_>,
) -> Result<List<Operation>, MachineAnswer>
    ensures { Gives result (operations_answer states.now lines.entry) }
{
    let mut operations = List::new(alloc);
    while let Some(line) = lines.next() {
        let Some(operation) = next_operation(alloc, states, operations.as_slice(), line)? else {
            return Err(MachineAnswer::Line(operations.len() as u32 + 3));
        };
        operations.push(operation)?;
    }
    if operations.len() == 0 {
        return Err(MachineAnswer::Line(3));
    }
    Ok(operations)
}
