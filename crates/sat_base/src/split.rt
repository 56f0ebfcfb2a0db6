// The search that splits: values are propagated, and where that leaves a variable without one,
// both values are tried.

ghost use Rattle.std.specs.Prelude.{◌≡◌, ◌<◌, false, map, length, slice_set, Some, unwrap_or, IfOk, MatchOption};
ghost use Rattle.sat_base.specs.Logic.{ClausesBelow};
ghost use Rattle.sat_base.specs.Propagation.{Refutes, Completes};

use crate::propagate::{Propagated, propagate};
use crate::{Clause, OutOfMemory};
use std::alloc::Global;

/// The values of all variables, where those that have none get false.
fn filled(alloc: Global, marks: &[Option<bool>]) -> Result<Vec<bool>, OutOfMemory>
    ensures { IfOk result (λ values. values.items ≡ map (λ mark. unwrap_or mark false) marks.now) }
{
    let values = marks
        .iter()
        .map(|mark| mark.unwrap_or(false))
        .collect(alloc)?;
    Ok(values)
}

/// A copy of the marks in which this variable has this value.
fn given(
    alloc: Global,
    marks: &[Option<bool>],
    var: usize,
    value: bool,
) -> Result<Vec<Option<bool>>, OutOfMemory>
    requires { var < length marks.now }
    ensures { IfOk result (λ copy. copy.items ≡ slice_set marks.now var (Some value)) }
{
    let mut copy = Vec::from_slice(alloc, marks)?;
    copy[var] = Some(value);
    Ok(copy)
}

/// Values for all variables that satisfy the clauses and agree with those given, or `None` where
/// there are none. The marks are used up.
pub fn search(
    alloc: Global,
    clauses: &[Clause],
    marks: &mut [Option<bool>],
) -> Result<Option<Vec<bool>>, OutOfMemory>
    requires { ClausesBelow (length marks.old) clauses.now }
    ensures { IfOk result (λ found. MatchOption found
        (Refutes clauses.now marks.old) (λ values. Completes clauses.now marks.old values.items)) }
{
    match propagate(clauses, marks) {
        Propagated::Conflict => Ok(None),
        Propagated::Satisfied => {
            let values = filled(alloc, marks)?;
            Ok(Some(values))
        }
        Propagated::Open(var) => {
            let mut without = given(alloc, marks, var, false)?;
            if let Some(values) = search(alloc, clauses, without.as_mut_slice())? {
                return Ok(Some(values));
            }
            let mut with = given(alloc, marks, var, true)?;
            let found = search(alloc, clauses, with.as_mut_slice())?;
            Ok(found)
        }
    }
}
