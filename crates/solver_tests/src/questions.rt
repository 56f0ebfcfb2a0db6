//! Questions about small lists of clauses, whose answers were found by hand.

ghost use Rattle.std.specs.Prelude.{◌≡◌};

use crate::literals::{all_below, negative, positive};
use query::{least, occurring};
use sat_base::{OutOfMemory, Plain, Solver};
use sat_cdcl::Cdcl;
use std::alloc::Global;

/// Whether the model has these values.
fn is_model(found: &Option<Vec<bool>>, values: &[bool]) -> bool {
    match found {
        Some(found) => found.as_slice() == values,
        None => false,
    }
}

/// One of two variables holds, and then the first does not.
fn either_of_two<S: Solver>(alloc: Global, solver: &mut S) -> Result<bool, OutOfMemory>
    requires { S.vars solver.old ≡ 0 }
{
    let x = solver.fresh()?;
    let y = solver.fresh()?;
    let either = [positive(x), positive(y)];
    let goals = [positive(y)];
    if !all_below(&either, 2) || !all_below(&goals, 2) {
        return Ok(false);
    }
    solver.add(&either)?;
    let values = occurring(alloc, solver, &either)?;
    let first = least(alloc, solver, &either, &goals)?;
    Ok(values.as_slice() == [1, 2, 3].as_slice() && is_model(&first, &[false, true]))
}

/// Once the first of two variables is excluded, no model has it.
fn the_other_of_two<S: Solver>(alloc: Global, solver: &mut S) -> Result<bool, OutOfMemory>
    requires { S.vars solver.old ≡ 0 }
{
    let x = solver.fresh()?;
    let y = solver.fresh()?;
    let either = [positive(x), positive(y)];
    let neither = [negative(x)];
    let goals = [positive(x)];
    if !all_below(&either, 2) || !all_below(&neither, 2) || !all_below(&goals, 2) {
        return Ok(false);
    }
    solver.add(&either)?;
    solver.add(&neither)?;
    let first = least(alloc, solver, &either, &goals)?;
    Ok(first.is_none())
}

#[test]
fn the_solver_that_splits(rt: HostRuntime) {
    let alloc = rt.alloc();
    assert!(rt; either_of_two(alloc, &mut Plain::new(alloc)) == Ok(true));
    assert!(rt; the_other_of_two(alloc, &mut Plain::new(alloc)) == Ok(true));
}

#[test]
fn the_solver_that_learns(rt: HostRuntime) {
    let alloc = rt.alloc();
    assert!(rt; either_of_two(alloc, &mut Cdcl::new(alloc)) == Ok(true));
    assert!(rt; the_other_of_two(alloc, &mut Cdcl::new(alloc)) == Ok(true));
}
