//! A small question to `Plain` whose answer is known.

ghost use Rattle.std.specs.Prelude.{◌≡◌};

use crate::literals::{all_below, negative, positive};
use sat_base::{Answer, OutOfMemory, Plain, Solver};

/// Asks any solver about (x or y) and (not x): the value of y in the model, then the answer under the assumption
/// (not y), and then that without an assumption.
fn one_of_two<S: Solver>(
    solver: &mut S,
) -> Result<Option<(Option<bool>, Answer, Answer)>, OutOfMemory>
    requires { S.vars solver.old ≡ 0 }
{
    let x = solver.fresh()?;
    let y = solver.fresh()?;
    let either = [positive(x), positive(y)];
    let not_x = [negative(x)];
    let not_y = [negative(y)];
    if !all_below(&either, 2) || !all_below(&not_x, 2) || !all_below(&not_y, 2) {
        return Ok(None);
    }
    solver.add(&either)?;
    solver.add(&not_x)?;
    let value = match solver.solve(&[])? {
        Answer::Model => Some(solver.model(y)),
        Answer::NoModel => None,
    };
    let with = solver.solve(&not_y)?;
    let without = solver.solve(&[])?;
    Ok(Some((value, with, without)))
}

/// The assumption is not kept.
#[test]
fn a_unit_and_an_assumption(rt: HostRuntime) {
    let found = one_of_two(&mut Plain::new(rt.alloc()));
    assert!(rt; found == Ok(Some((Some(true), Answer::NoModel, Answer::Model))));
}
