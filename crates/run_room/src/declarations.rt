// The room of declarations in bodies.

ghost use Rattle.std.specs.Prelude.{◌≡◌, ◌+◌, IfOk, length, map};
ghost use Rattle.sc_world.specs.View as view;
ghost use Rattle.run_world.specs.Seen as seen;
ghost use Rattle.run_room.specs.Room as spec;

use crate::expressions::{expression, is_scalar};
use crate::sums::plus;
use run_world::Here;
use sc_base::OutOfMemory;
use sc_typed::{TDeclarator, TExpr, TForStart, TInit, TInitItem};

// The room of the cells of a value: one of a scalar, those of an object at most of any other.
#[tactic(auto, unfolding(run_world::specs::Seen::env))]
fn cells(here: &Here, e: &TExpr) -> usize
    ensures { result ≡ spec.cells_room (length (seen.env here.now).layout.locations) (view.exp (seen.env here.now).source.structs e.now) }
{
    if is_scalar(here, e) {
        1
    } else {
        here.places.count()
    }
}

// The room of values in braces.
fn items(here: &Here, items: &[TInitItem]) -> Result<usize, OutOfMemory>
    ensures { IfOk result (λ n. n ≡ spec.givens_room (length (seen.env here.now).layout.locations)
        (map (view.given (seen.env here.now).source.structs) items.now)) }
{
    let mut all = 0;
    for item in items {
        let value = plus(expression(here, &item.value)?, cells(here, &item.value))?;
        all = plus(all, value)?;
    }
    Ok(all)
}

fn initialiser(here: &Here, init: &Option<TInit>) -> Result<usize, OutOfMemory>
    ensures { IfOk result (λ n. n ≡ spec.init_room (length (seen.env here.now).layout.locations)
        (view.init_if (seen.env here.now).source.structs init.now)) }
{
    match init {
        None => Ok(0),
        Some(init) => match init {
            TInit::One(e) => expression(here, e),
            TInit::Braces(values) => items(here, values.as_slice()),
        },
    }
}

/// The room of declarators.
pub fn declarators(here: &Here, declarators: &[TDeclarator]) -> Result<usize, OutOfMemory>
    ensures { IfOk result (λ n. n ≡ spec.decs_room (length (seen.env here.now).layout.locations)
        (map (view.dec (seen.env here.now).source.structs) declarators.now)) }
{
    let mut all = 0;
    for d in declarators {
        all = plus(all, initialiser(here, &d.init)?)?;
    }
    Ok(all)
}

/// The room of what stands in the first place of `for`.
pub fn start(here: &Here, start: &TForStart) -> Result<usize, OutOfMemory>
    ensures { IfOk result (λ n. n ≡ spec.start_room (length (seen.env here.now).layout.locations)
        (view.start_of (seen.env here.now).source.structs start.now)) }
{
    match start {
        TForStart::Nothing => Ok(0),
        TForStart::Expr(e) => expression(here, e),
        TForStart::Decl(ds, _) => declarators(here, ds.as_slice()),
    }
}
