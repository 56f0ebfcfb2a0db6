//! Lists of outputs: those that were made so far, and those of a function's callees.

ghost use Rattle.std.specs.Prelude.{◌≡◌, ℕ, ◌<◌, List, length, map, vec_len, replicate, None, IfOk, IfSome, IsSome};
ghost use Rattle.std.specs.List.{All};
ghost use Rattle.std.specs.Arc.{arc_value};
ghost use Rattle.work_pool.specs.Outputs.{outputs_of, made_at, IsMade};

use sc_base::{OutOfMemory, RowList};
use std::alloc::Global;
use std::sync::Arc;

/// So many functions of which nothing was made yet.
pub(crate) fn nothing<O: Drop>(
    alloc: Global,
    count: usize,
) -> Result<Vec<Option<Arc<O>>>, OutOfMemory>
    ensures { IfOk result (λ made. made.items ≡ replicate count None) }
{
    let mut made = Vec::new(alloc);
    for _turn in 0..count {
        made.push(None)?;
    }
    Ok(made)
}

/// The output of a function, shared.
fn shared<O: Drop>(made: &[Option<Arc<O>>], function: u32) -> Result<Arc<O>, OutOfMemory>
    requires inside { function < length made.now }
    requires made { IsSome (made_at made.now function) }
    ensures { IfOk result (λ output. IfSome (made_at made.now function) (λ a. arc_value output ≡ arc_value a)) }
{
    match &made[function as usize] {
        Some(output) => Ok(Arc::try_clone(output)?),
        None => unreachable!(),
    }
}

/// The outputs of these functions, in their order, shared.
pub(crate) fn shared_all<O: Drop>(
    alloc: Global,
    made: &[Option<Arc<O>>],
    functions: &[u32],
) -> Result<RowList<O>, OutOfMemory>
    requires { All (λ f. (f < length made.now) × IsSome (made_at made.now f)) functions.now }
    ensures { IfOk result (λ outputs. (defined : ℕ → O) → All (IsMade defined made.now) functions.now
        → map arc_value outputs.list.items ≡ map defined functions.now) }
{
    let mut list = Vec::new(alloc);
    for function in functions {
        list.push(shared(made, *function)?)?;
    }
    Ok(RowList { list })
}

/// All outputs, in order, moved out.
pub(crate) fn collected<O: Drop>(
    alloc: Global,
    made: Vec<Option<Arc<O>>>,
) -> Result<RowList<O>, OutOfMemory>
    requires { All IsSome made.items }
    ensures { IfOk result (λ outputs. (defined : ℕ → O) → ((f : ℕ) → f < vec_len made → IsMade defined made.items f)
        → map arc_value outputs.list.items ≡ outputs_of defined (vec_len made)) }
{
    let mut made = made;
    let mut list = Vec::new(alloc);
    for function in 0..made.len() {
        list.push(made[function].take().unwrap())?;
    }
    Ok(RowList { list })
}

/// So many owners of one output.
pub(crate) fn copied<O: Drop>(
    alloc: Global,
    output: &Arc<O>,
    count: usize,
) -> Result<RowList<O>, OutOfMemory>
    ensures count { IfOk result (λ rows. vec_len rows.list ≡ count) }
    ensures rows { IfOk result (λ rows. All (λ row. arc_value row ≡ arc_value output.now) rows.list.items) }
{
    let mut list = Vec::new(alloc);
    for _turn in 0..count {
        list.push(Arc::try_clone(output)?)?;
    }
    Ok(RowList { list })
}
