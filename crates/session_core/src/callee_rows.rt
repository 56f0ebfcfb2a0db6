// The verdicts of a function's callees.

ghost use Rattle.std.specs.Prelude.{◌≡◌, ◌<◌, length, map, IfOk};
ghost use Rattle.std.specs.List.{All};
ghost use Rattle.std.specs.Arc.{arc_value};
ghost use Rattle.session_core.specs.Stale.{rows_of};

use sc_base::{OutOfMemory, RowList};
use std::alloc::Global;
use std::sync::Arc;
use sum_rows::Verdict;

/// The verdicts of these functions, in their order, shared.
///
/// # Errors
///
/// `OutOfMemory` where memory is refused.
pub fn rows_of(
    alloc: Global,
    verdicts: &[Arc<Verdict>],
    functions: &[u32],
) -> Result<RowList<Verdict>, OutOfMemory>
    requires { All (λ f. f < length verdicts.now) functions.now }
    ensures { IfOk result (λ rows. map arc_value rows.list.items ≡ rows_of functions.now (map arc_value verdicts.now)) }
{
    let mut list = Vec::new(alloc);
    for function in functions {
        list.push(Arc::try_clone(&verdicts[*function as usize])?)?;
    }
    Ok(RowList { list })
}
