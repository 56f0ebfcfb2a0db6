// Copies of verdicts.

ghost use Rattle.std.specs.Prelude.{◌≡◌, IfOk, map};
ghost use Rattle.std.specs.Arc.{arc_value};

use crate::reports::reports;
use crate::summaries::summary;
use sc_base::OutOfMemory;
use std::alloc::Global;
use std::sync::Arc;
use sum_rows::Verdict;

/// A copy of a verdict: the same skip, or the same summary and the same reports.
///
/// # Errors
///
/// `OutOfMemory` where memory is refused.
pub fn copy(alloc: Global, from: &Verdict) -> Result<Verdict, OutOfMemory>
    ensures { IfOk result (λ made. made ≡ from.now) }
{
    match from {
        Verdict::Skipped(skip) => Ok(Verdict::Skipped(*skip)),
        Verdict::Done(found, told) => Ok(Verdict::Done(
            summary(alloc, found)?,
            reports(alloc, told.as_slice())?,
        )),
    }
}

/// Copies of verdicts that are shared, in their order.
///
/// # Errors
///
/// `OutOfMemory` where memory is refused.
pub fn copies(alloc: Global, shared: &[Arc<Verdict>]) -> Result<Vec<Verdict>, OutOfMemory>
    ensures { IfOk result (λ made. made.items ≡ map arc_value shared.now) }
{
    let mut made = Vec::new(alloc);
    for one in shared {
        made.push(copy(alloc, one)?)?;
    }
    Ok(made)
}
