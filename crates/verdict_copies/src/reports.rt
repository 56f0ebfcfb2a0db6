// Copies of reports.

ghost use Rattle.std.specs.Prelude.{◌≡◌, IfOk};

use crate::summaries::path;
use sc_base::{List, OutOfMemory};
use std::alloc::Global;
use sum_rows::{Report, Shown};

fn shown(alloc: Global, from: &Shown) -> Result<Shown, OutOfMemory>
    ensures { IfOk result (λ made. made ≡ from.now) }
{
    Ok(Shown {
        choice: List::from_vec(from.choice.as_slice().to_vec(alloc)?),
        trace: List::from_vec(from.trace.as_slice().to_vec(alloc)?),
        text: List::from_vec(from.text.as_slice().to_vec(alloc)?),
    })
}

fn all_shown(alloc: Global, from: &[Shown]) -> Result<List<Shown>, OutOfMemory>
    ensures { IfOk result (λ made. made ≡ from.now) }
{
    let mut made = Vec::new(alloc);
    for one in from {
        made.push(shown(alloc, one)?)?;
    }
    Ok(List::from_vec(made))
}

fn report(alloc: Global, from: &Report) -> Result<Report, OutOfMemory>
    ensures { IfOk result (λ made. made ≡ from.now) }
{
    Ok(match from {
        Report::Double(at, runs) => {
            Report::Double(path(alloc, at)?, all_shown(alloc, runs.as_slice())?)
        }
        Report::Ambiguous(at, one, other) => {
            Report::Ambiguous(path(alloc, at)?, shown(alloc, one)?, shown(alloc, other)?)
        }
        Report::Inner(run) => Report::Inner(shown(alloc, run)?),
        Report::Leak(at, run) => Report::Leak(*at, shown(alloc, run)?),
    })
}

/// Copies of reports.
pub(crate) fn reports(alloc: Global, from: &[Report]) -> Result<List<Report>, OutOfMemory>
    ensures { IfOk result (λ made. made ≡ from.now) }
{
    let mut made = Vec::new(alloc);
    for one in from {
        made.push(report(alloc, one)?)?;
    }
    Ok(List::from_vec(made))
}
