// Which functions are stale.

ghost use Rattle.std.specs.Prelude.{◌≡◌, ◌↔◌, ◌<◌, length, map, option_map, false, true, IfOk, vec_len};
ghost use Rattle.std.specs.Arc.{arc_value};
ghost use Rattle.plan_core.specs.Graph.{IsPlan};
ghost use Rattle.session_core.specs.Stale as spec;

use crate::callee_rows::rows_of;
use crate::kept::{Kept, Matter};
use crate::same::Same;
use crate::verdicts::same_verdicts;
use plan_core::Plan;
use sc_base::{OutOfMemory, RowList};
use std::alloc::Global;
use sum_rows::Verdict;

/// Whether a function is stale: nothing is kept of it, or its matter is not the kept one, or the verdicts of its kept
/// callees, `rows`, are not those that were used. It takes no memory.
pub fn is_stale(now: &Matter, kept: Option<&Kept>, rows: &RowList<Verdict>) -> bool
    ensures stale { (result ≡ true) ↔ spec.IsStale now.now.words (spec.kept_if kept.entry) (map arc_value rows.now.list.items) }
    ensures usable { (result ≡ false) ↔ spec.IsUsable now.now.words (spec.kept_if kept.entry) (map arc_value rows.now.list.items) }
{
    match kept {
        None => true,
        Some(kept) => {
            let usable = now.words.is_same(&kept.matter.words)
                && same_verdicts(rows.list.as_slice(), kept.used.as_slice());
            !usable
        }
    }
}

// Whether the function with that number is stale.
fn stale_at(
    alloc: Global,
    plan: &Plan,
    now: &Vec<Matter>,
    kept: &Vec<Option<Kept>>,
    verdicts: &RowList<Verdict>,
    function: u32,
) -> Result<bool, OutOfMemory>
    requires plan { IsPlan plan.now.callees }
    requires counts { spec.AreAsMany plan.now.callees (vec_len now.now) (vec_len kept.now) (vec_len verdicts.now.list) }
    requires inside { function < length plan.now.callees }
    ensures { IfOk result (λ stale. (stale ≡ true) ↔ spec.StaleAt plan.now.callees (map (λ m. m.words) now.now.items)
        (map (option_map spec.memory) kept.now.items) (map arc_value verdicts.now.list.items) function) }
{
    let rows = rows_of(alloc, verdicts.list.as_slice(), plan.callees_of(function))?;
    let (matter, kept) = (&now[function as usize], &kept[function as usize]);
    Ok(is_stale(matter, kept.as_ref(), &rows))
}

/// The stale functions, ascending. `now` has the matter of each function of the plan, `kept` what is kept of it, and
/// `verdicts` its verdict.
///
/// # Errors
///
/// `OutOfMemory` where memory is refused.
pub fn stale(
    alloc: Global,
    plan: &Plan,
    now: &Vec<Matter>,
    kept: &Vec<Option<Kept>>,
    verdicts: &RowList<Verdict>,
) -> Result<Vec<u32>, OutOfMemory>
    requires plan { IsPlan plan.now.callees }
    requires counts { spec.AreAsMany plan.now.callees (vec_len now.now) (vec_len kept.now) (vec_len verdicts.now.list) }
    ensures { IfOk result (λ fs. spec.AreStale plan.now.callees (map (λ m. m.words) now.now.items) (map (option_map spec.memory) kept.now.items)
        (map arc_value verdicts.now.list.items) (length plan.now.callees) fs.items) }
{
    let mut found = Vec::new(alloc);
    for f in 0..plan.len() {
        let stale = stale_at(alloc, plan, now, kept, verdicts, f as u32)?;
        if stale {
            found.push(f as u32)?;
        }
    }
    Ok(found)
}
