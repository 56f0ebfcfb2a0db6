//! Which of two functions is stale, where the second calls the first.

use plan_core::Plan;
use sc_base::{LimitKind, List, OutOfMemory, RowList, Skip};
use session_core::{Kept, Matter, stale};
use std::alloc::Global;
use std::sync::Arc;
use sum_rows::Verdict;

fn matter(alloc: Global, word: u64) -> Result<Matter, OutOfMemory> {
    let mut words = List::new(alloc);
    words.push(word)?;
    Ok(Matter { words })
}

fn verdict(alloc: Global, count: u64) -> Result<Arc<Verdict>, OutOfMemory> {
    let skip = Skip::Limit {
        kind: LimitKind::Nodes,
        count,
    };
    Ok(Arc::new(alloc, Verdict::Skipped(skip))?)
}

/// Two functions, of which the second calls the first.
fn plan(alloc: Global) -> Result<Plan, OutOfMemory> {
    let mut row = List::new(alloc);
    row.push(0)?;
    let mut callees = List::new(alloc);
    callees.push(List::new(alloc))?;
    callees.push(row)?;
    Ok(Plan {
        callees,
        cut: List::new(alloc),
    })
}

/// What is kept of both: the first has matter 1 and verdict 1, the second matter 7 and verdict 2, which was made of the
/// verdict `used` of the first.
fn kept(alloc: Global, used: u64) -> Result<Vec<Option<Kept>>, OutOfMemory> {
    let mut both = Vec::new(alloc);
    both.push(Some(Kept {
        matter: matter(alloc, 1)?,
        used: Vec::new(alloc),
        verdict: verdict(alloc, 1)?,
    }))?;
    let mut rows = Vec::new(alloc);
    rows.push(verdict(alloc, used)?)?;
    both.push(Some(Kept {
        matter: matter(alloc, 7)?,
        used: rows,
        verdict: verdict(alloc, 2)?,
    }))?;
    Ok(both)
}

fn nothing_kept(alloc: Global) -> Result<Vec<Option<Kept>>, OutOfMemory> {
    let mut both = Vec::new(alloc);
    both.push(None)?;
    both.push(None)?;
    Ok(both)
}

/// Whether these functions are stale, where the first has this matter now, and the verdicts are 1 and 2.
fn are_stale(
    alloc: Global,
    first: u64,
    kept: &Vec<Option<Kept>>,
    expected: &[u32],
) -> Result<bool, OutOfMemory> {
    let plan = plan(alloc)?;
    let mut now = Vec::new(alloc);
    now.push(matter(alloc, first)?)?;
    now.push(matter(alloc, 7)?)?;
    let mut list = Vec::new(alloc);
    list.push(verdict(alloc, 1)?)?;
    list.push(verdict(alloc, 2)?)?;
    let verdicts = RowList { list };
    let many = plan.len();
    if now.len() != many || kept.len() != many || verdicts.list.len() != many {
        return Ok(false);
    }
    if !plan.is_well_formed(alloc)? {
        return Ok(false);
    }
    let found = stale(alloc, &plan, &now, kept, &verdicts)?;
    Ok(found.as_slice() == expected)
}

fn all_cases(alloc: Global) -> Result<bool, OutOfMemory> {
    let same = kept(alloc, 1)?;
    let moved = kept(alloc, 3)?;
    let nothing = nothing_kept(alloc)?;
    Ok(
        are_stale(alloc, 1, &same, &[])?
            && are_stale(alloc, 2, &same, &[0])?
            && are_stale(alloc, 1, &moved, &[1])?
            && are_stale(alloc, 1, &nothing, &[0, 1])?,
    )
}

#[test]
fn one_of_two_is_stale(rt: HostRuntime) {
    assert!(rt; all_cases(rt.alloc()) == Ok(true));
}
