//! Worked examples of claims and publications, whose answers were found by hand.

use plan_core::{CoreState, Edge, Plan};
use sc_base::{List, OutOfMemory};
use std::alloc::Global;

/// A plan in which each function calls its neighbour: the one before it, or the one behind it.
fn chain(alloc: Global, functions: u32, backwards: bool) -> Result<Plan, OutOfMemory> {
    let mut callees = List::new(alloc);
    for function in 0..functions {
        let mut row = List::new(alloc);
        if backwards && function > 0 {
            row.push(function - 1)?;
        }
        if !backwards && function < functions - 1 {
            row.push(function + 1)?;
        }
        callees.push(row)?;
    }
    Ok(Plan {
        callees,
        cut: List::new(alloc),
    })
}

fn first_comes_first(alloc: Global) -> Result<bool, OutOfMemory> {
    let plan = chain(alloc, 2, true)?;
    if plan.len() != 2 {
        return Ok(false);
    }
    let mut state = CoreState::new(alloc, &plan)?;
    Ok(
        !plan.is_empty()
            && state.len() == 2
            && !state.is_empty()
            && state.claimable(&plan) == Some(0)
            && !state.claim(&plan, 0, 1)
            && state.claim(&plan, 0, 0)
            && !state.publish(1, 0)
            && state.publish(0, 0),
    )
}

#[test]
fn the_second_of_two_calls_the_first(rt: HostRuntime) {
    assert!(rt; first_comes_first(rt.alloc()) == Ok(true));
}

/// Whether a chain of 64 functions is published from its end, each function by a worker of its own.
fn is_published_from_its_end(alloc: Global, backwards: bool) -> Result<bool, OutOfMemory> {
    let plan = chain(alloc, 64, backwards)?;
    if plan.len() != 64 {
        return Ok(false);
    }
    let mut state = CoreState::new(alloc, &plan)?;
    for turn in 0..64u32 {
        let expected = if backwards { turn } else { 63 - turn };
        let is_next = state.claimable(&plan) == Some(expected);
        if !is_next || !state.claim(&plan, turn, expected) {
            return Ok(false);
        }
        let is_busy = state.claimable(&plan) == None;
        if !is_busy || !state.publish(turn, expected) {
            return Ok(false);
        }
    }
    Ok(state.claimable(&plan) == None)
}

#[test]
fn a_chain_is_published_from_its_end(rt: HostRuntime) {
    assert!(rt; is_published_from_its_end(rt.alloc(), true) == Ok(true));
    assert!(rt; is_published_from_its_end(rt.alloc(), false) == Ok(true));
}

/// A plan with these rows.
fn plan_of(alloc: Global, rows: &[&[u32]]) -> Result<Plan, OutOfMemory> {
    let mut callees = List::new(alloc);
    for row in rows {
        callees.push(List::from_vec(Vec::from_slice(alloc, row)?))?;
    }
    Ok(Plan {
        callees,
        cut: List::new(alloc),
    })
}

/// Whether a plan with these rows is well formed.
fn is_well_formed(alloc: Global, rows: &[&[u32]]) -> Result<bool, OutOfMemory> {
    plan_of(alloc, rows)?.is_well_formed(alloc)
}

/// Whether a chain of 64 functions is well formed.
fn chain_is_well_formed(alloc: Global, backwards: bool) -> Result<bool, OutOfMemory> {
    chain(alloc, 64, backwards)?.is_well_formed(alloc)
}

/// Rows, and whether they are a plan without a cycle.
const ROWS: &[(&[&[u32]], bool)] = &[
    (&[], true),
    (&[&[1, 2], &[2], &[]], true),
    (&[&[0]], false),
    (&[&[], &[2], &[3], &[1]], false),
    (&[&[1, 1], &[]], false),
    (&[&[2, 1], &[], &[]], false),
    (&[&[1]], false),
];

#[test]
fn a_plan_is_well_formed_without_a_cycle(rt: HostRuntime) {
    assert!(rt; chain_is_well_formed(rt.alloc(), true) == Ok(true));
    assert!(rt; chain_is_well_formed(rt.alloc(), false) == Ok(true));
    for &(rows, want) in ROWS {
        assert!(rt; is_well_formed(rt.alloc(), rows) == Ok(want));
    }
}

#[test]
fn an_edge_is_cut_where_it_leads_back(rt: HostRuntime) {
    let forward = Edge {
        caller: 0,
        callee: 1,
    };
    let backward = Edge {
        caller: 1,
        callee: 0,
    };
    let own = Edge {
        caller: 1,
        callee: 1,
    };
    assert!(rt; !forward.is_cut(true));
    assert!(rt; backward.is_cut(true));
    assert!(rt; !backward.is_cut(false));
    assert!(rt; own.is_cut(true));
}
