//! The search for components leaves good evidence: on small graphs, and on random ones.

use call_graph::{is_evidence, search};
use sc_base::{List, OutOfMemory};
use std::alloc::Global;

/// A graph of these rows.
fn graph(alloc: Global, rows: &[&[u32]]) -> Result<List<List<u32>>, OutOfMemory> {
    let mut lists = List::new(alloc);
    for row in rows {
        lists.push(List::from_vec(Vec::from_slice(alloc, row)?))?;
    }
    Ok(lists)
}

/// A graph of so many functions, in which a function calls up to four others, by pseudo-random numbers.
fn random_graph(alloc: Global, functions: u32, seed: u64) -> Result<List<List<u32>>, OutOfMemory> {
    let mut state = seed;
    let mut lists = List::new(alloc);
    for _ in 0..functions {
        let mut row = List::new(alloc);
        for _ in 0..state % 5 {
            state = state
                .wrapping_mul(6364136223846793005)
                .wrapping_add(1442695040888963407);
            row.push(((state >> 33) % 300) as u32)?;
        }
        state = state
            .wrapping_mul(6364136223846793005)
            .wrapping_add(1442695040888963407);
        lists.push(row)?;
    }
    Ok(lists)
}

fn is_evident(alloc: Global, graph: &List<List<u32>>) -> Result<bool, OutOfMemory> {
    let rows = graph.as_slice();
    Ok(is_evidence(rows, &search(alloc, rows)?))
}

fn are_evident(alloc: Global, graphs: &[&[&[u32]]]) -> Result<bool, OutOfMemory> {
    for rows in graphs {
        if !is_evident(alloc, &graph(alloc, rows)?)? {
            return Ok(false);
        }
    }
    Ok(true)
}

/// Whether the first so many random graphs are evident.
fn random_are_evident(alloc: Global, many: u64) -> Result<bool, OutOfMemory> {
    for seed in 0..many {
        if !is_evident(alloc, &random_graph(alloc, 300, seed)?)? {
            return Ok(false);
        }
    }
    Ok(true)
}

#[test]
fn small_graphs(rt: HostRuntime) {
    let graphs: [&[&[u32]]; 5] = [
        &[],
        &[&[0]],
        &[&[1], &[0]],
        &[&[], &[0], &[0, 1, 2, 3], &[]],
        &[&[3], &[0], &[1], &[2, 4], &[5], &[4]],
    ];
    assert!(rt; matches!(are_evident(rt.alloc(), &graphs), Ok(true)));
}

#[test]
fn random_graphs(rt: HostRuntime) {
    assert!(rt; matches!(random_are_evident(rt.alloc(), 40), Ok(true)));
}
