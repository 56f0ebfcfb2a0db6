//! Which functions reach one another, as a table that is made by the definition: for one function after another,
//! which pairs reach one another by walks that go through the functions so far. The time is cubic; it is what is
//! left if the evidence of the search is not good.

ghost use Rattle.std.specs.Prelude.{◌≡◌, ◌<◌, ◌+◌, IfOk, map, length};
ghost use Rattle.plan_core.specs.Graph.{calls, functions, reaches_before};
ghost use Rattle.call_graph.specs.Tables as spec;

use sc_base::{List, OutOfMemory};
use std::alloc::Global;

/// The entry of a table; `false` outside.
fn entry(table: &[List<bool>], caller: usize, callee: usize) -> bool
    ensures { result ≡ spec.entry table.now caller callee }
{
    match table.get(caller) {
        Some(row) => match row.as_slice().get(callee) {
            Some(reaches) => *reaches,
            None => false,
        },
        None => false,
    }
}

/// Whether a function calls another.
fn calls(rows: &[List<u32>], caller: usize, callee: usize) -> bool
    ensures { result ≡ calls rows.now caller callee }
{
    match rows.get(caller) {
        Some(row) => row
            .as_slice()
            .iter()
            .any(|function| callee == *function as usize),
        None => false,
    }
}

/// Whether a function is the callee or calls it.
#[tactic(auto, unfolding(plan_core::specs::Graph::reaches_before))]
fn is_or_calls(rows: &[List<u32>], caller: usize, callee: usize) -> bool
    ensures { result ≡ reaches_before rows.now 0 caller callee }
{
    caller == callee || calls(rows, caller, callee)
}

#[tactic(auto, using(crate::proofs::Entries::range_more))]
fn first_row(alloc: Global, rows: &[List<u32>], caller: usize) -> Result<List<bool>, OutOfMemory>
    ensures { IfOk result (λ row. row ≡ map (reaches_before rows.now 0 caller) (functions rows.now)) }
{
    let mut row = List::new(alloc);
    for callee in 0..rows.len() {
        row.push(is_or_calls(rows, caller, callee))?;
    }
    Ok(row)
}

/// The table of who calls whom, and of each function and itself.
#[tactic(auto, using(crate::proofs::Entries::range_more))]
fn first_table(alloc: Global, rows: &[List<u32>]) -> Result<List<List<bool>>, OutOfMemory>
    ensures { IfOk result (λ table. table ≡ spec.table_before rows.now 0) }
{
    let mut table = List::new(alloc);
    for caller in 0..rows.len() {
        table.push(first_row(alloc, rows, caller)?)?;
    }
    Ok(table)
}

/// The entry behind one function more.
fn next_entry(table: &[List<bool>], through: usize, caller: usize, callee: usize) -> bool
    ensures { result ≡ spec.next_entry table.now through caller callee }
{
    entry(table, caller, callee) || (entry(table, caller, through) && entry(table, through, callee))
}

#[tactic(auto, using(crate::proofs::Entries::entry_next, crate::proofs::Entries::range_more))]
fn next_row(
    alloc: Global,
    rows: &[List<u32>],
    table: &[List<bool>],
    through: usize,
    caller: usize,
) -> Result<List<bool>, OutOfMemory>
    requires table { table.now ≡ spec.table_before rows.now through }
    requires inside { (through < length rows.now) × (caller < length rows.now) }
    ensures { IfOk result (λ row. row ≡ map (reaches_before rows.now (through + 1) caller) (functions rows.now)) }
{
    let mut row = List::new(alloc);
    for callee in 0..rows.len() {
        row.push(next_entry(table, through, caller, callee))?;
    }
    Ok(row)
}

/// The table behind one function more.
#[tactic(auto, using(crate::proofs::Entries::range_more))]
fn next_table(
    alloc: Global,
    rows: &[List<u32>],
    table: &[List<bool>],
    through: usize,
) -> Result<List<List<bool>>, OutOfMemory>
    requires table { table.now ≡ spec.table_before rows.now through }
    requires inside { through < length rows.now }
    ensures { IfOk result (λ next. next ≡ spec.table_before rows.now (through + 1)) }
{
    let mut next = List::new(alloc);
    for caller in 0..rows.len() {
        next.push(next_row(alloc, rows, table, through, caller)?)?;
    }
    Ok(next)
}

/// The whole table.
pub(crate) fn table_of(alloc: Global, rows: &[List<u32>]) -> Result<List<List<bool>>, OutOfMemory>
    ensures { IfOk result (λ table. table ≡ spec.table_before rows.now (length rows.now)) }
{
    let mut table = first_table(alloc, rows)?;
    for through in 0..rows.len() {
        table = next_table(alloc, rows, table.as_slice(), through)?;
    }
    Ok(table)
}

/// Whether the callee of an edge reaches its caller, by the whole table.
pub(crate) fn is_back(table: &[List<bool>], caller: usize, callee: usize) -> bool
    ensures { result ≡ spec.entry table.now callee caller }
{
    entry(table, callee, caller)
}
