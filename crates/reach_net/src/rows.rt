//! Rows of gates, one gate for each object, and the rows of a matrix let through one object after another.
ghost use Rattle.std.specs.Prelude.{◌≡◌, ℕ, ◌<◌, ◌≤◌, ◌&&◌, ◌||◌, length, IfOk};
ghost use Rattle.bit_net.specs.Runs.{Grown, Gives};
ghost use Rattle.reach_net.specs.Walks.{rows_of, EachWide, gates_top, rows_top};
ghost use Rattle.reach_net.specs.Reached.{IsReached, IsWidened, IsFoundThrough, IsThrough};

use bit_net::{Gate, Net, OutOfMemory};
use gl_sets::is_never;

/// For each object a gate that holds where a walk along `points` leads to it from one of the `roots`. Row i of `points` has a
/// gate for each object that object i points to where the gate holds.
#[tactic(auto, using(crate::proofs::RowLemmas::row_laws))]
pub fn reached(
    net: &mut Net,
    points: &Vec<Vec<Gate>>,
    roots: &Vec<Gate>,
) -> Result<Vec<Gate>, OutOfMemory>
    requires count { length points.now.items ≡ length roots.now.items }
    requires wide { EachWide (length roots.now.items) (rows_of points.now.items) }
    requires points { rows_top (rows_of points.now.items) ≤ length net.old }
    requires roots { gates_top roots.now.items ≤ length net.old }
    ensures grown { Grown net.old net.new }
    ensures ok { IfOk result (λ r. IsReached net.new (rows_of points.now.items) roots.now.items r.items) }
{
    let mut rows = copies(net, points)?;
    let mut found = Vec::from_slice(net.alloc(), roots)?;
    for k in 0..roots.len() {
        let more = found_through(net, &found, &rows, k)?;
        let next = through(net, &rows, k)?;
        found = more;
        rows = next;
    }
    Ok(found)
}

/// The same rows once more.
fn copies(net: &Net, rows: &[Vec<Gate>]) -> Result<Vec<Vec<Gate>>, OutOfMemory>
    ensures { IfOk result (λ r. rows_of r.items ≡ rows_of rows.now) }
{
    let mut all = Vec::new(net.alloc());
    for row in rows {
        let same = Vec::from_slice(net.alloc(), row)?;
        all.push(same)?;
    }
    Ok(all)
}

/// The objects found so far with those added that object k points to.
fn found_through(
    net: &mut Net,
    found: &[Gate],
    rows: &[Vec<Gate>],
    k: usize,
) -> Result<Vec<Gate>, OutOfMemory>
    requires place { k < length rows.now }
    requires count { length found.now ≡ length rows.now }
    requires wide { EachWide (length rows.now) (rows_of rows.now) }
    requires found { gates_top found.now ≤ length net.old }
    requires rows { rows_top (rows_of rows.now) ≤ length net.old }
    ensures grown { Grown net.old net.new }
    ensures ok { IfOk result (λ r. IsFoundThrough net.new k (rows_of rows.now) found.now r.items) }
{
    let more = widened(net, found, k, &rows[k])?;
    Ok(more)
}

/// Every row with the objects added that it reaches by way of object k.
#[tactic(auto, using(crate::proofs::RowLemmas::row_laws))]
fn through(net: &mut Net, rows: &[Vec<Gate>], k: usize) -> Result<Vec<Vec<Gate>>, OutOfMemory>
    requires place { k < length rows.now }
    requires wide { EachWide (length rows.now) (rows_of rows.now) }
    requires below { rows_top (rows_of rows.now) ≤ length net.old }
    ensures grown { Grown net.old net.new }
    ensures ok { IfOk result (λ r. IsThrough net.new k (rows_of rows.now) (rows_of r.items)) }
{
    let mut all = Vec::new(net.alloc());
    for row in rows {
        let wider = widened(net, row, k, &rows[k])?;
        all.push(wider)?;
    }
    Ok(all)
}

/// A row with the objects added that it reaches by way of object k, whose own row is `next`.
#[tactic(auto, using(crate::proofs::RowLemmas::row_laws))]
fn widened(net: &mut Net, row: &[Gate], k: usize, next: &[Gate]) -> Result<Vec<Gate>, OutOfMemory>
    requires place { k < length row.now }
    requires wide { length next.now ≡ length row.now }
    requires row { gates_top row.now ≤ length net.old }
    requires next { gates_top next.now ≤ length net.old }
    ensures grown { Grown net.old net.new }
    ensures ok { IfOk result (λ r. IsWidened net.new k row.now next.now r.items) }
{
    if is_never(net, row[k]) {
        let same = Vec::from_slice(net.alloc(), row)?;
        return Ok(same);
    }
    let mut wider = Vec::new(net.alloc());
    for j in 0..row.len() {
        let gate = or_through(net, row[j], row[k], next[j])?;
        wider.push(gate)?;
    }
    Ok(wider)
}

/// Holds where `there` holds, or both of the others do.
fn or_through(net: &mut Net, there: Gate, to: Gate, from: Gate) -> Result<Gate, OutOfMemory>
    requires there { there.at < length net.old }
    requires to { to.at < length net.old }
    requires from { from.at < length net.old }
    ensures grown { Grown net.old net.new }
    ensures ok { IfOk result (λ r. Gives net.new r.at (λ choice v. v there.at || (v to.at && v from.at))) }
{
    let both = net.and(to, from)?;
    net.or(there, both)
}
