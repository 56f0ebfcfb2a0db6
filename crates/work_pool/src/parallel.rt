//! All outputs of a work by several workers.

ghost use Rattle.std.specs.Prelude.{◌≡◌, ℕ, ◌<◌, ◌≤◌, ◌^◌, length, map, vec_len, IfOk, IfSome, Some};
ghost use Rattle.std.specs.List.{All};
ghost use Rattle.std.specs.Arc.{arc_value};
ghost use Rattle.std.specs.Thread.{IsSync};
ghost use Rattle.plan_core.specs.Graph.{IsPlan};
ghost use Rattle.summary_db.specs.Ends.{outputs, output_at, closing_pass};
ghost use Rattle.summary_db.specs.Told.{IsOutput};
ghost use Rattle.summary_db.specs.Passes.{rows_of, work_of, view};
ghost use Rattle.work_pool.specs.Outputs.{outputs_of};
ghost use Rattle.work_pool.specs.Workers.{IsIdle, IsWorkOf, SawAll, HasCause};

use crate::gate::Gate;
use crate::turns::{Ended, worker};
use plan_core::Plan;
use sc_base::{OutOfMemory, RowList};
use std::alloc::Global;
use std::sync::Wait;
use std::thread;
use std::thread::Threads;
use summary_db::{Closed, Db, Pass, Work};

/// What a run leaves: every output, in order, and the database, closed by a pass that saw every
/// function published. The outputs were taken from it.
#[derive(Drop)]
pub struct Ran<W: Work> {
    /// Every output, in order.
    pub rows: RowList<W::Out>,
    /// What is left of the database.
    pub closed: Closed<W>,
}

/// A worker's number and its pass.
#[derive(Drop)]
struct Desk<W: Work> {
    number: u32,
    pass: Pass<W>,
}

/// The passes with their workers' numbers. Worker 0 comes last, since the last job of `map_vec` is
/// the one that the calling thread runs.
fn numbered<W: Work>(
    alloc: Global,
    db: &Db<W>,
    passes: Vec<Pass<W>>,
) -> Result<Vec<Desk<W>>, OutOfMemory>
    requires few { vec_len passes ≤ 64 }
    requires idle { All (IsIdle db.now) passes.items }
    ensures count { IfOk result (λ desks. vec_len desks ≡ vec_len passes) }
    ensures idle { IfOk result (λ desks. All (λ desk. IsIdle db.now desk.pass) desks.items) }
{
    let _ = db;
    let mut passes = passes;
    let mut desks = Vec::new(alloc);
    while let Some(pass) = passes.pop() {
        let number = passes.len() as u32;
        desks.push(Desk { number, pass })?;
    }
    Ok(desks)
}

/// Runs a worker for each desk, side by side where the runtime can.
fn workers<R: Threads + Wait + Sync, W: Work + Sync, G: Gate + Sync>(
    rt: &R,
    alloc: Global,
    db: &Db<W>,
    desks: Vec<Desk<W>>,
    plan: &Plan,
    work: &W,
    gate: &G,
) -> Result<Vec<(Pass<W>, Ended)>, OutOfMemory>
    requires desks { All (λ desk. IsIdle db.now desk.pass) desks.items }
    requires work { IsWorkOf W.rows W.defined db.now plan.now work.now }
    ensures count { IfOk result (λ ended. vec_len ended ≡ vec_len desks) }
    ensures ended { IfOk result (λ ended. All (λ e. IsIdle db.now e.0 × HasCause (length (rows_of db.now)) e.0 e.1) ended.items) }
{
    let ended = thread::map_vec(
        rt,
        desks,
        &|desk: Desk<W>| -> (Pass<W>, Ended)
            requires { IsSync R.row × IsIdle db.now desk.pass × IsWorkOf W.rows W.defined db.now plan.now work.now }
            ensures { IsIdle db.entry.now result.0 × HasCause (length (rows_of db.entry.now)) result.0 result.1 }
        {
            let Desk { number, pass } = desk;
            worker(rt, alloc, number, db, pass, plan, work, gate)
        },
    )?;
    Ok(ended)
}

/// Joins the other passes into one that saw every function published. None where a worker stopped.
fn joined<W: Work>(db: &Db<W>, first: Pass<W>, ended: Vec<(Pass<W>, Ended)>) -> Option<Pass<W>>
    requires first { IsIdle db.now first × SawAll (length (rows_of db.now)) (view first) }
    requires ended { All (λ e. IsIdle db.now e.0 × HasCause (length (rows_of db.now)) e.0 e.1) ended.items }
    ensures { IfSome result (λ pass. IsIdle db.now pass × SawAll (length (rows_of db.now)) (view pass)) }
{
    let mut pass = first;
    let mut ended = ended;
    while let Some((other, end)) = ended.pop() {
        match end {
            Ended::Done => db.join(&mut pass, other),
            Ended::Stopped => return None,
        }
    }
    Some(pass)
}

/// One pass for all workers, which saw every function published. None where a worker stopped.
fn closing<W: Work>(db: &Db<W>, ended: Vec<(Pass<W>, Ended)>) -> Option<Pass<W>>
    requires { All (λ e. IsIdle db.now e.0 × HasCause (length (rows_of db.now)) e.0 e.1) ended.items }
    ensures { IfSome result (λ pass. IsIdle db.now pass × SawAll (length (rows_of db.now)) (view pass)) }
{
    let mut ended = ended;
    match ended.pop() {
        Some((first, Ended::Done)) => joined(db, first, ended),
        Some((_, Ended::Stopped)) | None => None,
    }
}

/// Takes the outputs of all functions.
fn taken<W: Work>(
    alloc: Global,
    closed: &mut Closed<W>,
    work: &W,
    count: usize,
) -> Result<RowList<W::Out>, OutOfMemory>
    requires count { (count ≡ length (outputs closed.old)) × (count < 2 ^ 32) }
    requires outputs { (f : ℕ) → f < count → IsOutput W.defined (Some work.now) f (output_at closed.old f) }
    ensures pass { closing_pass closed.new ≡ closing_pass closed.old }
    ensures outputs { IfOk result (λ rows. map arc_value rows.list.items ≡ outputs_of (W.defined work.now) count) }
{
    let mut list = Vec::new(alloc);
    for function in 0..count {
        list.push(closed.take(function as u32).unwrap())?;
    }
    Ok(RowList { list })
}

/// Every output of the work, in order, made by `jobs` workers that share a database; the calling
/// thread is one of them. The outputs are those of `run_alone`, whatever the number of jobs. Where no
/// further thread can be made, the workers run one after another.
///
/// It may wait for ever: what is said of its result holds if it returns.
///
/// # Errors
///
/// OutOfMemory: a list, a shared output or the work was refused memory. All workers stop then.
pub fn run_all<R: Threads + Wait + Sync, W: Work + Sync, G: Gate + Sync>(
    rt: &R,
    alloc: Global,
    work: &W,
    plan: &Plan,
    jobs: u32,
    gate: &G,
) -> Result<Ran<W>, OutOfMemory>
    requires plan { IsPlan plan.now.callees × (W.rows work.now ≡ plan.now.callees) }
    requires jobs { (0 < jobs) × (jobs ≤ 64) }
    ensures rows { IfOk result (λ ran. map arc_value ran.rows.list.items ≡ outputs_of (W.defined work.now) (length plan.now.callees)) }
    ensures closed { IfOk result (λ ran. SawAll (length plan.now.callees) (view (closing_pass ran.closed))) }
{
    let (db, passes) = Db::new(alloc, plan, work, jobs)?;
    let desks = numbered(alloc, &db, passes)?;
    let ended = workers(rt, alloc, &db, desks, plan, work, gate)?;
    let Some(pass) = closing(&db, ended) else {
        return Err(OutOfMemory);
    };
    let mut closed = db.close(pass);
    let rows = taken(alloc, &mut closed, work, plan.len())?;
    Ok(Ran { rows, closed })
}
