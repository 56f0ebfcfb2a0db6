//! A worker: it goes through the functions in rising turns until all are published or the work has
//! stopped.

ghost use Rattle.std.specs.Prelude.{◌≡◌, ℕ, ◌<◌, List, [], ◌∷◌, length, IfSome, IfNone};
ghost use Rattle.summary_db.specs.Passes.{rows_of, view, job_function, job_asked, IsPassOf, IsJobOf};
ghost use Rattle.work_pool.specs.Workers.{IsIdle, IsWorkOf, SeesOn, HasCause};
ghost use Rattle.work_pool.specs.Turns.{IsVisit, IsTurn};

use crate::gate::Gate;
use crate::row::finish;
use plan_core::Plan;
use std::alloc::Global;
use std::sync::Wait;
use std::thread;
use std::thread::Threads;
use summary_db::{Claim, Db, Job, Pass, Seen, Work};

/// Why a worker ended.
#[derive(Clone, Copy, Debug, PartialEq, Eq, Drop)]
pub enum Ended {
    /// Its pass saw every function published.
    Done,
    /// It abandoned a job for want of memory, or saw the stop word set.
    Stopped,
}

/// What became of a function in a turn.
#[derive(Drop)]
enum Visited {
    /// The worker made its output and published it.
    Made,
    /// It was published before.
    Seen,
    /// It is claimed by another worker, or waits for a callee.
    Open,
    /// A job was abandoned, by this worker or another.
    Stopped,
}

/// What became of a turn over all functions.
#[derive(Drop)]
enum TurnEnd {
    /// Every function is published.
    Done,
    /// A job was abandoned.
    Stopped,
    /// So many functions are published, and whether this worker made an output.
    Open { published: usize, made: bool },
}

/// The job of a claim of the function, where that can be claimed now.
pub(crate) fn begin<W: Work>(db: &Db<W>, pass: &mut Pass<W>, function: u32) -> Option<Job<W>>
    requires pass { IsIdle db.now pass.old }
    requires inside { function < length (rows_of db.now) }
    ensures pass { IsPassOf db.now pass.new × SeesOn (view pass.old) (view pass.new) }
    ensures claimed { IfSome result (λ job. IsJobOf W.defined db.now job × (job_function job ≡ function) × (job_asked job ≡ 0)
        × ((view pass.new).jobs ≡ function ∷ [])) }
    ensures idle { IfNone result ((view pass.new).jobs ≡ []) }
{
    match db.try_claim(pass, function) {
        Claim::Claimed(job) => Some(job),
        Claim::Taken(_) | Claim::Waiting { .. } => None,
    }
}

/// Claims the function where that can be, and publishes its output.
fn visit<W: Work, G: Gate>(
    alloc: Global,
    number: u32,
    db: &Db<W>,
    pass: &mut Pass<W>,
    function: u32,
    plan: &Plan,
    work: &W,
    gate: &G,
) -> Visited
    requires pass { IsIdle db.now pass.old }
    requires inside { function < length (rows_of db.now) }
    requires work { IsWorkOf W.rows W.defined db.now plan.now work.now }
    ensures pass { IsIdle db.now pass.new × SeesOn (view pass.old) (view pass.new) }
    ensures visit { IsVisit function (view pass.new) result }
{
    if let Seen::Yes = db.published(pass, function) {
        return Visited::Seen;
    }
    if db.stopped(pass) {
        return Visited::Stopped;
    }
    let Some(job) = begin(db, pass, function) else {
        return Visited::Open;
    };
    gate.at(number, function);
    if finish(alloc, db, pass, job, function, plan, work) {
        Visited::Made
    } else {
        Visited::Stopped
    }
}

/// Visits each function once, in order.
fn turn<W: Work, G: Gate>(
    alloc: Global,
    number: u32,
    db: &Db<W>,
    pass: &mut Pass<W>,
    plan: &Plan,
    work: &W,
    gate: &G,
) -> TurnEnd
    requires pass { IsIdle db.now pass.old }
    requires work { IsWorkOf W.rows W.defined db.now plan.now work.now }
    ensures pass { IsIdle db.now pass.new }
    ensures turn { IsTurn (length (rows_of db.now)) (view pass.new) result }
{
    let mut published = 0;
    let mut made = false;
    for function in 0..plan.len() {
        match visit(alloc, number, db, pass, function as u32, plan, work, gate) {
            Visited::Made => {
                published += 1;
                made = true;
            }
            Visited::Seen => published += 1,
            Visited::Open => {}
            Visited::Stopped => return TurnEnd::Stopped,
        }
    }
    if published == plan.len() {
        TurnEnd::Done
    } else {
        TurnEnd::Open { published, made }
    }
}

/// Works on the database with this pass until it saw every function published, or until it
/// abandoned a job or saw that one was abandoned. A turn without a claim or a newly seen publication
/// is followed by a yield to other threads. `number` is what the gate is told.
///
/// It may wait for ever for a function that another worker has claimed: what is said of its result
/// holds if it returns.
pub fn worker<R: Threads + Wait + Sync, W: Work + Sync, G: Gate + Sync>(
    rt: &R,
    alloc: Global,
    number: u32,
    db: &Db<W>,
    pass: Pass<W>,
    plan: &Plan,
    work: &W,
    gate: &G,
) -> (Pass<W>, Ended)
    requires pass { IsIdle db.now pass }
    requires work { IsWorkOf W.rows W.defined db.now plan.now work.now }
    ensures pass { IsIdle db.now result.0 }
    ensures ended { HasCause (length (rows_of db.now)) result.0 result.1 }
{
    let mut pass = pass;
    let mut known = 0;
    for _ in rt.forever() {
        match turn(alloc, number, db, &mut pass, plan, work, gate) {
            TurnEnd::Done => return (pass, Ended::Done),
            TurnEnd::Stopped => return (pass, Ended::Stopped),
            TurnEnd::Open { published, made } => {
                if !made && published == known {
                    thread::yield_now();
                }
                known = published;
            }
        }
    }
    unreachable!()
}
