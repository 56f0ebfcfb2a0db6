//! The calls of a database, one after another. Two passes share a plan of two functions, of which 1
//! calls 0.

ghost use Rattle.std.specs.Prelude.{◌≡◌, ◌<◌, length, true, vec_len, IfOk, OnOk, IsTrue};
ghost use Rattle.std.specs.List.{All};
ghost use Rattle.std.specs.Arc.{arc_value};
ghost use Rattle.plan_core.specs.Graph.{IsPlan, callees};
ghost use Rattle.summary_db.specs.Views.{member};
ghost use Rattle.summary_db.specs.Passes.{rows_of, work_of, view, job_function, job_asked, IsPassOf, IsJobOf};

use crate::odd::{Odd, RUNS, plan, work_of};
use plan_core::Plan;
use sc_base::{OutOfMemory, RowList};
use std::alloc::Global;
use std::process::Abort;
use std::sync::Arc;
use summary_db::{Claim, Db, Job, Pass, Seen, Work};

/// A database of the plan, and its two passes.
fn two_passes<R: Abort>(
    rt: &R,
    alloc: Global,
    plan: &Plan,
    work: &Odd,
) -> Result<(Db<Odd>, Pass<Odd>, Pass<Odd>), OutOfMemory>
    requires { IsPlan plan.now.callees × (work.now.plan.value ≡ plan.now) }
    ensures functions { IfOk result (λ r. length (rows_of r.0) ≡ 2) }
    ensures passes { IfOk result (λ r. IsPassOf r.0 r.1 × IsPassOf r.0 r.2) }
{
    assert!(rt; plan.len() == 2);
    let (db, mut passes) = Db::new(alloc, plan, work, 2)?;
    assert!(rt; passes.len() == 2);
    let b = passes.pop().unwrap();
    let a = passes.pop().unwrap();
    Ok((db, a, b))
}

/// The job of a function that the pass can claim.
fn claimed<R: Abort, W: Work>(rt: &R, db: &Db<W>, pass: &mut Pass<W>, function: u32) -> Job<W>
    requires pass { IsPassOf db.now pass.old }
    requires inside { function < length (rows_of db.now) }
    ensures pass { IsPassOf db.now pass.new × (member function (view pass.new).jobs ≡ true) }
    ensures job { IsJobOf W.defined db.now result × (job_function result ≡ function) × (job_asked result ≡ 0) }
{
    match db.try_claim(pass, function) {
        Claim::Claimed(job) => job,
        Claim::Taken(_) | Claim::Waiting { .. } => panic!(rt; "the function can be claimed"),
    }
}

/// So many owners of one output.
fn owners<O: Drop>(alloc: Global, output: &Arc<O>, count: usize) -> Result<RowList<O>, OutOfMemory>
    ensures count { IfOk result (λ rows. vec_len rows.list ≡ count) }
    ensures rows { IfOk result (λ rows. All (λ row. arc_value row ≡ arc_value output.now) rows.list.items) }
{
    let mut list = Vec::new(alloc);
    for _turn in 0..count {
        list.push(Arc::try_clone(output)?)?;
    }
    Ok(RowList { list })
}

/// Publishes the job's function with this output.
fn publish<W: Work>(
    alloc: Global,
    db: &Db<W>,
    pass: &mut Pass<W>,
    job: Job<W>,
    output: W::Out,
) -> Result<(), OutOfMemory>
    requires pass { IsPassOf db.now pass.old }
    requires job { IsJobOf W.defined db.now job × (member (job_function job) (view pass.old).jobs ≡ true) }
    requires output { W.defined (work_of db.now) (job_function job) ≡ output }
    ensures pass { OnOk result (IsPassOf db.now pass.new) }
{
    let rows = owners(alloc, &Arc::new(alloc, output)?, db.copies(&job))?;
    db.publish(pass, job, rows);
    Ok(())
}

/// Whether the word of a function is found that it cannot be claimed for.
fn is_taken(db: &Db<Odd>, pass: &mut Pass<Odd>, function: u32, word: u64) -> bool
    requires pass { IsPassOf db.now pass.old }
    requires inside { function < length (rows_of db.now) }
    ensures { IsPassOf db.now pass.new }
{
    match db.try_claim(pass, function) {
        Claim::Taken(found) => found == word,
        Claim::Claimed(_) | Claim::Waiting { .. } => false,
    }
}

/// Whether 1 waits for 0, whose word is this.
fn is_waiting(db: &Db<Odd>, pass: &mut Pass<Odd>, word: u64) -> bool
    requires pass { IsPassOf db.now pass.old }
    requires functions { length (rows_of db.now) ≡ 2 }
    ensures pass { IsPassOf db.now pass.new }
    ensures callee { IsTrue result → member 0 (callees (rows_of db.now) 1) ≡ true }
{
    match db.try_claim(pass, 1) {
        Claim::Waiting { callee: 0, found } => found == word,
        Claim::Waiting { .. } | Claim::Claimed(_) | Claim::Taken(_) => false,
    }
}

/// One pass claims and publishes 0; the other one finds that each time.
fn first_is_published<R: Abort>(
    rt: &R,
    alloc: Global,
    db: &Db<Odd>,
    a: &mut Pass<Odd>,
    b: &mut Pass<Odd>,
) -> Result<bool, OutOfMemory>
    requires passes { IsPassOf db.now a.old × IsPassOf db.now b.old }
    requires functions { length (rows_of db.now) ≡ 2 }
    ensures passes { OnOk result (IsPassOf db.now a.new × IsPassOf db.now b.new) }
    ensures callee { IfOk result (λ r. IsTrue r → member 0 (callees (rows_of db.now) 1) ≡ true) }
{
    let waits_for_a_free_one = is_waiting(db, b, 0);
    let job = claimed(rt, db, a, 0);
    let is_claimed = is_taken(db, b, 0, 1);
    let waits_for_a_claimed_one = is_waiting(db, b, 1);
    let copies = db.copies(&job);
    publish(alloc, db, a, job, 1)?;
    let is_published = is_taken(db, b, 0, 2);
    Ok(waits_for_a_free_one && is_claimed && waits_for_a_claimed_one && copies == 2 && is_published)
}

/// The other pass then claims 1, has the output of 0, and publishes 1.
fn second_is_published<R: Abort>(
    rt: &R,
    alloc: Global,
    db: &Db<Odd>,
    a: &mut Pass<Odd>,
    b: &mut Pass<Odd>,
) -> Result<bool, OutOfMemory>
    requires passes { IsPassOf db.now a.old × IsPassOf db.now b.old }
    requires functions { length (rows_of db.now) ≡ 2 }
    requires callee { member 0 (callees (rows_of db.now) 1) ≡ true }
    ensures passes { OnOk result (IsPassOf db.now a.new × IsPassOf db.now b.new) }
{
    let mut job = claimed(rt, db, b, 1);
    let given = *db.callee(&mut job, 0);
    let seen = db.published(a, 1);
    publish(alloc, db, b, job, 3)?;
    Ok(given == 1 && seen == Seen::No(1))
}

/// A pass waits for a callee until that is published, and finds what the other pass has claimed.
fn claims_in_order<R: Abort>(
    rt: &R,
    alloc: Global,
    plan: &Plan,
    work: &Odd,
) -> Result<bool, OutOfMemory>
    requires { IsPlan plan.now.callees × (work.now.plan.value ≡ plan.now) }
{
    let (db, mut a, mut b) = two_passes(rt, alloc, plan, work)?;
    if !first_is_published(rt, alloc, &db, &mut a, &mut b)? {
        return Ok(false);
    }
    let second = second_is_published(rt, alloc, &db, &mut a, &mut b)?;
    db.join(&mut a, b);
    let mut closed = db.close(a);
    let output = closed.take(1);
    Ok(second && matches!(&output, Some(output) if **output == 3) && closed.take(1).is_none())
}

fn claims_in_order_each_time<R: Abort>(rt: &R, alloc: Global) -> Result<bool, OutOfMemory> {
    let plan = plan(rt, alloc, 2, true, false)?;
    let work = work_of(&plan);
    for _run in 0..RUNS {
        if !claims_in_order(rt, alloc, &plan, &work)? {
            return Ok(false);
        }
    }
    Ok(true)
}

#[test]
fn a_claim_waits_for_its_callee(rt: HostRuntime) {
    assert!(rt; claims_in_order_each_time(&rt, rt.alloc()) == Ok(true));
}

/// A pass finds that the other one abandoned 0.
fn finds_an_abandoned_function<R: Abort>(
    rt: &R,
    db: &Db<Odd>,
    a: &mut Pass<Odd>,
    b: &mut Pass<Odd>,
) -> bool
    requires passes { IsPassOf db.now a.old × IsPassOf db.now b.old }
    requires functions { length (rows_of db.now) ≡ 2 }
{
    let stopped_before = db.stopped(b);
    let job = claimed(rt, db, a, 0);
    db.abandon(a, job);
    let stopped = db.stopped(b);
    let is_claimed = is_taken(db, b, 0, 1);
    let waits = is_waiting(db, b, 1);
    !stopped_before && stopped && is_claimed && waits
}

fn is_stopped<R: Abort>(rt: &R, alloc: Global, plan: &Plan, work: &Odd) -> Result<bool, OutOfMemory>
    requires { IsPlan plan.now.callees × (work.now.plan.value ≡ plan.now) }
{
    let (db, mut a, mut b) = two_passes(rt, alloc, plan, work)?;
    Ok(finds_an_abandoned_function(rt, &db, &mut a, &mut b))
}

fn is_stopped_each_time<R: Abort>(rt: &R, alloc: Global) -> Result<bool, OutOfMemory> {
    let plan = plan(rt, alloc, 2, true, false)?;
    let work = work_of(&plan);
    for _run in 0..RUNS {
        if !is_stopped(rt, alloc, &plan, &work)? {
            return Ok(false);
        }
    }
    Ok(true)
}

#[test]
fn an_abandoned_function_stops_the_other_pass(rt: HostRuntime) {
    assert!(rt; is_stopped_each_time(&rt, rt.alloc()) == Ok(true));
}
