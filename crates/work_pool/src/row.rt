//! What a worker does with a job: it asks for the outputs of the callees, makes the function's
//! output, and shares it as often as it is wanted.

ghost use Rattle.std.specs.Prelude.{◌≡◌, ◌<◌, ◌+◌, [], ◌∷◌, length, map, true, false, vec_len, IfOk};
ghost use Rattle.std.specs.List.{All};
ghost use Rattle.std.specs.Arc.{arc_value};
ghost use Rattle.plan_core.specs.Graph.{callees};
ghost use Rattle.summary_db.specs.Views.{member};
ghost use Rattle.summary_db.specs.Places.{callers};
ghost use Rattle.summary_db.specs.Passes.{rows_of, work_of, view, job_view, job_function, job_asked, IsPassOf, IsJobOf};
ghost use Rattle.work_pool.specs.Workers.{IsIdle, IsWorkOf, SeesOn};

use crate::outputs::copied;
use plan_core::Plan;
use sc_base::{OutOfMemory, RowList};
use std::alloc::Global;
use std::sync::Arc;
use summary_db::{Db, Job, Pass, Work};

/// The outputs of the kept callees of the job's function, in order.
fn given<W: Work>(
    alloc: Global,
    db: &Db<W>,
    job: &mut Job<W>,
    function: u32,
    count: usize,
) -> Result<RowList<W::Out>, OutOfMemory>
    requires job { IsJobOf W.defined db.now job.old × (job_function job.old ≡ function) × (job_asked job.old ≡ 0) }
    requires count { count ≡ length (callees (rows_of db.now) function) }
    ensures job { IsJobOf W.defined db.now job.new × (job_function job.new ≡ function) × (job_view job.new ≡ job_view job.old) }
    ensures given { IfOk result (λ outputs. map arc_value outputs.list.items ≡ map (W.defined (work_of db.now)) (callees (rows_of db.now) function)) }
{
    let mut list = Vec::new(alloc);
    for k in 0..count {
        list.push(db.callee(job, k))?;
    }
    Ok(RowList { list })
}

/// The output of the job's function, as often as the job wants it.
fn rows<W: Work>(
    alloc: Global,
    db: &Db<W>,
    job: &mut Job<W>,
    function: u32,
    plan: &Plan,
    work: &W,
) -> Result<RowList<W::Out>, OutOfMemory>
    requires job { IsJobOf W.defined db.now job.old × (job_function job.old ≡ function) × (job_asked job.old ≡ 0) }
    requires inside { function < length (rows_of db.now) }
    requires work { IsWorkOf W.rows W.defined db.now plan.now work.now }
    ensures job { IsJobOf W.defined db.now job.new × (job_function job.new ≡ function) × (job_view job.new ≡ job_view job.old) }
    ensures count { IfOk result (λ rows. vec_len rows.list ≡ callers (rows_of db.now) function + 1) }
    ensures rows { IfOk result (λ rows. All (λ row. arc_value row ≡ W.defined (work_of db.now) function) rows.list.items) }
{
    let count = plan.callees_of(function).len();
    let given = given(alloc, db, job, function, count)?;
    let output = Arc::new(alloc, work.row(function, &given)?)?;
    copied(alloc, &output, db.copies(job))
}

/// Makes the output of the job's function and publishes it. Where memory is refused the job is
/// abandoned, which sets the stop word, and the answer is false.
pub(crate) fn finish<W: Work>(
    alloc: Global,
    db: &Db<W>,
    pass: &mut Pass<W>,
    job: Job<W>,
    function: u32,
    plan: &Plan,
    work: &W,
) -> bool
    requires pass { IsPassOf db.now pass.old × ((view pass.old).jobs ≡ function ∷ []) }
    requires job { IsJobOf W.defined db.now job × (job_function job ≡ function) × (job_asked job ≡ 0) }
    requires work { IsWorkOf W.rows W.defined db.now plan.now work.now }
    ensures pass { IsIdle db.now pass.new × SeesOn (view pass.old) (view pass.new) }
    ensures published { result ≡ true → member function (view pass.new).seen ≡ true }
    ensures abandoned { result ≡ false → (view pass.new).stopped ≡ true }
{
    let mut job = job;
    match rows(alloc, db, &mut job, function, plan, work) {
        Ok(rows) => {
            db.publish(pass, job, rows);
            true
        }
        Err(OutOfMemory) => {
            db.abandon(pass, job);
            false
        }
    }
}
