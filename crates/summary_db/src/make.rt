//! How a database begins, and how it ends.

ghost use Rattle.std.specs.Prelude.{◌≡◌, ℕ, ◌<◌, ◌≤◌, ◌+◌, ◌^◌, List, [], length, true, Some, None, IfOk, vec_len, replicate};
ghost use Rattle.std.specs.List.{All};
ghost use Rattle.plan_core.specs.Graph.{IsPlan};
ghost use Rattle.summary_db.specs.Views.{member, fresh};
ghost use Rattle.summary_db.specs.Ends.{outputs, output_at, closing_pass};
ghost use Rattle.summary_db.specs.Told.{IsOutput};
ghost use Rattle.summary_db.specs.Passes.{rows_of, work_of, view, IsPassOf};

use crate::closed::{Closed, drain};
use crate::db::Db;
use crate::lay::Lay;
use crate::pass::DbSeat;
use crate::rule::About;
use crate::{Pass, Work};
use atomic_table::Table;
use plan_core::Plan;
use sc_base::{List, OutOfMemory};
use std::alloc::Global;
use std::snapshot::Snapshot;
use std::sync::Arc;

/// The same rows once more.
fn copied(alloc: Global, rows: &List<List<u32>>) -> Result<List<List<u32>>, OutOfMemory>
    ensures { IfOk result (λ copy. copy ≡ rows.now) }
{
    let mut copy = List::new(alloc);
    let all = rows.as_slice();
    for row in all {
        copy.push(List::from_vec(Vec::from_slice(alloc, row.as_slice())?))?;
    }
    Ok(copy)
}

/// So many free words.
fn zeros(alloc: Global, count: usize) -> Result<Vec<u64>, OutOfMemory>
    ensures { IfOk result (λ words. words.items ≡ replicate count 0) }
{
    Ok(vec![in alloc; 0u64; count]?)
}

/// What the table is told: the plan and the work.
fn about<W>(plan: &Plan, work: &W) -> About<W>
    ensures { (result.plan.value ≡ plan.now) × (result.work.value ≡ work.now) }
{
    About {
        plan: Snapshot::of(plan),
        work: Snapshot::of(work),
    }
}

/// Room for so many outputs.
fn empty<O: Drop>(alloc: Global, count: usize) -> Result<Vec<Option<Arc<O>>>, OutOfMemory>
    ensures { IfOk result (λ room. vec_len room ≡ count) }
{
    let mut room = Vec::new(alloc);
    for _turn in 0..count {
        room.push(None)?;
    }
    Ok(room)
}

impl<W: Work> Db<W> {
    /// The passes of a new database.
    fn passes(
        &self,
        alloc: Global,
        seat: DbSeat<W>,
        count: u32,
    ) -> Result<Vec<Pass<W>>, OutOfMemory>
        requires { (0 < count) × (seat.table_id ≡ self.now.table.shared.table_id) × (seat.me ≡ (fresh (rows_of self.now) (Some (work_of self.now)), [])) }
        ensures { IfOk result (λ all. (vec_len all ≡ count) × All (λ pass. IsPassOf self.now pass
            × (view pass ≡ fresh (rows_of self.now) (Some (work_of self.now)))) all.items) }
    {
        let mut seat = seat;
        let mut all = Vec::new(alloc);
        for _turn in 1..count {
            let other = self.cut(&mut seat);
            all.push(Pass { seat: other })?;
        }
        all.push(Pass { seat })?;
        Ok(all)
    }

    /// A database of the plan and the work in which no function is claimed, and so many passes.
    pub fn new(
        alloc: Global,
        plan: &Plan,
        work: &W,
        passes: u32,
    ) -> Result<(Db<W>, Vec<Pass<W>>), OutOfMemory>
        requires plan { IsPlan plan.now.callees × (W.rows work.now ≡ plan.now.callees) }
        requires passes { (0 < passes) × (passes ≤ 64) }
        ensures db { IfOk result (λ r. (rows_of r.0 ≡ plan.now.callees) × (work_of r.0 ≡ work.now)) }
        ensures passes { IfOk result (λ r. (vec_len r.1 ≡ passes) × All (λ pass. IsPassOf r.0 pass
            × (view pass ≡ fresh plan.now.callees (Some work.now))) r.1.items) }
    {
        let rows = copied(alloc, &plan.callees)?;
        let lay = Lay::new(alloc, &rows)?;
        let room = empty(alloc, rows.len())?;
        let words = zeros(alloc, rows.len() + 1)?;
        let about = about(plan, work);
        let (table, seat) = Table::vacant(alloc, words.as_slice(), lay.count, &about)?;
        let db = Db {
            table,
            rows,
            lay,
            room,
        };
        let all = db.passes(alloc, seat, passes)?;
        Ok((db, all))
    }

    /// Closes the database. The outputs of all functions that the pass saw published can be taken
    /// from what is left.
    pub fn close(self, pass: Pass<W>) -> Closed<W>
        requires { IsPassOf self pass }
        ensures pass { closing_pass result ≡ pass }
        ensures count { length (outputs result) ≡ length (rows_of self) }
        ensures outputs { (f : ℕ) → f < length (rows_of self) → member f (view pass).seen ≡ true
            → IsOutput W.defined (Some (work_of self)) f (output_at result f) }
    {
        let Db {
            table,
            rows,
            lay,
            room,
        } = self;
        let closing = Snapshot::of(&pass);
        let Pass { seat } = pass;
        let first = lay.count - rows.len();
        let closed = table.close_with(seat);
        Closed {
            outputs: drain(closed, first, room),
            pass: closing,
        }
    }
}
