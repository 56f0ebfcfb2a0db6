//! The slots of a job: their numbers, and a round over them.

ghost use Rattle.std.specs.Prelude.{◌≡◌, ℕ, ◌<◌, ◌≤◌, ◌+◌, List, length, Some, None, vec_len};
ghost use lib.ListN.{get_elem?};
ghost use mathlib.Core.Option.{some};
ghost use Rattle.std.specs.List.{All};
ghost use Rattle.std.specs.Arc.{arc_value};
ghost use Rattle.summary_db.specs.Places.{takes_of, gives_of, slots_of, Rolled, Fills, Spent, Given, Anything};
ghost use Rattle.summary_db.specs.Told.{IsOutput};
ghost use Rattle.plan_core.specs.Graph.{callees};

use crate::Work;
use crate::db::Db;
use crate::pass::DbSeat;
use sc_base::RowList;
use std::sync::Arc;

impl<W: Work> Db<W> {
    /// The kept callees of a function.
    pub(crate) fn callees_of(&self, function: u32) -> &[u32]
        requires { function < length self.now.rows }
        ensures { result.now ≡ callees self.now.rows function }
    {
        self.rows.as_slice()[function as usize].as_slice()
    }

    /// The places from which a function takes, in its callees' order.
    pub(crate) fn takes(&self, function: u32) -> &[usize]
        requires { function < length self.now.rows + 1 }
        ensures { result.now ≡ takes_of self.now.rows function }
    {
        self.lay.takes[function as usize].as_slice()
    }

    /// The places to which a function gives.
    pub(crate) fn gives(&self, function: u32) -> &[usize]
        requires { function < length self.now.rows + 1 }
        ensures { result.now ≡ gives_of self.now.rows function }
    {
        self.lay.gives[function as usize].as_slice()
    }

    /// The k-th of a function's places.
    fn slot(&self, function: u32, k: usize) -> usize
        requires { (function < length self.now.rows) × (k < length (slots_of self.now.rows function)) }
        ensures { get_elem? (slots_of self.now.rows function) k ≡ some result }
    {
        let takes = self.takes(function);
        if k < takes.len() {
            takes[k]
        } else {
            let gives = self.gives(function);
            gives[k - takes.len()]
        }
    }

    /// Goes past the outputs that the job was not asked for.
    pub(crate) fn skip(&self, seat: &mut DbSeat<W>, function: u32, asked: usize)
        requires inside { (function < length self.now.rows) × (asked ≤ length (takes_of self.now.rows function)) }
        requires slots { Rolled Anything (Fills self.now.rows (IsOutput W.defined (Some self.now.table.shared.key.work.value)) function)
            (slots_of self.now.rows function) asked seat.old.me.1 }
        ensures seat { (seat.new.table_id ≡ seat.old.table_id) × (seat.new.id ≡ seat.old.id) × (seat.new.me.0 ≡ seat.old.me.0) }
        ensures slots { Rolled Anything (Fills self.now.rows (IsOutput W.defined (Some self.now.table.shared.key.work.value)) function)
            (slots_of self.now.rows function) (length (takes_of self.now.rows function)) seat.new.me.1 }
    {
        let takes = self.takes(function);
        for _k in asked..takes.len() {
            seat.turn();
        }
    }

    /// Fills the places to which the function gives.
    pub(crate) fn fill(&self, seat: &mut DbSeat<W>, function: u32, rows: RowList<W::Out>)
        requires inside { (function < length self.now.rows) × (seat.old.table_id ≡ self.now.table.shared.table_id) }
        requires slots { Rolled Anything (Fills self.now.rows (IsOutput W.defined (Some self.now.table.shared.key.work.value)) function)
            (slots_of self.now.rows function) (length (takes_of self.now.rows function)) seat.old.me.1 }
        requires count { vec_len rows.list ≡ length (gives_of self.now.rows function) }
        requires rows { All (λ row. arc_value row ≡ W.defined self.now.table.shared.key.work.value function) rows.list.items }
        ensures seat { (seat.new.table_id ≡ seat.old.table_id) × (seat.new.id ≡ seat.old.id) × (seat.new.me.0 ≡ seat.old.me.0) }
        ensures slots { Rolled Anything (Fills self.now.rows (IsOutput W.defined (Some self.now.table.shared.key.work.value)) function)
            (slots_of self.now.rows function) (length (slots_of self.now.rows function)) seat.new.me.1 }
    {
        let RowList { mut list } = rows;
        let takes = self.takes(function);
        let gives = self.gives(function);
        for k in 0..gives.len() {
            let slot = self.slot(function, takes.len() + k);
            let row = list.pop();
            self.swap(seat, slot, row);
        }
    }

    /// Empties all places of the function.
    pub(crate) fn clear(&self, seat: &mut DbSeat<W>, function: u32, asked: usize)
        requires inside { (function < length self.now.rows) × (seat.old.table_id ≡ self.now.table.shared.table_id) × (asked ≤ length
            (slots_of self.now.rows function)) }
        requires slots { Rolled Anything (λ i y. y ≡ None) (slots_of self.now.rows function) asked seat.old.me.1 }
        ensures seat { (seat.new.table_id ≡ seat.old.table_id) × (seat.new.id ≡ seat.old.id) × (seat.new.me.0 ≡ seat.old.me.0) }
        ensures slots { Rolled Anything (λ i y. y ≡ None) (slots_of self.now.rows function) (length (slots_of self.now.rows function)) seat.new.me.1 }
    {
        let takes = self.takes(function);
        let gives = self.gives(function);
        for k in asked..takes.len() + gives.len() {
            let slot = self.slot(function, k);
            self.swap(seat, slot, None);
        }
    }
}
