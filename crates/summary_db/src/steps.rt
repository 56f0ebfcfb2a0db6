//! The steps on the words and the slots of the table, one function each.

ghost use Rattle.std.specs.Prelude.{◌≡◌, ℕ, ◌<◌, ◌+◌, List, [], ◌∷◌, length, true, Some, None};
ghost use Rattle.atomic_table.specs.Table.{rest, turned};
ghost use Rattle.plan_core.specs.Graph.{callees};
ghost use Rattle.summary_db.specs.Views.{member, looked, heard, put, left, opens, starts, both, ends, fresh};
ghost use Rattle.summary_db.specs.Places.{Holds, Fills, slots_of};
ghost use Rattle.summary_db.specs.Told.{Claims, IsOutput};

use crate::Work;
use crate::db::Db;
use crate::pass::DbSeat;
use crate::rule::{Begin, Both, Cut, End, Hear, Leave, Look, Put, Take};
use std::sync::Arc;

impl<W: Work> Db<W> {
    /// Loads a function's word.
    pub(crate) fn look(&self, seat: &mut DbSeat<W>, function: u32) -> u64
        requires { (seat.old.table_id ≡ self.now.table.shared.table_id) × (function < length self.now.rows) }
        ensures seat { (seat.new.table_id ≡ seat.old.table_id) × (seat.new.id ≡ seat.old.id) ×
            (seat.new.me ≡ (looked function result seat.old.me.0, seat.old.me.1)) }
        ensures word { result < 3 }
    {
        self.table.shared.load::<Look>(seat, function as usize)
    }

    /// Loads the stop word.
    pub(crate) fn hear(&self, seat: &mut DbSeat<W>) -> u64
        requires { seat.old.table_id ≡ self.now.table.shared.table_id }
        ensures seat { (seat.new.table_id ≡ seat.old.table_id) × (seat.new.id ≡ seat.old.id) ×
            (seat.new.me ≡ (heard (length self.now.rows) result seat.old.me.0, seat.old.me.1)) }
        ensures word { result < 2 }
    {
        self.table.shared.load::<Hear>(seat, self.rows.len())
    }

    /// Exchanges a function's word from 0 to 1. Where that applied, the seat has the function's
    /// slots.
    pub(crate) fn take_word(&self, seat: &mut DbSeat<W>, function: u32) -> u64
        requires seat { (seat.old.table_id ≡ self.now.table.shared.table_id) × (function < length self.now.rows) }
        requires key { (seat.old.me.0.rows ≡ self.now.rows) × (seat.old.me.0.work ≡ Some self.now.table.shared.key.work.value) }
        requires seen { (g : ℕ) → member g (callees self.now.rows function) ≡ true → member g seat.old.me.0.seen ≡ true }
        ensures seat { (seat.new.table_id ≡ seat.old.table_id) × (seat.new.id ≡ seat.old.id) }
        ensures claims { Claims W.defined function result seat.old.me seat.new.me }
    {
        self.table
            .shared
            .compare_exchange::<Take<W>>(seat, function as usize, 0, 1)
    }

    /// Exchanges the word of a claimed function from 1 to 2. The function's slots come home.
    pub(crate) fn put_word(&self, seat: &mut DbSeat<W>, function: u32)
        requires seat { (seat.old.table_id ≡ self.now.table.shared.table_id) × (function < length self.now.rows) }
        requires claim { member function seat.old.me.0.claims ≡ true }
        requires full { Holds (Fills self.now.rows (IsOutput W.defined (Some self.now.table.shared.key.work.value)) function)
            (slots_of self.now.rows function) seat.old.me.1 }
        ensures { (seat.new.table_id ≡ seat.old.table_id) × (seat.new.id ≡ seat.old.id) × (seat.new.me ≡ (put function seat.old.me.0, [])) }
    {
        self.table
            .shared
            .compare_exchange::<Put>(seat, function as usize, 1, 2);
    }

    /// Sets the stop word. The slots of the function that the seat found last come home empty.
    pub(crate) fn leave(&self, seat: &mut DbSeat<W>)
        requires seat { seat.old.table_id ≡ self.now.table.shared.table_id }
        requires claim { member seat.old.me.0.place seat.old.me.0.claims ≡ true }
        requires empty { Holds (λ i y. y ≡ None) (slots_of self.now.rows seat.old.me.0.place) seat.old.me.1 }
        ensures { (seat.new.table_id ≡ seat.old.table_id) × (seat.new.id ≡ seat.old.id) × (seat.new.me ≡ (left seat.old.me.0.place seat.old.me.0, [])) }
    {
        self.table.shared.store::<Leave>(seat, self.rows.len(), 1);
    }

    /// Cuts off the seat of a job.
    pub(crate) fn begin(&self, seat: &mut DbSeat<W>) -> DbSeat<W>
        requires { seat.old.table_id ≡ self.now.table.shared.table_id }
        ensures pass { (seat.new.table_id ≡ seat.old.table_id) × (seat.new.id ≡ seat.old.id) × (seat.new.me ≡ (opens seat.old.me.0, seat.old.me.1)) }
        ensures job { (result.table_id ≡ seat.old.table_id) × (result.me ≡ (starts seat.old.me.0, [])) }
    {
        self.table.shared.split_seat::<Begin>(seat)
    }

    /// Cuts off the seat of a pass that stands for nothing yet.
    pub(crate) fn cut(&self, seat: &mut DbSeat<W>) -> DbSeat<W>
        requires { seat.old.table_id ≡ self.now.table.shared.table_id }
        ensures pass { (seat.new.table_id ≡ seat.old.table_id) × (seat.new.id ≡ seat.old.id) × (seat.new.me ≡ seat.old.me) }
        ensures other { (result.table_id ≡ seat.old.table_id) × (result.me ≡ (fresh seat.old.me.0.rows seat.old.me.0.work, [])) }
    {
        self.table.shared.split_seat::<Cut>(seat)
    }

    /// Takes in the seat of a job that has ended.
    pub(crate) fn end(&self, seat: &mut DbSeat<W>, job: DbSeat<W>)
        requires { (seat.old.table_id ≡ self.now.table.shared.table_id) × (job.table_id ≡ self.now.table.shared.table_id) × (job.me.1 ≡ []) }
        ensures { (seat.new.table_id ≡ seat.old.table_id) × (seat.new.id ≡ seat.old.id) × (seat.new.me ≡ (ends seat.old.me.0 job.me.0, seat.old.me.1)) }
    {
        self.table.shared.join_seat::<End>(seat, job)
    }

    /// Takes in the seat of another pass.
    pub(crate) fn unite(&self, seat: &mut DbSeat<W>, other: DbSeat<W>)
        requires { (seat.old.table_id ≡ self.now.table.shared.table_id) × (other.table_id ≡ self.now.table.shared.table_id)
            × (other.me.1 ≡ []) }
        ensures { (seat.new.table_id ≡ seat.old.table_id) × (seat.new.id ≡ seat.old.id)
            × (seat.new.me ≡ (both seat.old.me.0 other.me.0, seat.old.me.1)) }
    {
        self.table.shared.join_seat::<Both>(seat, other)
    }

    /// Exchanges what lies in the slot that the seat has first, which goes behind the others.
    pub(crate) fn swap(
        &self,
        seat: &mut DbSeat<W>,
        slot: usize,
        new: Option<Arc<W::Out>>,
    ) -> Option<Arc<W::Out>>
        requires { (seat.old.table_id ≡ self.now.table.shared.table_id) × ((old : _) × (seat.old.me.1 ≡ (slot, old) ∷ rest seat.old.me.1)) }
        ensures seat { (seat.new.table_id ≡ seat.old.table_id) × (seat.new.id ≡ seat.old.id) ×
            (seat.new.me ≡ (seat.old.me.0, turned ((slot, new) ∷ rest seat.old.me.1))) }
        ensures old { seat.old.me.1 ≡ (slot, result) ∷ rest seat.old.me.1 }
    {
        let old = self.table.shared.exchange(seat, slot, new);
        seat.turn();
        old
    }
}
