//! What is left of a database that was closed: the results.

ghost use Rattle.std.specs.Prelude.{◌≡◌, ℕ, ◌<◌, ◌+◌, length, slice_set, slice_index_or, vec_len, None};
ghost use Rattle.std.specs.Slots.{slots_items, slots_len, slots_filled, IsFull};
ghost use lib.ListN.{get_elem?};
ghost use mathlib.Core.Option.{some};
ghost use Rattle.summary_db.specs.Ends.{outputs, output_at, closing_pass};

use crate::{Pass, Work};
use std::alloc::Global;
use std::snapshot::Snapshot;
use std::sync::Arc;

/// Takes the value of each slot, and puts those from `first` on into the room.
pub(crate) fn drain<O: Drop>(
    closed: atomic_table::Closed<Option<Arc<O>>, Global>,
    first: usize,
    room: Vec<Option<Arc<O>>>,
) -> Vec<Option<Arc<O>>>
    requires full { IsFull closed.slots }
    requires count { first + vec_len room ≡ slots_len closed.slots }
    ensures count { vec_len result ≡ vec_len room }
    ensures values { (f : ℕ) → f < vec_len room → get_elem? (slots_items closed.slots) (first + f) ≡ some (slice_index_or result.items f None) }
{
    let mut closed = closed;
    let mut room = room;
    for number in 0..closed.slot_count() {
        let slot = closed.take(number);
        if number >= first {
            room[number - first] = slot;
        }
    }
    closed.free();
    room
}

/// The results of a closed database, each of which can be taken once. Contracts see the outputs that
/// can still be taken, `outputs closed`, and the pass that closed it, `closing_pass closed`.
#[derive(Drop)]
pub struct Closed<W: Work> {
    pub(crate) outputs: Vec<Option<Arc<W::Out>>>,
    pub(crate) pass: Snapshot<Pass<W>>,
}

impl<W: Work> Closed<W> {
    /// The output of the function, where the pass that closed the database saw it published and it
    /// was not taken before.
    pub fn take(&mut self, function: u32) -> Option<Arc<W::Out>>
        requires { function < length (outputs self.old) }
        ensures output { result ≡ output_at self.old function }
        ensures left { outputs self.new ≡ slice_set (outputs self.old) function None }
        ensures pass { closing_pass self.new ≡ closing_pass self.old }
    {
        self.outputs[function as usize].take()
    }
}
