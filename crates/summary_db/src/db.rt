//! The database itself.

ghost use Rattle.std.specs.Prelude.{◌≡◌, ◌<◌, ◌+◌, ◌^◌, length, vec_len};
ghost use Rattle.summary_db.specs.Places.{IsLaidOut, places_of};
ghost use Rattle.summary_db.specs.Lays.{IsLay};

use crate::lay::Lay;
use crate::rule::{About, DbRule};
use crate::{Knows, Work};
use atomic_table::Table;
use sc_base::List;
use std::alloc::Global;
use std::sync::Arc;

/// The write-once database of a plan and a work. Each function of the plan has a word: 0 for free, 1
/// for claimed, 2 for published. Its output lies in places, one for each function that has it as a
/// kept callee and one for its result; a place is filled once and emptied once. `room` is where the
/// results go when the database is closed.
#[derive(Drop)]
pub struct Db<W: Work> {
    pub(crate) table: Table<Option<Arc<W::Out>>, Knows<Option<W>>, About<W>, DbRule<W>, Global>,
    pub(crate) rows: List<List<u32>>,
    pub(crate) lay: Lay,
    pub(crate) room: Vec<Option<Arc<W::Out>>>,
    ghost planned: { rows ≡ table.shared.key.plan.value.callees },
    ghost few: { length rows < 2 ^ 32 },
    ghost laid: { IsLaidOut rows },
    ghost words: { table.shared.table_id.words ≡ length rows + 1 },
    ghost slots: { table.shared.table_id.slots ≡ lay.count },
    ghost roomy: { vec_len room ≡ length rows },
    ghost listed: { IsLay (length rows) (places_of rows) lay },
}
