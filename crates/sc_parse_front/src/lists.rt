//! Lists that are made to hold an item.

ghost use Rattle.std.specs.Prelude.{◌≡◌, [], IfOk};

use sc_base::{List, OutOfMemory};
use std::alloc::Global;

/// An empty list with room for one item. Most lists of a tree have one, and a list that grows from
/// nothing begins with room for four.
pub fn room_for_one<T>(alloc: Global) -> Result<List<T>, OutOfMemory>
    ensures { IfOk result (λ list. list ≡ []) }
{
    Ok(List::from_vec(Vec::with_capacity(alloc, 1)?))
}
