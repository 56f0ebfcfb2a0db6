// The room that a run has beside its world.

ghost use Rattle.std.specs.Prelude.{◌≡◌, ◌≤◌, [], length, vec_capacity, IfOk};
ghost use Rattle.layout_base.specs.Seen.{layout_of};

use layout_base::Places;
use run_world::Value;
use sc_base::OutOfMemory;
use std::alloc::Global;

/// Values that are kept for a while: reserved before a run, and empty between two expressions.
#[derive(Drop)]
pub struct Room {
    /// The values of the arguments of the calls that are to be made, the outermost call first.
    pub arguments: Vec<Value>,
    /// The cells of an object that is copied.
    pub cells: Vec<Value>,
}

impl Room {
    /// Room for that many arguments, and for the cells of any object of these places.
    pub fn reserve(alloc: Global, places: &Places, arguments: usize) -> Result<Room, OutOfMemory>
        ensures empty { IfOk result (λ r. r.arguments.items ≡ []) }
        ensures arguments { IfOk result (λ r. arguments ≤ vec_capacity r.arguments) }
        ensures cells { IfOk result (λ r. length (layout_of places.now).locations ≤ vec_capacity r.cells) }
    {
        Ok(Room {
            arguments: Vec::with_capacity(alloc, arguments)?,
            cells: Vec::with_capacity(alloc, places.count())?,
        })
    }
}
