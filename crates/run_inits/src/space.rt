// The room that a run has beside its world.

ghost use Rattle.std.specs.Prelude.{◌≡◌, ◌≤◌, [], length, vec_capacity, IfOk};
ghost use Rattle.layout_base.specs.Seen.{layout_of};

use crate::stores::Store;
use layout_base::Places;
use run_exprs::Room;
use sc_base::OutOfMemory;
use std::alloc::Global;

/// The room that a run has beside its world: reserved before a run, and used again and again.
#[derive(Drop)]
pub struct Space {
    /// For expressions.
    pub kept: Room,
    /// The stores that braces make.
    pub stores: Vec<Store>,
}

impl Space {
    /// Room for statements that need so much, over these places.
    pub fn reserve(alloc: Global, places: &Places, room: usize) -> Result<Space, OutOfMemory>
        ensures empty { IfOk result (λ s. s.kept.arguments.items ≡ []) }
        ensures arguments { IfOk result (λ s. room ≤ vec_capacity s.kept.arguments) }
        ensures cells { IfOk result (λ s. length (layout_of places.now).locations ≤ vec_capacity s.kept.cells) }
        ensures stores { IfOk result (λ s. room ≤ vec_capacity s.stores) }
    {
        Ok(Space {
            kept: Room::reserve(alloc, places, room)?,
            stores: Vec::with_capacity(alloc, room)?,
        })
    }
}
