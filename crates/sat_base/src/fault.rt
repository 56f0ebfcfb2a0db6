// The one error of a solver: memory that was asked for and refused.

ghost use Rattle.std.specs.Prelude.{⊤};

use std::alloc::{AllocError, AllocFailed};
use thiserror::Error;

/// Memory was asked for and refused.
#[derive(Clone, Copy, Debug, PartialEq, Eq, Error)]
#[error("out of memory")]
pub struct OutOfMemory;

impl From<AllocError> for OutOfMemory {
    ghost from_gives = { λ _ _. ⊤ };

    fn from(_refused: AllocError) -> OutOfMemory {
        OutOfMemory
    }
}

/// A growth that was refused hands its item back, and the item is dropped here.
impl<T: Drop> From<AllocFailed<T>> for OutOfMemory {
    ghost from_gives = { λ _ _. ⊤ };

    fn from(_refused: AllocFailed<T>) -> OutOfMemory {
        OutOfMemory
    }
}
