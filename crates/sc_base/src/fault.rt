// The two errors that come from outside the program: a file or a sink that does not do what it
// was asked, and memory that runs out. Neither says more than that it happened.

ghost use Rattle.std.specs.Prelude.{⊤};

use std::alloc::{AllocError, AllocFailed};
use thiserror::Error;

/// A file or a sink answered with a fault. What happened in detail stays outside.
#[derive(Clone, Copy, Debug, PartialEq, Eq, Error)]
#[error("the outside failed")]
pub struct Failed;

/// Memory was asked for and refused.
#[derive(Clone, Copy, Debug, PartialEq, Eq, Error)]
#[error("out of memory")]
pub struct OutOfMemory;

impl From<AllocError> for OutOfMemory {
    ghost from_gives = { λ _ _. ⊤ };

    fn from(_refused: AllocError) -> OutOfMemory {
        OutOfMemory
    }
}

/// A growth that was refused hands its item back, and the item is dropped here.
impl<T: Drop> From<AllocFailed<T>> for OutOfMemory {
    ghost from_gives = { λ _ _. ⊤ };

    fn from(_refused: AllocFailed<T>) -> OutOfMemory {
        OutOfMemory
    }
}
