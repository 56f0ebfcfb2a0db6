//! Why a call gives no machine: a line of the file breaks the form, or memory was refused.

ghost use Rattle.std.specs.Prelude.{◌≡◌, ⊤};
ghost use Rattle.fsm_spec.specs.declared.fault.MachineAnswer.TheVariants as answer;

use std::alloc::{AllocError, AllocFailed};
use thiserror::Error;

/// Memory was asked for and refused.
#[derive(Clone, Copy, Debug, PartialEq, Eq, Error)]
#[error("out of memory")]
pub struct OutOfMemory;

impl From<AllocError> for OutOfMemory {
    ghost from_gives = { λ _ _. ⊤ };

    fn from(_refused: AllocError) -> OutOfMemory {
        OutOfMemory
    }
}

/// A growth that was refused hands its item back, and the item is dropped here.
impl<T: Drop> From<AllocFailed<T>> for OutOfMemory {
    ghost from_gives = { λ _ _. ⊤ };

    fn from(_refused: AllocFailed<T>) -> OutOfMemory {
        OutOfMemory
    }
}

/// Why the bytes of a file gave no machine.
#[derive(Clone, Copy, Debug, PartialEq, Eq, Error)]
pub enum MachineAnswer {
    /// The line with this number, counted from 1, is the first that breaks the form. Where lines are
    /// missing, it is one more than the number of lines.
    #[error("line {0} of the machine file breaks the form")]
    Line(u32),
    /// Memory was asked for and refused.
    #[error("out of memory")]
    OutOfMemory,
}

impl From<OutOfMemory> for MachineAnswer {
    ghost from_gives = { λ _ e. e ≡ answer.OutOfMemory };

    fn from(_refused: OutOfMemory) -> MachineAnswer {
        MachineAnswer::OutOfMemory
    }
}
