//! Why the bytes of a file gave no certificate.

ghost use Rattle.std.specs.Prelude.{◌≡◌};
ghost use Rattle.drat_text.specs.declared.fault.Stop.TheVariants as stop;

use sat_base::OutOfMemory;
use std::alloc::{AllocError, AllocFailed};
use thiserror::Error;

/// Why there is no certificate.
#[derive(Clone, Copy, Debug, PartialEq, Eq, Error)]
pub enum ReadError {
    /// The first word that breaks the form stands in this line, counted from 1. Where the end of the file
    /// breaks it, it is the last line.
    #[error("line {line} breaks the form of a certificate")]
    Malformed { line: u32 },
    /// Memory was asked for and refused.
    #[error("out of memory")]
    Memory,
}

/// Why a word or a line was not taken.
#[derive(Clone, Copy, Debug, PartialEq, Eq)]
pub(crate) enum Stop {
    /// It breaks the form.
    Form,
    /// Memory was asked for and refused.
    Memory,
}

impl From<OutOfMemory> for Stop {
    ghost from_gives = { λ _ e. e ≡ stop.Memory };

    fn from(_refused: OutOfMemory) -> Stop {
        Stop::Memory
    }
}

impl From<AllocError> for Stop {
    ghost from_gives = { λ _ e. e ≡ stop.Memory };

    fn from(_refused: AllocError) -> Stop {
        Stop::Memory
    }
}

/// A growth that was refused hands its item back, and the item is dropped here.
impl<T: Drop> From<AllocFailed<T>> for Stop {
    ghost from_gives = { λ _ e. e ≡ stop.Memory };

    fn from(_refused: AllocFailed<T>) -> Stop {
        Stop::Memory
    }
}
