//! The one error of a question.

use std::alloc::{AllocError, AllocFailed};
use thiserror::Error;

/// There was no memory for the answer.
#[derive(Clone, Copy, Debug, PartialEq, Eq, Drop, Error)]
#[error("out of memory")]
pub struct OutOfMemory;

impl From<AllocError> for OutOfMemory {
    fn from(_: AllocError) -> OutOfMemory {
        OutOfMemory
    }
}

impl<T: Drop> From<AllocFailed<T>> for OutOfMemory {
    fn from(_: AllocFailed<T>) -> OutOfMemory {
        OutOfMemory
    }
}

impl From<bit_net::OutOfMemory> for OutOfMemory {
    fn from(_: bit_net::OutOfMemory) -> OutOfMemory {
        OutOfMemory
    }
}

impl From<sat_base::OutOfMemory> for OutOfMemory {
    fn from(_: sat_base::OutOfMemory) -> OutOfMemory {
        OutOfMemory
    }
}
