//! The concrete store of one run: what each location holds, and what happened to it.
//!
//! `specs/Concrete.antt` has the store itself. The run of a function changes it, and the guarded store of
//! the gates stands for one in each choice.
#![tactic(auto)]

/// What can happen to a location in a run.
#[derive(Clone, Copy, Debug, PartialEq, Eq)]
pub enum Flag {
    /// An operation of locks was made at it.
    Touched,
    /// Its cell was written.
    Written,
    /// It is an object that a call allocated.
    Allocated,
    /// It is an object that was freed.
    Freed,
    /// It is an object that code outside may know.
    Escaped,
}
