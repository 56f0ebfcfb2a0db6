// What a run may end with, and where a location comes from.

use sc_base::{NameId, Pos};
use sum_rows::Step;

/// Why a run is set aside, in the order in which reasons count.
#[derive(Clone, Copy, Debug, PartialEq, Eq)]
pub enum Reason {
    /// A null pointer is followed, or given to an operation of locks.
    Null,
    /// What is followed lies beyond the reach.
    Reach,
    /// A freed object is used, or what cannot be freed is freed.
    Freed,
    /// A location is used as another type than its own.
    Type,
    /// An index is out of range.
    Index,
    /// A divisor is 0, or the least number is divided by -1.
    Divide,
    /// A shift count is out of range.
    Shift,
    /// A loop goes on behind its last turn.
    Depth,
    /// Two paths of a call lead to one location.
    Alias,
    /// A call's choice has no row.
    NoRow,
    /// A call does not return.
    NoReturn,
}

/// Where a location comes from.
#[derive(Clone, Copy, Debug, PartialEq, Eq)]
pub enum Origin {
    /// The parameter with that number.
    Param(u32),
    /// The global with that number.
    Global(u32),
    /// The local with that number.
    Local(u32),
    /// The string at that place.
    Literal(Pos),
    /// A function that is used as a value.
    Function(NameId),
    /// What the pointer at that location points to at entry.
    Target(u32),
    /// An object that the call with that occurrence gives.
    Call(u32),
    /// A part of the location with that number.
    Part(u32, Step),
}
