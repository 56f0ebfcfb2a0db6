// What a verdict may leave out.

use sc_base::{List, Pos};
use sum_rows::Row;

/// What rows speak of, by the numbers of locations and parameters.
#[derive(Clone, Copy, Debug, PartialEq, Eq)]
pub enum Subject {
    /// The end of the function.
    Exit,
    /// The state of a location.
    Lock(u32),
    /// The object that a parameter points to.
    Param(u32),
    /// The pointer that a parameter points to.
    Out(u32),
}

/// What a run may do that its verdict is to list or to report.
#[derive(Clone, Copy, Debug, PartialEq, Eq)]
pub enum Deed {
    /// It touches the location, and exits or ends in an error that the caller knows.
    Touches(u32),
    /// It exits and has freed what the parameter points to, or let it escape.
    Changes(u32),
    /// It exits and has written the pointer that the parameter points to.
    Sets(u32),
    /// It exits and has written the cell of the location.
    Writes(u32),
    /// It ends in an error at the location, which the caller does not know.
    EndsAt(u32),
    /// It exits, and an object of a call at the place is lost.
    Leaks(Pos),
}

/// What a verdict may leave out.
#[derive(Debug, Drop)]
pub enum Miss {
    /// A row of the subject that is none of these, which the verdict lists.
    Row(Subject, List<Row>),
    /// Runs that do this, which the verdict says of none.
    Does(Deed),
}
