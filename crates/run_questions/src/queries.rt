// What may be asked of a run.

use sc_base::Pos;
use sum_rows::Row;

/// What may be asked of a run. Locations and parameters go by their numbers.
#[derive(Clone, Copy, Debug, PartialEq, Eq)]
pub enum Query<'t> {
    /// It has this row of its end.
    Exits(Row),
    /// It touches the location, and exits or ends in an error that the caller knows.
    Touches(u32),
    /// It has this row of the location.
    Locks(u32, Row),
    /// It exits and has freed what the parameter points to, or let it escape.
    Changes(u32),
    /// It has this row of the object that the parameter points to.
    Params(u32, Row),
    /// It exits and has written the pointer that the parameter points to.
    Sets(u32),
    /// It has this row of the pointer that the parameter points to.
    Outs(u32, Row),
    /// It exits and has written the cell.
    Writes(u32),
    /// It ends in an error at the location, which the caller does not know.
    EndsAt(u32),
    /// It ends in such an error at a location of that text.
    Errs(&'t [u8]),
    /// It exits, and an object of a call at the place is lost.
    Leaks(Pos),
}
