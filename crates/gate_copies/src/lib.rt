//! Assignment of objects as gates (C11 6.5.16.1): the cells of one object are copied to those of another one.
//!
//! Two guarded sets say which objects these are. `objects` has the cells of the objects to which targets lead, and `widths` their
//! widths. `readings` has what the cells with one number have, in whichever object; `copies` reads all cells of the object on
//! the right, and then stores those of the object on the left.
#![tactic(auto)]

mod copies;
mod objects;
mod readings;
mod widths;

pub use copies::{copy, read_all, store_all};
pub use objects::{Object, cells_of, cells_with, most_cells, objects_of};
pub use readings::{Guarded, Reading, read_cell, store_cell};
