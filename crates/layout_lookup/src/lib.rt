//! Look-ups in a layout: the part of a location to which a step leads, the location that a parameter or another origin
//! is, and a call with its occurrences.
//!
//! The tables are made once for a layout (`Lookup::of`). A look-up is by hash and takes no memory.
#![tactic(auto)]

mod key;
mod kinds;
mod lookup;
mod placed;
mod table;
mod tables;

pub use kinds::{is_cell, is_outer, is_pointer_cell, is_stub};
pub use lookup::Lookup;
pub use placed::Placed;
