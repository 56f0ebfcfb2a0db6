//! Initialisers of locals as gates (C11 6.7.9), behind the evaluation of their values: an object is set to one value; the cells of a value are
//! kept; the parts of an object are set to kept cells, and the rest to 0 or null.
//!
//! `values` has what is done with one value, `filling` the cells of an object that are set, and `parts` the part that a value in braces sets.
#![tactic(auto)]

mod filling;
mod parts;
mod values;

pub use filling::{clear, set_part};
pub use gate_copies::Reading;
pub use parts::part_at;
pub use values::{Local, cells_given, is_scalar, set_local};
