//! Labels and `goto` (C11 6.8.1, 6.8.6.1): the jumps of a function's body, and the faults that they have.
//!
//! `jumps` has what is noted of labels and jumps, `gather` the walk over a body that finds them, `check` which of
//! them are not taken.
#![tactic(auto)]

mod check;
mod gather;
mod jumps;

pub use check::check_jumps;
pub use gather::jumps_of_body;
pub use jumps::{Goto, Inward, Jumps};
