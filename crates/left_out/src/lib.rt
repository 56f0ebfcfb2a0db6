//! What a verdict leaves out: what runs show that its rows and reports do not say.
//!
//! `misses` has the things that a verdict may leave out, and `laws` what a verdict is worth that leaves nothing out. `specs/LeftOut.antt` has the
//! definitions.
#![tactic(auto)]

mod laws;
mod misses;

pub use laws::{nothing_left_out, runs_have_one_row, verdicts_leave_nothing_out};
pub use misses::{Deed, Miss, Subject};
