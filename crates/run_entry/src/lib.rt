//! The world of a run at entry, as the choice of the run spells it.
//!
//! `choice` reads bits and numbers of the choice, `widths` has the bits of an integer type, and `entry` writes the
//! world into a store that was reserved before, so that a run takes no memory.
#![tactic(auto)]

mod choice;
mod entry;
mod widths;

pub use choice::{bit_at, number_at};
pub use entry::{enter, reserve};
pub use widths::integer_bits;
