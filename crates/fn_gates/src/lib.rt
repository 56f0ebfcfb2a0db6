//! The gates of all runs of a function: its graph is unrolled, and gone over once.
#![tactic(auto)]

mod whole;

pub use whole::{InGates, in_gates};
