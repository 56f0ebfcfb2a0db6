//! Operations of the machine and tries to lock, as gates (C11 has neither: they are calls of functions that the machine names).
//!
//! A pointer is a guarded set of targets, and each target has a state. `tables` has the table of the machine: where an operation leads
//! from the state that a word spells, any state included. `operations` does it for each target under the guard of its pair, `tries`
//! locks, and `values` has what both take and give.
#![tactic(auto)]

mod operations;
mod tables;
mod tries;
mod values;

pub use gate_entry::{chosen_bit, chosen_number};
pub use operations::operation;
pub use tables::Table;
pub use tries::{Trying, try_lock};
pub use values::pointer_of;
