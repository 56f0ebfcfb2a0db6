//! Assignments by an operator to kept places (C11 6.5.16.2), as gates.
//!
//! `operands` has what was kept of them, `updating` what is done.
#![tactic(auto)]

mod operands;
mod updating;

pub use updating::{Assignment, update};
