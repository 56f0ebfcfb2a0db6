//! Initialisers on values that have their types (C11 6.7.9): which part of an object each value sets, and which
//! length an array without length gets from them.
//!
//! `parts` has the parts of an object to which values go, `filling` spreads values over them (from a `queue`), `initialisers`
//! makes the initialiser of a local.
#![tactic(auto)]

mod filling;
mod initialisers;
mod parts;
mod queue;

pub use filling::spread;
pub use initialisers::{elements_set, one, one_value, spread_if};
pub use parts::{is_char_array, is_string, members_given};
