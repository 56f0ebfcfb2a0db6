//! Laws on layouts. Each law is the clause of a function that does nothing.
#![tactic(auto)]

mod laws;

pub use laws::locations_are_right;
