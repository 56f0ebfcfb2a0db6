//! Laws on the texts of locations. Each law is the clause of a function that does nothing.
#![tactic(auto)]

mod laws;

pub use laws::texts_tell_ways;
