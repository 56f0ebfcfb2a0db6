//! How many nodes the unrolled graph of a function has. Laws alone.
#![tactic(auto)]

mod laws;

pub use laws::{graphs_are_small, loops_are_counted};
