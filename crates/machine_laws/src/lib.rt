//! Laws on machines: what a machine file changes. Each law is the clause of a function that does nothing.
#![tactic(auto)]

mod laws;

pub use laws::{functions_without_tries, lock_from_a_file};
