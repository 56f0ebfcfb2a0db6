//! What two readings of one function have in common: where they differ in nothing that the function reads, they have one
//! verdict. Each law is the clause of a function that does nothing.
#![tactic(auto)]

mod laws;

pub use laws::read_alike;
