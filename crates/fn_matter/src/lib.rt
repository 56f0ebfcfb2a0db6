//! The matter of a function: all that definitions read of it but the verdicts of its kept callees, as a list of numbers that
//! is read in one way. The law is the clause of a function that does nothing.
#![tactic(auto)]

mod laws;

pub use laws::matters_tell_parts;
