//! Laws on how runs end by errors. Each law is the clause of a function that does nothing.
#![tactic(auto)]

mod laws;

pub use laws::errors_are_at_locations;
