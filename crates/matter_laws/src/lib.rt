//! When a session may use a verdict again: where matters and tables are equal. The law is the clause of a function that does
//! nothing.
#![tactic(auto)]

mod laws;

pub use laws::equal_matters;
