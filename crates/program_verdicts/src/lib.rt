//! The verdicts of a program: the definition, and that it is the only one by which each verdict is made of those of the
//! kept callees.
#![tactic(auto)]

mod laws;

pub use laws::verdicts_by_callees;
