//! A law on whole checks: what a file with the machine of locks changes. It is the clause of a function that does nothing
//! but cite others.
#![tactic(auto)]

mod laws;

pub use laws::checks_with_lock;
