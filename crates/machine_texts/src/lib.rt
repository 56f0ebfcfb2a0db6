//! A law on the texts of checks: what a file with the machine of locks changes. It is the clause of a function that does
//! nothing but cite others.
#![tactic(auto)]

mod laws;

pub use laws::texts_with_lock;
