//! Laws on what typing makes: its trees are typed as runs want them. Each law is the clause of a function that does
//! nothing but cite others.
#![tactic(auto)]

mod laws;

pub use laws::{places_are_typed, statements_are_typed, types_are_seen, values_are_typed};
