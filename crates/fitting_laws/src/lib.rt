//! Laws on functions that are typed: they fit the layouts that they have. Each law is the clause of a function that does
//! nothing but cite others.
#![tactic(auto)]

mod laws;

pub use laws::{a_function_is_typed, expressions_fit, functions_fit, texts_are_found};
