//! Laws on verdicts and on the layouts that they are made from. Each law is the clause of a function that does nothing
//! but cite others.
#![tactic(auto)]

mod laws;

pub use laws::{each_bit_is_of_one_thing, verdicts_fit};
