//! The choice that hexadecimal digits spell, as a report prints it: four bits a digit, the first counting most.
//!
//! `digits` reads the bits of single digits, `reading` a whole choice, and `laws` says that no two choices of one length
//! are spelled alike.
#![tactic(auto)]

mod digits;
mod laws;
mod reading;

pub use laws::no_two_are_spelled_alike;
pub use reading::read_choice;
