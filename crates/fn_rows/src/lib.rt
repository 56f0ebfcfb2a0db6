//! The summary of a function, made of answers to questions: its items with their rows, and the cells that it writes.
//!
//! Each row that there might be is a question of its own, in the order in which rows are printed.
#![tactic(auto)]

mod asking;
mod candidates;
mod items;
mod listed;
mod locations;
mod params;
mod parts;
mod whole;
mod writes;

pub use listed::touched;
pub use locations::numbers;
pub use parts::{Parts, parts_of};
pub use whole::summary;
