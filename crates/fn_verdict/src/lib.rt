//! The verdict of a function, made of answers to questions: its summary (`fn_rows`) and its reports.
#![tactic(auto)]

mod ambiguous;
mod double;
mod inner;
mod leaks;
mod pairs;
mod reports;

pub use reports::verdict;
