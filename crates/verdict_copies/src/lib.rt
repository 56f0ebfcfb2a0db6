//! Copies of verdicts: a function is analysed with the verdicts of its callees at hand, and callers share these.
#![tactic(auto)]

mod reports;
mod summaries;
mod verdicts;

pub use verdicts::{copies, copy};
