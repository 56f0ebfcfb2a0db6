//! Counts of a check in place of its text: functions, skips, rows, and reports of each kind.
//!
//! `counts` has what is counted of verdicts, and `lines` the seven lines.
#![tactic(auto)]

mod counts;
mod lines;

pub use counts::{Counts, Kinds, count};
pub use lines::text;
