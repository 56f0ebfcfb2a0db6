//! One run as JSON, for programs that show findings: its function, the run as the JSON of a check shows it, and how it ended.
//!
//! `ran` has what is told of a run, `outcomes` how it ended, and `runs` puts the whole. What it is told with is that of
//! `verdict_json`.
#![tactic(auto)]

mod outcomes;
mod ran;
mod runs;

pub use ran::Ran;
pub use runs::run_json;
pub use verdict_json::{Check, Telling};
