//! The verdicts of a whole check as JSON, for programs that show findings.
//!
//! `reasons`, `rows`, `runs`, `reports` and `functions` put the values of these things, each behind the tokens that are there
//! already, and `checks` puts the whole. What one run is told with is passed on, for who tells it alone. Places and paths,
//! and what is read beside the verdicts, are those of `json_places`.
#![tactic(auto)]

mod checks;
mod functions;
mod reasons;
mod reports;
mod rows;
mod runs;
mod tellings;

pub use checks::{check_json, put_options};
pub use json_places::Check;
pub use runs::put_ran;
pub use tellings::Telling;
