//! Places and paths as JSON: what the values of verdicts and of choices are made of.
//!
//! `check` has what is read beside the verdicts. `places` and `paths` put the values of these things, each behind the tokens
//! that are there already.
#![tactic(auto)]

mod check;
mod paths;
mod places;

pub use check::Check;
pub use paths::put_path;
pub use places::{is_in_header, main_source, put_place};
