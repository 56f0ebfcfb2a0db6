//! What a check says of files that were read, as JSON: the whole check as one value, or the first reason why there is
//! none.
//!
//! `sources` has what is checked, `checked` the whole. What says the same in text (`whole_checks`) is passed on, since who calls
//! the one calls the other.
#![tactic(auto)]

mod checked;
mod sources;

pub use checked::{say_json, say_json_by};
pub use sources::MarkedSources;
pub use whole_checks::{Said, Sources, say, say_by};
