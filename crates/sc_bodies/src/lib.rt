//! The walk over statements (C11 6.8): each part is typed, and then the rule of its kind is asked.
//!
//! `around` has what stands round a statement, `parts` the statements and parts of statements in which no
//! statement stands, `statements` the walk.
#![tactic(auto)]

mod around;
mod parts;
mod statements;

pub use around::Around;
pub use statements::{bare_statement, statement};
