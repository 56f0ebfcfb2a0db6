//! How much room statements, declarations and expressions of a run need, so that it can be reserved before the run.
//!
//! `sums` adds and multiplies as far as a machine counts, `expressions`, `declarations` and `statements` walk over the
//! trees.
#![tactic(auto)]

mod declarations;
mod expressions;
mod statements;
mod sums;

pub use expressions::is_scalar;
pub use statements::statement_room;
