//! Expressions as gates (C11 6.5): for every choice the value that a run gives, and where the run stands behind it.
//!
//! There is one function for each construct, once the expressions in it have their values: `names` has what names give,
//! `constructs` conversions and operators on one and on two values. The walk over an expression is `tr_walk`.
#![tactic(auto)]

mod constructs;
mod names;
mod types;

pub use constructs::{converted, operation, unary};
pub use names::{addressed, named};
