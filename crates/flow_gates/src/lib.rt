//! The nodes of a function's graph that make a step, as gates, over whoever makes the gates of single expressions and calls.
//!
//! `steps` has the trait of who makes them, `nodes` what is done at the nodes that make a step, and `dropping` which of them do nothing.
#![tactic(auto)]

mod dropping;
mod nodes;
mod steps;

pub use dropping::drops;
pub use nodes::{Calls, Keeping, Setting, call, keep, set};
pub use steps::{Graph, Steps};
