//! Whether the graph of a function has gates, found out at run time.
//!
//! `whole` has the test of a whole function. `fills` marks the temps in which some node keeps something other than a value of
//! type `void`, and `reads` tests whether nodes read marked temps alone, with `text` for the expressions of the text.
#![tactic(auto)]

mod fills;
mod reads;
mod text;
mod whole;

pub use whole::can_encode;
