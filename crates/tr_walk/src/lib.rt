//! The walk over an expression as gates (C11 6.5): for every choice its value or its place, and where the run stands
//! behind it.
//!
//! `expressions` goes over the tree, and `nodes` over an expression of a node of a graph, whose operands may be kept in
//! temps. Both call `operators` once the operands of an operator have their gates, which calls the gates of the crates
//! below. `sides` has the operands of constructs, `leaves` constants, temps and conversions.
#![tactic(auto)]

mod evaled;
mod expressions;
mod leaves;
mod nodes;
mod operators;
mod sides;

pub use evaled::{Evaled, eval, place};
pub use expressions::walk;
pub use nodes::{KeptIn, apply, walk_node};
