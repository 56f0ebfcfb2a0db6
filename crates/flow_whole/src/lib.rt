//! The gates of a whole function: its unrolled graph is gone over once, node by node.
//!
//! `locals` has nodes that set a local to one value, `braces` those of initialisers in braces, `updates` those that assign by an operator
//! to kept places, and `whole` the way over all nodes.
#![tactic(auto)]

mod braces;
mod locals;
mod updates;
mod whole;

pub use flow_fills::Laid;
pub use flow_gates::{Graph, Steps};
pub use whole::encode;
