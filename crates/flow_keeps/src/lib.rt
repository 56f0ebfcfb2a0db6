//! Nodes of a graph that make a step, behind it: what stands in a temp or a local then, and where the walk goes on.
//!
//! `reads` has the temps that a node reads: whether some node has kept each of them, and where they may be used. `values` has nodes that
//! keep what their step gives, `locals` those that set a local.
#![tactic(auto)]

mod locals;
mod reads;
mod values;

pub use locals::set;
pub use reads::{Reads, surely, unkept, was_kept};
pub use values::keep;
