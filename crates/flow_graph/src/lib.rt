//! The unrolled graph of a function: which nodes it has, what a walk over them does, and the laws that the walk is the
//! run of the function's tree for every choice, and that the graph has no cycle. Definitions and laws alone; the code
//! that makes the graph is to stand on them.
#![tactic(auto)]

mod laws;

pub use laws::{nodes_are_fine, there_is_no_cycle, walks_are_runs, what_is_read_was_kept};
