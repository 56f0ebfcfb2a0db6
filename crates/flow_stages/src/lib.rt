//! Where the walk over a graph is, told by gates for one choice: it waits at a node, it came to the function's end, or it ended before.
//!
//! Definitions and laws alone: what holds before a node holds behind it, if the gates of the node do what the node does. The code that
//! makes the gates stands on the lemmas behind these laws, which hold of every view of gates and not only of those that can be tested.
#![tactic(auto)]

mod laws;

pub use laws::{
    asides_end, branches_act, dead_nodes_pass, exits_end, marks_act, marks_go_on, nodes_are_at,
    reads_are_asked, steps_go_on, tests_go_on,
};
