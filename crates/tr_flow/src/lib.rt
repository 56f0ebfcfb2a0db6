//! Who makes the gates of the steps of a function: of the expressions of its nodes, and of their calls.
//!
//! `stepping` has who makes them, as `flow_gates` asks for it, `evaluating` and `calling` how, and `arguments` the values of a
//! call's arguments. `taken` has which expressions have gates, and `nodes` whether all nodes of a graph have.
#![tactic(auto)]

mod arguments;
mod calling;
mod evaluating;
mod nodes;
mod stepping;
mod steps;
mod taken;

pub use flow_whole::{Graph, Laid, Steps, encode};
pub use nodes::all_have_gates;
pub use stepping::Stepping;
