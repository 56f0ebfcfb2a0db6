//! The graph of a function's body with every loop unrolled: nodes of which each goes on at greater numbers.
//!
//! `unroll` makes it from the typed body, from its end to its beginning. The graph is that of `flow_graph`, whose laws say
//! that its walks are the runs of the body.
#![tactic(auto)]

mod aims;
mod blocks;
mod conditions;
mod expressions;
mod flow;
mod growing;
mod initialisers;
mod node;
mod operands;
mod questions;
mod statements;
mod targets;

pub use flow::{Flow, unroll};
pub use node::{Calling, Expression, Node, Numbers, Updating, Want};
