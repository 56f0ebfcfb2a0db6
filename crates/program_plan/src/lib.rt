//! The plan of a typed program: which functions call which by name, and which of these edges are cut so that the
//! others have no cycle.
//!
//! `expressions` and `statements` walk over a body and mark the functions that it calls; `rows` makes the call graph
//! of it, `planning` the plan, by `call_graph`.
#![tactic(auto)]

mod answer;
mod expressions;
mod planning;
mod rows;
mod statements;

pub use answer::PlanAnswer;
pub use planning::plan;
