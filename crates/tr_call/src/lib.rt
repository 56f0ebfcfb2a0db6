//! The call of a node of a graph, as gates (C11 6.5.2.2).
//!
//! `fits` has which calls have gates: those of a type that they can give. `placed` is a call whose place is found, `callees` has the
//! call of a callee, by its summary where that is there. `effects` has what a call does, by its effect, once its arguments have their
//! values, and `calls` the call of a node. `values` has its first argument, and some value of a type.
#![tactic(auto)]

mod callees;
mod calls;
mod effects;
mod fits;
mod placed;
mod values;

pub use calls::call;
pub use fits::can_call;
