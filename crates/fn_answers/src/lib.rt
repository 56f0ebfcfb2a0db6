//! Questions about the runs of a function are answered by gates and a solver: whether some run answers yes is asked of the gate of the
//! question, and the first run that does is made again by the interpreter and shown.
//!
//! `solving` has who answers, and `lanes` the choices that are tried before the solver.
#![tactic(auto)]

mod lanes;
mod solving;

pub use lanes::first_lanes;
pub use solving::Solving;
