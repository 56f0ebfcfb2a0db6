//! The goal of a gate: clauses that ask whether the gate holds for some choice of the inputs.
//!
//! `cone` has the gates that a gate reads, `clauses` the clauses of one gate, and `goals` the goal: its first variables are the inputs, and
//! the gates of the cone follow in the order of the net.
#![tactic(auto)]

mod clauses;
mod cone;
mod goals;

pub use goals::{Goal, goal_of};
