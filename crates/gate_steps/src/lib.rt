//! Steps of runs as gates: what a location or a place has is read, a cell is written, a mark is set, and a run goes on only where a
//! gate holds.
//!
//! Each step does, for every choice, what the step of its name does in a run (`Does` of `gate_runs`).
#![tactic(auto)]

mod steps;

pub use steps::{load, mark, read, store, unless};
