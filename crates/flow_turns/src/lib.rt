//! The gates of a function before a node of its graph, and what the nodes do that make no step: events, branches, the function's end, and
//! nodes that set the walk aside.
//!
//! `before` has the gates, and the ways that come to a node; `temps` what was kept; `turns` a function for each of these kinds of nodes;
//! `steps` what is done behind a step, whatever the step is.
#![tactic(auto)]

mod before;
mod ends;
mod steps;
mod temps;
mod turns;

pub use before::{Arrival, Before};
pub use steps::Made;
pub use temps::{Slot, Temps};
