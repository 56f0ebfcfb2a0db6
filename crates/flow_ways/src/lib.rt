//! Ways through a graph whose nodes each lead on to later nodes: which ways wait at a node, and under which gate of a net.
//!
//! A branch parts the ways that come to it into two sides. Where both sides of a branch come to one node again, the ways from before
//! the branch wait there in their place, so behind an `if`, a loop or a `switch` the gate is again the one from before.
#![tactic(auto)]

mod ways;

pub use ways::{Split, Way, Ways, any_of};
