//! Bodies that leave nothing behind (C11 6.7): no step of their typing changes anything of the walk but its fault and what
//! ends with the body.
//!
//! `tags` has the tags that stand, `bodies` the test of a body, `laws` the laws. A law is a function with an empty body
//! whose clause says it.
#![tactic(auto)]

mod bodies;
mod laws;
mod tags;

pub use bodies::is_plain;
pub use laws::{jumps_leave_faults, plain_bodies_leave_nothing};
