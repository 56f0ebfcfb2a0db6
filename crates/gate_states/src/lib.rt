//! What a known call has to do with, and the states of its items as gates, for every choice at once.
//!
//! `called` has what the tests and the effects of a call read. `before` has the state of the location to which a set points,
//! and `after` the state that the choice names. `laws` has what stays so while the net grows.
#![tactic(auto)]

mod after;
mod before;
mod called;
mod laws;

pub use after::{state_after, states};
pub use before::{state_before, state_cell};
pub use called::Called;
pub use laws::called_stays;
