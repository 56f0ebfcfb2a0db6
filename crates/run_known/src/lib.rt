//! Calls that act by the summary of their callee: the rows that the choice needs, the effects, and errors; and `act`,
//! what any call does.
//!
//! `rows` finds rows, `given` has the result, `acting` all that a known call has to do with, `needs` the rows that
//! the choice needs, `effects` what the call does to the world, `known` the call as a whole. Each function does what
//! the definition of its name in `sc_world` does. None takes memory.
#![tactic(auto)]

mod acting;
mod calls;
mod effects;
mod given;
mod known;
mod needs;
mod rows;

pub use calls::{act, most_items};
pub use known::known_call;
