//! Expressions of a run (C11 6.5): the value of an expression or its place, and what that does to the world.
//!
//! `evaluate` is the walk over typed expressions, `names` has what it asks of a tree, `sites` the calls of the text,
//! `calls` the trait of what calls do once their arguments have their values, and `room` the room that is reserved
//! before a run. No evaluation takes memory.
#![tactic(auto)]

mod calls;
mod evaluate;
mod names;
mod room;
mod sites;

pub use calls::Calls;
pub use evaluate::eval;
pub use names::{character, operator};
pub use room::Room;
