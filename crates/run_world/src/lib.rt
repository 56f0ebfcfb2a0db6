//! The world of a run as code: its store, its trace, and the single steps of a run on them.
//!
//! `value` has what a cell holds, `world` the store and the trace, `pointers` where they lead. Each step does what
//! the definition of its name in `sc_world` does. None takes memory: the trace has its room from the start.
#![tactic(auto)]

mod pointers;
mod types;
mod value;
mod world;

pub use pointers::{Here, dereference, reach, set_state, state_of};
pub use types::same_type;
pub use value::Value;
pub use world::{Ended, Marks, Slot, World};
