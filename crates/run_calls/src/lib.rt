//! What a call does that no summary tells: operations of the machine, tries, allocation, release, and calls of which
//! nothing is known; and the steps that all calls share, as errors and objects that escape.
//!
//! `errors` ends a run at a location, `objects` frees objects and lets
//! them escape, `operations` has the operations of the machine and the tries, and `built_in` has the rest. Each
//! function does what the definition of its name in `sc_world` does. None takes memory.
#![tactic(auto)]

mod built_in;
mod errors;
mod objects;
mod operations;

pub use built_in::{allocate, first_argument, release, unknown};
pub use errors::fails;
pub use objects::{escape, free, mark_object};
pub use operations::{operation, try_lock};
