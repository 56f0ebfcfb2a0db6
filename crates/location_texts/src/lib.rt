//! How a location is reached: its path from parameters and globals, and its text as C spells it.
//!
//! A path goes upward from a location to the one that it is reached from, and so on. It has few steps: no more than
//! pointers are followed and structs and arrays are nested.
#![tactic(auto)]

mod origins;
mod paths;
mod put;
mod spelling;
mod texts;

pub use origins::call_pos;
pub use paths::path_of;
pub use texts::{Texts, text_at};
