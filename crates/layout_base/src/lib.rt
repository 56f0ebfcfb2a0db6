//! What is laid out of a function: its locations, its calls in their turns, and the bits that choose a run of it; and
//! the single steps that add to it.
//!
//! A step either changes what is laid out as the definition says, or it is refused: at the limit of locations, or for
//! want of memory.
#![tactic(auto)]

mod ground;
mod layout;
mod steps;

pub use ground::{Ground, Parts};
pub use layout::{Chosen, Kind, Location, Occurrence, Places, Spot};
pub use steps::{is_cell, root_or};
