//! The locations of a function, its calls in their turns, and the bits that choose a run of it; or the limit that the
//! function passes.
//!
//! `places` walks over the text first (`sc_gather`), then lays the objects out one behind the other, and then
//! numbers the bits of the calls. It stops as soon as a limit is passed.
#![tactic(auto)]

mod calls;
mod cells;
mod entry;
mod known;
mod laying;
mod numbering;
mod objects;

pub use laying::{PlaceAnswer, places};
