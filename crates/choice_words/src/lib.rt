//! What a choice says, thing by thing: of each location the value of its cell and its state at entry; of each call in each
//! turn of the loops round it what it gives, and what it does to what its callee's summary speaks of.
//!
//! `subjects` has what is spoken of, `locations` and `calls` find it in a layout, with the `parts` of a callee, and `spoken`
//! is all of it. `sayings` has what is said, and `saying` says it by a choice. `laws` says that each bit is spoken of.
#![tactic(auto)]

mod calls;
mod laws;
mod locations;
mod parts;
mod saying;
mod sayings;
mod spoken;
mod subjects;

pub use laws::each_bit_is_spoken_of;
pub use parts::Part;
pub use saying::said;
pub use sayings::{Said, Word};
pub use spoken::things;
pub use subjects::{Reading, Subject, Thing};
