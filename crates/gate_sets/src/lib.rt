//! What a known call writes, as gates, for every choice at once: the states of the locations of its items, the pointers that its parameters
//! point to, and its other written cells.
//!
//! Where each thing is tells a guarded set: target n + 1 is location n, and target 0 says that it is missing, so that nothing is written.
//! `writing` writes a value and marks a location where a set leads. `states`, `outs` and `writes` do it for all things of a call, one after
//! the other, by what the choice says of each. Neither ends nor reasons of the run change.
#![tactic(auto)]

mod outs;
mod states;
mod writes;
mod writing;

pub use outs::set_outs;
pub use states::set_states;
pub use writes::set_writes;
pub use writing::mark_target;
