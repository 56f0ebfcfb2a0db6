//! The store with which a function begins, as gates over the bits of a choice.
//!
//! The inputs of the net are the bits of the choice. `bits` has bits and numbers of the choice, `cells` the cells of
//! locations, `states` their states, and `entry` the store: the cells of all locations, and their states behind them.
//! `laws` has what holds of the bits of every layout.
#![tactic(auto)]

mod bits;
mod cells;
mod entry;
mod laws;
mod states;

pub use bits::{chosen_bit, chosen_is, chosen_number};
pub use entry::entered;
pub use laws::locations_read_their_layout;
pub use states::named_state;
