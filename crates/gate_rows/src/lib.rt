//! The rows that a known call needs, as gates, for every choice at once.
//!
//! `entries` has which of the first arguments are not 0, and `sought` whether a row stands that is sought: with entry bits, a
//! result and two states that gates tell. `given` has what the callee gives by the choice.
#![tactic(auto)]

mod entries;
mod given;
mod laws;
mod sought;

pub use entries::entry_bits;
pub use given::{Given, given_by};
pub use laws::{numbers_name_states, rows_stand_as_defined};
pub use sought::{Outcome, Side, Sought, has_row};
