//! What runs of a function show, as gates: how they end, what was given at entry, what they mark, and rows of locations.
//!
//! The runs are told by gates (`flow_ends::Encoded`). A fact of a run that is over (`sc_world/specs/Shows.antt`) becomes one gate, which holds
//! for exactly those choices whose run has it. `around` has what is read, `ends` how a run ends, `entry` and `numbers` what the choice gave,
//! `marks` and `results` what it left, `rows` the rows of locations, `shared` what all
//! rows read, and `questions` the questions that need no walks over pointers.
#![tactic(auto)]

mod around;
mod ends;
mod entry;
mod joining;
mod marks;
mod numbers;
mod questions;
mod results;
mod rows;
mod shared;

pub use around::{Around, count, location_at, param_location, param_object};
pub use ends::{ends_at, errs_at, exits};
pub use entry::{is_given, is_met};
pub use joining::{at_exit, both, either};
pub use marks::has;
pub use numbers::{is_state, number_is, state_before, state_now};
pub use questions::{ends_at_text, sets, touches, writes};
pub use results::{gives, gives_pointer, is_true};
pub use rows::{begins, ends_so, has_lock_row};
pub use shared::Shared;
