//! What calls do to objects, as gates: objects escape, are freed, are allocated, and are given by calls of which nothing is known.
//!
//! A pointer is a guarded set of targets. `marks` marks what it points to where the run goes on, `escapes` the whole object in which that
//! is. `releases` sets a run aside that frees what may not be freed. `given` has what calls give by the choice.
#![tactic(auto)]

mod escapes;
mod given;
mod marks;
mod releases;

pub use escapes::{escape, escape_all};
pub use gate_acts::{chosen_number, pointer_of};
pub use given::{allocate, unknown};
pub use releases::{free, release};
