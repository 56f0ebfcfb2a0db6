//! A net of gates over the bits of a choice: constants, inputs, and gates that each read earlier gates.
//!
//! A gate is named by its number in the net. The net folds what is constant, and hands out an earlier gate where the same gate was
//! made before, so what does not depend on the choice costs nothing. A clause on a new gate says its value for every choice, and
//! every call keeps the values of earlier gates (`Grown`).
#![tactic(auto)]

mod facts;
mod lanes;
mod laws;
mod literals;
mod memory;
mod nodes;

pub use facts::{Fact, Facts, known, seen};
pub use lanes::lanes_stay;
pub use laws::{growth_composes, runs_fit_tables, values_are_runs};
pub use memory::OutOfMemory;
pub use nodes::{Gate, Net, Node};
