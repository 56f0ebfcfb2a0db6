//! The verdict of a function: by gates that tell of all its runs and a solver, or by trying every choice where it has no gates.
#![tactic(auto)]

mod analysis;

pub use analysis::analyse;
