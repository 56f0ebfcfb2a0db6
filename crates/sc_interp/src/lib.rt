//! The interpreter: one function, one list of choices, one run.
//!
//! `machine` has the memory of a function's runs and the run itself, `body` the run of a body and the function's
//! result, `calling` what its calls do, `outcome` how a run ends. A run takes no memory.
#![tactic(auto)]

mod body;
mod calling;
mod machine;
mod outcome;

pub use machine::Machine;
pub use outcome::Outcome;
