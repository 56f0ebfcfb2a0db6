//! How the runs of a function end, as gates: at the function's end, by an error at a location, or set aside.
//!
//! Each node of a graph tells how its own step ends (`gate_runs::Ends`). Here that is gathered over all nodes: a run that was over before is
//! not over once more, so what is told of its end stays. `Encoded` is what a function's runs are when all nodes were gone through.
#![tactic(auto)]

mod encoded;
mod fates;

pub use encoded::Encoded;
pub use fates::Fates;
