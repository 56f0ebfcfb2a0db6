//! The workers. A work has an output for each function of a plan, made from the outputs of the
//! function's kept callees. `run_alone` makes all of them on the calling thread. `run_all` makes them
//! by several workers that share a write-once database: each worker goes through the functions,
//! claims what it can, makes the output and publishes it (`worker`). Nothing is promised of time, of
//! fairness or of progress.
#![tactic(auto)]

mod alone;
mod gate;
mod outputs;
mod parallel;
mod row;
mod turns;

pub use alone::run_alone;
pub use gate::{FreeGate, Gate};
pub use parallel::{Ran, run_all};
pub use turns::{Ended, worker};
