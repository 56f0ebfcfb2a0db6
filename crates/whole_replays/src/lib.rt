//! The replay of a run of one function of the files that were read: typing, the plan of the functions, the verdicts of
//! those that the function needs, and its run, as text or as JSON; or the first reason why there is none.
//!
//! `named` finds the function, `spared` the functions that it does not need, `needed` the verdicts of the others as a
//! work over the plan, `telling` the whole, and `told` is what comes out. The trees that are replayed (`Sources`) are passed on.
#![tactic(auto)]

mod named;
mod needed;
mod spared;
mod telling;
mod told;

pub use fn_replay::Form;
pub use telling::{Asked, tell};
pub use told::Told;
pub use whole_checks::Sources;
