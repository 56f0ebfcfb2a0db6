//! The calls of the runs of a function, as the walk over expressions makes them: `Acts` gives `run_exprs` what
//! `run_known` says that calls do.
#![tactic(auto)]

mod acts;

pub use acts::Acts;
