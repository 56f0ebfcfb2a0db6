//! The replay of a function: the run on the choice that digits spell, as text or as JSON.
//!
//! `forms` has the forms and `replayed` what comes out, `running` tells a run, `replaying` has the way to it: the layout of
//! the function, its choice, its run; and `laws` says that what a report prints is replayed.
#![tactic(auto)]

mod forms;
mod laws;
mod replayed;
mod replaying;
mod running;

pub use forms::Form;
pub use laws::printed_runs_are_replayed;
pub use replayed::Replayed;
pub use replaying::{Run, replay_run};
