//! Answers to questions of a run that is over: rows, writes, errors, and objects that are lost.
//!
//! `over` has the run and what is read of it, `ended` how it ended, `entry` what its choice gave at entry, `holders` the
//! objects that others hold, `walks` the objects to which walks lead, `objects` what became of an object, `rows` the rows
//! of the run, and `answering` the answers.
#![tactic(auto)]

mod answering;
mod ended;
mod entry;
mod holders;
mod objects;
mod over;
mod rows;
mod walks;

pub use answering::says;
pub use over::Over;
