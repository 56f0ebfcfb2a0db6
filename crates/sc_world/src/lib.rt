//! The definitions of a run: which locations a function has, what a run does, which rows and reports there are,
//! and which bytes are written.
#![tactic(auto)]

mod laws;
mod run;

pub use laws::the_first_choice;
pub use run::{Origin, Reason};
