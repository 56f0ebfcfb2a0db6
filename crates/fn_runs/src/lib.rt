//! The runs of a function: what one of them answers, and how it is shown. Who answers questions about a function, by trying every
//! choice or by gates, stands on these.
//!
//! `runs` has what a run needs, `showing` what a run answers and how it is shown.
#![tactic(auto)]

mod runs;
mod showing;

pub use runs::Runs;
pub use showing::nothing_shown;
