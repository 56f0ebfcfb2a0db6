//! The verdict of a function by its gates, where it has some, and by trying every choice where it has none. Which of the two is of no
//! consequence for the verdict: both answer as the runs do.
#![tactic(auto)]

mod gates;
mod judging;

pub use gates::Gates;
pub use judging::judge;
