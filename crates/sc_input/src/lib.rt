//! The input of a check: all files that the words name, read, cut into tokens and made into trees, with their line
//! markers and the machine of states if one is named; or the first refusal, in the order in which files are read.
#![tactic(auto)]

mod input;
mod machine;
mod reading;
mod refusal;

pub use input::Input;
pub use reading::read_input;
pub use refusal::Refusal;
