//! Questions about the runs of a function are answered by trying every choice: each run is made by the interpreter, and asked.
//!
//! `search` has the first choice whose run says yes, `trying` who answers by trying every choice, and `answering` the answers.
#![tactic(auto)]

mod answering;
mod search;
mod trying;

pub use fn_runs::Runs;
pub use trying::Trying;
