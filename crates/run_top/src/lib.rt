//! The top call of the replay: words and files in, the text of one run and a status out.
//!
//! `running` has the call. It reads the words (`saturn_words`) and the files (`sc_input`), finds what is told of the run
//! (`whole_replays`) or the line of a refusal (`lines`), and writes (`top_answers`). `specs/Runs.antt` says which answer
//! is due when.
#![tactic(auto)]

mod lines;
mod running;

pub use running::run_main;
pub use top_answers::Status;
