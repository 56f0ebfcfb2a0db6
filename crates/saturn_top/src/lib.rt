//! The top calls of the checker: words and files in, a text or its JSON and a status out.
//!
//! `alone` is the call that works on the calling thread, `workers` the one that has workers. Both read the words
//! (`saturn_words`) and the files (`sc_input`), find what is said of them (`whole_checks`, `json_checks`) or the line of a refusal, and
//! write (`top_answers`); `found` has what they share. `specs/Checks.antt` says which answer is due when.
#![tactic(auto)]

mod alone;
mod found;
mod workers;

pub use alone::check_alone;
pub use json_checks::Sources;
pub use top_answers::Status;
pub use workers::check_main;
