//! The text of a check: notes, functions with their summaries and reports, totals; and the text of one run.
//!
//! Everything is put behind the bytes that are there already. A number that names nothing in the program, as a
//! name, a parameter or a state, is written as no bytes.
#![tactic(auto)]

mod checks;
mod functions;
mod names;
mod paths;
mod put;
mod reasons;
mod replays;
mod reports;
mod rows;
mod shown;

pub use checks::{Totals, text, totals_of};
pub use names::{file_text, global_text, name_text, param_text};
pub use paths::put_path;
pub use reasons::{ill_typed_word, limit_word, unsupported_word};
pub use replays::{Ending, replay};
pub use rows::{machine_state, machine_word};
pub use shown::put_choice;
