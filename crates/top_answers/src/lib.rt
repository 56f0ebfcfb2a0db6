//! What a program answers: a status, and bytes that go to the output or to the error output.
//!
//! `status` has the numbers of statuses, `answer` gives what is due, `lines` makes the lines that say why there is no
//! text, and `refusals` the answer where the files are refused. `specs/Promises.antt` is the contract of every top call.
#![tactic(auto)]

mod answer;
mod lines;
mod refusals;
mod status;

pub use answer::{Answer, give};
pub use lines::{limit_line, name_line, word_line};
pub use refusals::refused;
pub use status::Status;
