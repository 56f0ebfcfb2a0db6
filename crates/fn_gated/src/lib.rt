//! Questions about the runs of a function, asked of gates: a question is a gate that holds for exactly the choices whose run answers yes.
//! Whether some run does is whether the gate holds for some choice, and the first run that does is the run on the first choice for which
//! it holds.
//!
//! `gated` has who makes the gate of a question, `asking` asks about the gate, and `laws` says that gates answer as runs do.
#![tactic(auto)]

mod asking;
mod gated;
mod laws;

pub use asking::{ask_first, ask_some};
pub use gated::Gated;
pub use laws::gates_answer_as_runs_do;
