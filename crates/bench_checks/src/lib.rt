//! The check of a generated program, of which nothing but counts is told.
//!
//! `trees` reads the generated text as the one file of a check, `program` makes the typed program with its plan of it,
//! and `lines` the counts of its verdicts. `specs/Bench.antt` says which program that is.
#![tactic(auto)]

mod lines;
mod program;
mod trees;

pub use lines::{lines_alone, lines_by};
pub use program::{NoProgram, generated};
