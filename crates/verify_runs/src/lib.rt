//! The top call of `saturn_verify`: words and a file in, a line and a status out.
//!
//! `words` reads the words with `clap`, `finding` says what the bytes of the file are, `lines` writes it, and `verify`
//! has the call. `specs/Answer.antt` says which answer is due when.
#![tactic(auto)]

mod finding;
mod lines;
mod verified;
mod verify;
mod words;

pub use verified::Verified;
pub use verify::verify_main;
