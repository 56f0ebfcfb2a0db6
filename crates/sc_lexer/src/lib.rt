//! The lexer: the bytes of a file become its tokens and segments.
//!
//! `pieces` cuts off the piece at the front (with `bytes`, `tables`, `numbers` and `literals` below it),
//! `place` counts lines and columns, `words` numbers the names, `scan` makes tokens of all pieces, and
//! `brackets`, `removal` and `segments` do what is done with the list of them. What the tokens of a file
//! are is defined in `sc_tree`, in `specs/Lexed.antt`.
#![tactic(auto)]

mod answer;
mod brackets;
mod bytes;
mod laws;
mod lex;
mod literals;
mod numbers;
mod pieces;
mod place;
mod removal;
mod roles;
mod scan;
mod segments;
mod tables;
mod words;

pub use answer::LexAnswer;
pub use laws::{pieces_have_bytes, punctuator_is_the_longest};
pub use lex::tokens;
