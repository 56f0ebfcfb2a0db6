//! The tests of the lexer and the parsers over texts: `lexing` has the tokens of small files, `expressions`
//! which trees expressions are, `files` what the segments of a file are. They stand in a crate of their own,
//! so that a crate of the parsers is proved once, without tests, and a change of the lexer does not prove
//! the parsers again.
#![tactic(auto)]

#[cfg(test)]
mod expressions;
#[cfg(test)]
mod files;
#[cfg(test)]
mod lexing;
