//! What the names of variables and functions mean in one file after the other, as tables by their numbers. The
//! tables of a file are made from those of the file before: only the names are looked up of which one of the two
//! has its own meaning, so all files together cost no more than their declarations.
//!
//! `tables` has the tables of the file at hand, `own` the names of which a file has its own meaning, `filling`
//! how entries are set.
#![tactic(auto)]

mod filling;
mod own;
mod tables;

pub use tables::FileTables;
