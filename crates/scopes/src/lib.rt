//! Scopes of names (C11 6.2.1), with look-up by hash: what a name means at a point of a file.
#![tactic(auto)]

mod scopes;
mod stack;

pub use scopes::{Block, Scopes};
