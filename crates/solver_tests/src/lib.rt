//! The tests of the solvers, of the questions to them and of the answers to formulas. They stand in a crate of their
//! own, so that each of those crates is proved once, without tests.
#![tactic(auto)]

#[cfg(test)]
mod formulas;
#[cfg(test)]
mod learning;
#[cfg(test)]
mod literals;
#[cfg(test)]
mod pools;
#[cfg(test)]
mod questions;
#[cfg(test)]
mod splitting;
