//! The tests of what a check begins with: the words of a command line (`words`), the files that they name
//! (`reading`), and why there is no input (`refusals`). `given` makes files in memory and words. The expected values
//! are written by hand.
//!
//! They stand in a crate of their own, so that the words and the input are proved once, without tests.
#![tactic(auto)]

#[cfg(test)]
mod given;
#[cfg(test)]
mod reading;
#[cfg(test)]
mod refusals;
#[cfg(test)]
mod words;
