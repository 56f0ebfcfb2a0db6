//! The tests of typing over texts: small files from their bytes to their typed program. `skips` has functions
//! that are skipped, with the reason and its place, `notes` declarations that leave a note, `taken` files in
//! which nothing is skipped, `bounds` the largest types, `sizes` the tables of types and constants for both widths, `machines` files that are
//! checked with a machine, and `programs` several files and limits. `found` reads and checks the files. `kinds` and
//! `constants` ask the tables of integer kinds themselves. The expected values are written by hand.
//!
//! They stand in a crate of their own, so that no crate of typing is proved a second time with tests.
#![tactic(auto)]

#[cfg(test)]
mod bounds;
#[cfg(test)]
mod constants;
#[cfg(test)]
mod found;
#[cfg(test)]
mod kinds;
#[cfg(test)]
mod machines;
#[cfg(test)]
mod notes;
#[cfg(test)]
mod programs;
#[cfg(test)]
mod sizes;
#[cfg(test)]
mod skips;
#[cfg(test)]
mod taken;
