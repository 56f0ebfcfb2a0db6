//! The tests of gates: nets, words, guarded sets and stores, walks, and the clauses of a net. They stand in a
//! crate of their own, so that each of those crates is proved once, without tests.
#![tactic(auto)]

#[cfg(test)]
mod clauses;
#[cfg(test)]
mod nets;
#[cfg(test)]
mod sets;
#[cfg(test)]
mod stores;
#[cfg(test)]
mod values;
#[cfg(test)]
mod walks;
#[cfg(test)]
mod words;
