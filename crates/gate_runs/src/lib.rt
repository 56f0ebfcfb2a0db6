//! Runs as gates: where a run stands, for every choice at once.
//!
//! A run goes on, or it was set aside for a reason, or it ended by an error at a location, or it never came here. Its
//! gates (`Ends`) say which. A step of gates does what a step of runs does (`Does` of `specs/Stands.antt`), and steps
//! one after the other do what runs do one after the other (`bind` of `proofs/Bind.antt`).
#![tactic(auto)]

mod ends;

pub use ends::Ends;
