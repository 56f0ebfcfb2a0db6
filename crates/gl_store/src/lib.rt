//! Guarded stores: the store of a function as gates, for every choice at once.
//!
//! A location has a value, which is a word of gates, a guarded set of targets or nothing, and five gates for its flags.
//! `run_store` defines the store of one run, and `specs/Meets.antt` says when a guarded store is that store for a choice. Each
//! call here keeps this: what it gives is, for every choice, what the same step gives on the concrete store. `load` and `store` look at a
//! location of the kind asked for and leave any other alone.
#![tactic(auto)]

mod making;
mod marks;
mod stores;
mod values;

pub use making::merge;
pub use run_store::Flag;
pub use stores::{Flags, Location, Shape, Store};
pub use values::{Val, blank, choose, overwrite};
