//! Walks over pointers from object to object, of a run that is over: walked as often as there are locations, they come as far as walks of any
//! length do.
#![tactic(auto)]

mod laws;

pub use laws::walks_of_any_length;
