//! The law on the objects of a layout: each location is of an object that is a location. It is the clause of a function that does nothing.
#![tactic(auto)]

mod laws;

pub use laws::objects_are_locations;
