//! A call that acts by the summary of its callee, as gates, for every choice at once.
//!
//! All paths of the summary are followed before anything is changed. Then come, in this order: whether two items are at one location, the
//! errors of items, whether the rows stand that the choice needs, and the effects. `known` has the whole call, `acts` its steps once all
//! paths are followed, `effects` the effects, and `marked` the mark on what is given.
#![tactic(auto)]

mod acts;
mod effects;
mod knowing;
mod marked;

pub use knowing::{Knowing, known};
