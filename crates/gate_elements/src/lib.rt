//! Elements of arrays as gates (C11 6.5.2.1).
//!
//! A set of arrays and an index lead, for each choice, to one location, or to none. Each location that is an element costs
//! two gates, and one for the test whether there is one.
#![tactic(auto)]

mod elements;

pub use elements::{Elements, Entry, array_index, element};
