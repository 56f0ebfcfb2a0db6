//! Which objects pointers lead to, as gates: for every choice the objects at the ends of walks from the roots.
//!
//! `specs/Walks.antt` says what a walk is. The gates are made by letting through one object after another: after the first k objects
//! each row has the objects that are reached by way of these alone. So they are at most cubic in the number of objects, and none
//! is made for a row whose gates never hold.
#![tactic(auto)]

mod rows;

pub use rows::reached;
