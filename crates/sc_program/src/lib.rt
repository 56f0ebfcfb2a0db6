//! What all files of a program say together: which functions with bodies clash, which one a name means in a file, and
//! which type all files give a variable with linkage.
//!
//! `bodies` has functions with bodies, `globals` variables, `firsts` the look-up by hash that both stand on.
#![tactic(auto)]

mod bodies;
mod firsts;
mod globals;

pub use bodies::{Bodied, BodyNumbers, first_clash, is_too_many};
pub use globals::{GlobalTypes, LocalNames};
