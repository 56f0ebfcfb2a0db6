//! Where the paths of a callee's summary lead in the store of its caller, as gates, for every choice at once.
//!
//! A path is followed by a guarded set of targets: target n + 1 is location n, and target 0 says that the path is missing.
//! `moves` has where targets go by the layout alone, `objects` what a pointer may lead to, `steps` the steps of a path one
//! after the other, and `paths` a whole path from the arguments and globals of a call. `gathered` has the items of a whole
//! summary, `cells` its written cells, and `alias` whether two items are at one location. Nothing of the store is changed.
#![tactic(auto)]

mod alias;
mod cells;
mod gathered;
mod moves;
mod objects;
mod paths;
mod steps;

pub use alias::meet_twice;
pub use cells::{Written, writes};
pub use gathered::{Found, locks, outs};
pub use paths::{follow_out, follow_path};
