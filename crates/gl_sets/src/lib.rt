//! Guarded sets: a pointer as the targets that it may have, each under a gate, its guard.
//!
//! For every choice exactly one guard of a set holds, and the set then points to that target. Target 0 is null, and target n + 1 is
//! location n. No two pairs of a set have one target, so a set never grows past the number of its different targets.
//! `specs/Guards.antt` says what a set points to.
#![tactic(auto)]

mod laws;
mod mapping;
mod pairs;
mod sets;

pub use laws::{good_sets_stay_good, points_are_guards};
pub use mapping::{moved, where_target};
pub use pairs::Pair;
pub use sets::{Set, is_never, join, points};
