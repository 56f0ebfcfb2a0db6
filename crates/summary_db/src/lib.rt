//! The write-once database of a plan. Workers step on a shared table: each function of the plan has a
//! word, 0 for free, 1 for claimed and 2 for published, and each output has a place for every
//! function that takes it. A function is claimed at most once (`try_claim`), its callees' outputs are
//! moved to it (`callee`), and its own output is put where its callers and the reader will find it
//! (`publish`), all without a lock. `rule` holds what every step keeps, in terms of words, places and
//! what each pass knows.
#![tactic(auto)]

mod calls;
mod closed;
mod db;
mod knows;
pub mod laws;
mod lay;
mod make;
mod pass;
mod place;
mod rule;
mod slots;
mod steps;
mod work;

pub use closed::Closed;
pub use db::Db;
pub use knows::Knows;
pub use pass::{Claim, Job, Pass, Seen};
pub use place::Place;
pub use work::Work;
