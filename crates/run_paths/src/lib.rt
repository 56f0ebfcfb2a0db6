//! Where the paths of a callee's summary lead in the store of its caller, and what stands there: the items and the
//! written cells that a known call has to do with.
//!
//! `lookup` finds parts and globals, `follow` follows a path, `gathered` those of a whole summary, into a `Buffer`
//! that has its room before the run. None of the others takes memory.
#![tactic(auto)]

mod buffer;
mod follow;
mod gathered;
mod lookup;
mod outs;

pub use buffer::{Buffer, Found, Written};
pub use follow::{argument, usable};
pub use gathered::{Sort, Spots, is_of, meet_twice, resolve, spot_behind, spots_of};
pub use lookup::spot_at;
