// A region of clauses: all clauses of a solver in one list, block after block, so that reading one
// touches one stretch of memory. A clause is named by the place where its block begins. A block that
// is dropped stays where it is until the region is compacted, which gives the live blocks new places.
#![tactic(auto)]

mod layout;
pub mod moves;
pub mod pool;

pub use moves::Moves;
pub use pool::{Pool, Ref};
