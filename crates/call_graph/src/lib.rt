//! The plan of a call graph: which edges are cut so that the others have no cycle.
//!
//! An edge is cut where its callee reaches its caller and does not stand behind it. Who reaches whom is found by
//! components (`search`), in a time that is linear in functions and calls. The search is not trusted: it leaves
//! evidence, which is tested (`is_evidence`). Where the test fails, which was not seen, the whole table of who reaches
//! whom is made by the definition (`table`), slowly.
#![tactic(auto)]

mod components;
mod evidence;
mod plans;
mod tables;

pub use components::search;
pub use evidence::{Evidence, Link, is_evidence};
pub use plans::plan_of;
