//! What the text of a function names, how many nodes it has once its loops are unrolled, and its calls in order.
//!
//! `gather` walks over the typed body once, and then over the paths of the callees' summaries. It stops as soon
//! as the nodes pass their limit.
#![tactic(auto)]

mod context;
mod effect;
mod expressions;
mod found;
mod refused;
mod statements;
mod summaries;
mod types;
mod walk;

pub use context::Context;
pub use effect::Effect;
pub use found::{Found, Round, Site, Stands};
pub use refused::Refused;
pub use types::{integer_bits, is_integer, is_pointer, is_void, target};
pub use walk::gather;
