//! What a session keeps of each function between two answers, and which functions must be analysed anew. A verdict may be
//! used again where the function's matter and the verdicts of its kept callees are those that it was made of; every other
//! function is stale.
//!
//! `same` tells whether two verdicts are equal, `kept` what is kept of a function, `staleness` which functions are stale.
#![tactic(auto)]

mod callee_rows;
mod kept;
mod same;
mod staleness;
mod summaries;
mod verdicts;

pub use callee_rows::rows_of;
pub use kept::{Kept, Matter};
pub use same::{Same, same_items};
pub use staleness::{is_stale, stale};
pub use verdicts::{same_verdict, same_verdicts};
