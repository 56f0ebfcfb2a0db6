//! Questions to the runs of a function, and the trait of who answers them.
//!
//! A summary and its reports are made of nothing but the answers. Whoever answers, by trying every choice or otherwise,
//! stands behind the trait `Answerer`.
#![tactic(auto)]

mod answers;
mod queries;

pub use answers::Answerer;
pub use queries::Query;
