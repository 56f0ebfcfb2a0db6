//! Statements of a run (C11 6.8): what a statement does to the world, and where the run goes on behind it.
//!
//! `flow` has where a run goes on and what it seeks, `seeking` how it finds that among items, `conditions` conditions
//! with their events, `simple` statements without statements in them, `loops` what loops do beside their bodies, and
//! `execute` the walk over statements. Nothing here takes memory.
#![tactic(auto)]

mod conditions;
mod execute;
mod flow;
mod loops;
mod seeking;
mod simple;

pub use execute::exec;
pub use flow::Flow;
