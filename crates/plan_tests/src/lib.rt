//! The tests of plans and of sessions over them (`call_graph`, `session_core`). They stand in a crate of their own, so
//! that each of those crates is proved once, without tests.
#![tactic(auto)]

#[cfg(test)]
mod graphs;
#[cfg(test)]
mod staleness;
