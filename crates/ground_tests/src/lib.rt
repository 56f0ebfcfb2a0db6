//! The tests of what everything stands on: the ground itself (`base`), names in blocks (`blocks`), machines from
//! files (`machines`), and the plan of a call graph with the core of claims (`plans`). They stand in a crate of
//! their own, so that each of those crates is proved once, without tests.
#![tactic(auto)]

#[cfg(test)]
mod base;
#[cfg(test)]
mod blocks;
#[cfg(test)]
mod machines;
#[cfg(test)]
mod plans;
