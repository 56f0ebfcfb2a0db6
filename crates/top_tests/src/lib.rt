//! The tests of the top calls: whole runs over files and sinks in memory. `rows` runs checks and replays: the rows of `locks`,
//! `numbers`, `memory`, `skips`, `options`, `refusals`, `json_values` and `replays`. `faults` has files and sinks that fail and
//! words; `hostile` has files that are cut, very long or nested very deep; `workers` has runs with workers; `benches` has counted
//! checks of generated programs.
//!
//! They stand in one crate of their own, so that the top calls are proved once, without tests, and built once for all of them.
#![tactic(auto)]

#[cfg(test)]
mod benches;
#[cfg(test)]
mod faults;
#[cfg(test)]
mod hostile;
#[cfg(test)]
mod json_values;
#[cfg(test)]
mod locks;
#[cfg(test)]
mod memory;
#[cfg(test)]
mod numbers;
#[cfg(test)]
mod options;
#[cfg(test)]
mod refusals;
#[cfg(test)]
mod replays;
#[cfg(test)]
mod rows;
#[cfg(test)]
mod skips;
#[cfg(test)]
mod workers;
