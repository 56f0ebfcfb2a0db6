//! The tests of runs: small functions, from their text to the trace and the end of a run, to the store that it
//! leaves, and to what it answers. `traces` has runs that come to their end or to an error, `asides` functions and
//! choices for each reason to set a run aside, `known` calls that act by a summary, and `stores` what is left behind a
//! run, and questions to it. `layouts` has what small functions have of locations and bits, and `checks` the text of a
//! check. `runs` reads a text and runs a function of it. The expected values are written by hand.
//!
//! They stand in a crate of their own, so that the interpreter is proved once, without tests.
#![tactic(auto)]

#[cfg(test)]
mod asides;
#[cfg(test)]
mod checks;
#[cfg(test)]
mod known;
#[cfg(test)]
mod layouts;
#[cfg(test)]
mod runs;
#[cfg(test)]
mod stores;
#[cfg(test)]
mod traces;
