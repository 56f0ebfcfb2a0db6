//! The graph of a function walked beside the interpreter: for each kind of statement and of expression small functions, at
//! depth 1 to 3, on every choice. Walk and run have to end alike, with the same store and the same trace.
//!
//! `setting` reads a text and lays a function of it out, `summaries` has what kept callees do, `walk`, `expressions`,
//! `objects` and `calls` are the walker, `beside` sets it beside the interpreter, and `statements`, `jumps`, `operators`,
//! `declarations` and `callees` have the functions; `driver` has one of a driver, on some of its choices. `graphs` has
//! graphs that were read by hand, and `told` tells a graph as text.
#![tactic(auto)]

#[cfg(test)]
mod beside;
#[cfg(test)]
mod callees;
#[cfg(test)]
mod calls;
#[cfg(test)]
mod declarations;
#[cfg(test)]
mod driver;
#[cfg(test)]
mod expressions;
#[cfg(test)]
mod graphs;
#[cfg(test)]
mod jumps;
#[cfg(test)]
mod objects;
#[cfg(test)]
mod operators;
#[cfg(test)]
mod setting;
#[cfg(test)]
mod statements;
#[cfg(test)]
mod summaries;
#[cfg(test)]
mod told;
#[cfg(test)]
mod walk;
