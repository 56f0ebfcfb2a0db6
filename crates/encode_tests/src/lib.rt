//! The gates of functions beside the interpreter, on every choice; and verdicts by gates beside verdicts by trying every choice.
//!
//! `setting` reads a text and lays a function of it out, `told` has what gates tell of one run, `beside` sets it beside that run,
//! `programs` goes through the functions of a program. `statements`, `expressions`, `calls` and `machines` have programs by what they
//! do, `generated_locks` and its fellows those of a generator, `worked` and `rows` worked rows.
#![tactic(auto)]

#[cfg(test)]
mod beside;
#[cfg(test)]
mod calls;
#[cfg(test)]
mod expressions;
#[cfg(test)]
mod generated_locks;
#[cfg(test)]
mod generated_machines;
#[cfg(test)]
mod generated_makers;
#[cfg(test)]
mod generated_objects;
#[cfg(test)]
mod machines;
#[cfg(test)]
mod programs;
#[cfg(test)]
mod rows;
#[cfg(test)]
mod setting;
#[cfg(test)]
mod statements;
#[cfg(test)]
mod told;
#[cfg(test)]
mod voids;
#[cfg(test)]
mod worked;
