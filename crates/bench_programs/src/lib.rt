//! Programs that are generated for measurements: as many functions as wanted, of eight shapes in turn.
#![tactic(auto)]

mod lines;
mod put;
mod shape;

pub use lines::bench_text;
pub use shape::Shape;
