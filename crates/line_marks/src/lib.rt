//! The line markers of a preprocessed file (GCC, "Preprocessor Output"): from which line of which source a line comes.
//!
//! `names` reads the name of a marker, `markers` a marker, `comments` says which lines begin inside of a comment, `marks`
//! gathers the markers of a file, and `sources` finds the source of a line.
#![tactic(auto)]

mod comments;
mod markers;
mod marks;
mod names;
mod sources;

pub use markers::Marker;
pub use marks::{LineMarks, Mark};
pub use sources::Source;
