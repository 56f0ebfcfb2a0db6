//! Initialisers, declarations, statements and segments: which unit the tokens of a file spell.
//!
//! `specs/Reading.antt` has the reading as functions on lists of tokens. Two laws tie it to
//! `sc_tree/specs/Statements.antt` and `sc_tree/specs/Units.antt`: what is read is spelled (`sound`), and what
//! is spelled is read (`complete`). The code gives what the functions give: `initialisers` and `declarations`
//! read what their names say, `parts`, `selection`, `iteration`, `blocks` and `statements` read statements up to a
//! height over a function that reads those lower by one, `outlines` reads a segment before the body of a
//! function, and `segments` all segments of a file.
#![tactic(auto)]

mod blocks;
mod braced;
mod complete;
mod declarations;
mod found;
mod fronts;
mod initialisers;
mod iteration;
mod outlines;
mod parts;
mod segments;
mod selection;
mod sound;
mod statements;

pub use complete::{
    one_declaration, one_initialiser, one_list_of_segments, one_segment, one_statement,
    outline_is_read, reading_is_complete, segment_is_read, segments_are_read,
};
pub use segments::unit;
pub use sound::{outline_is_spelled, reading_is_spelled};

/// The greatest height of a tree.
const MAX_HEIGHT: usize = 128;
