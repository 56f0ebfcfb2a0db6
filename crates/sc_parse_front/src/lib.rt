//! What the parsers see of the tokens that are left: which sign, word, operator or type stands at the
//! front, the typedef names so far, and what the words of specifiers make together.
//!
//! Each function looks at one or two tokens and reads no tree. `cursor` has the tokens that are left,
//! `signs` the punctuators, `fronts` the operators and the words of types, by the `tables` of C11 6.5 and
//! 6.7, `start` what a piece of specifiers begins with, `words` what the pieces make, `type_names` the
//! typedef names, `lists` the lists that trees hold, and `error` why nothing was read.
#![tactic(auto)]

mod cursor;
mod error;
mod fronts;
mod lists;
mod signs;
mod start;
mod tables;
mod type_names;
mod words;

pub use cursor::Cursor;
pub use error::ParseError;
pub use lists::room_for_one;
pub use start::{Start, begun_piece};
pub use type_names::TypeNames;
pub use words::{finished, no_pieces, with_piece};
