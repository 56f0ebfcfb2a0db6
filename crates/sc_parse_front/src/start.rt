//! What the piece of specifiers at the front is to be.

ghost use Rattle.std.specs.Prelude.{◌≡◌, Some};
ghost use Rattle.sc_parse_front.specs.Start as spec;
ghost use Rattle.sc_parse_front.specs.Start.{NoStart, start_of};

use crate::cursor::Cursor;
use crate::tables;
use crate::type_names::TypeNames;
use sc_base::NameId;
use sc_tree::Reserved;
use sc_tree::expr::Storage;
use sc_tree::grammar::{SoFar, TypeWord};

/// What a piece of specifiers is to be, by the token that it begins with.
#[derive(Clone, Copy, Debug)]
pub enum Start {
    Storage(Storage),
    Word(TypeWord),
    /// A struct, or a union where the flag is set.
    Record(bool),
    Enum,
    /// A typedef name.
    Name(NameId),
}

fn of_reserved(word: Reserved) -> Option<Start>
    ensures { start_of result ≡ spec.reserved_start (Some word) NoStart }
{
    if let Some(storage) = tables::storage_word(word) {
        return Some(Start::Storage(storage));
    }
    if let Some(word) = tables::type_word(word) {
        return Some(Start::Word(word));
    }
    if let Some(union) = tables::record_word(word) {
        return Some(Start::Record(union));
    }
    if matches!(word, Reserved::Enum) {
        return Some(Start::Enum);
    }
    None
}

fn of_name(types: &TypeNames, so_far: &SoFar, word: Option<NameId>) -> Option<Start>
    ensures { start_of result ≡ spec.name_start types.now so_far.now word }
{
    let word = word?;
    match so_far {
        SoFar::Untyped => {
            if types.contains(word) {
                Some(Start::Name(word))
            } else {
                None
            }
        }
        _ => None,
    }
}

/// What the piece at the front is to be, if one begins there. A typedef name is one where no type
/// stands before it.
pub fn begun_piece(types: &TypeNames, so_far: &SoFar, tokens: &Cursor<'_>) -> Option<Start>
    ensures { start_of result ≡ spec.start types.now so_far.now tokens.now }
{
    match tokens.reserved() {
        Some(word) => of_reserved(word),
        None => of_name(types, so_far, tokens.word()),
    }
}
