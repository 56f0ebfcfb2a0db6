//! Which operator, and which word of a type, stands at the front of the tokens.

ghost use Rattle.std.specs.Prelude.{◌≡◌};
ghost use Rattle.sc_parse_front.specs.Front as spec;
ghost use Rattle.sc_parse_front.specs.Front.{is_suffix};
ghost use Rattle.sc_parse_front.specs.Front.{is_derived};

use crate::cursor::Cursor;
use crate::tables;
use crate::type_names::TypeNames;
use sc_base::NameId;
use sc_tree::op::{AssignOp, BinaryOp, Step, UnaryOp};
use sc_tree::{Punct, Reserved};

impl<'a> Cursor<'a> {
    /// The operator of that level between two operands.
    pub fn binary_at(&self, level: u8) -> Option<BinaryOp>
        ensures { result ≡ spec.binary_at level (spec.front self.now) }
    {
        let bound = tables::binary(self.front()?)?;
        if bound.level == level {
            Some(bound.op)
        } else {
            None
        }
    }

    /// Whether something stands there that may stand behind an operand.
    pub fn has_suffix(&self) -> bool
        ensures { result ≡ is_suffix (spec.suffix (spec.front self.now)) }
    {
        matches!(
            self.front(),
            Some(
                Punct::LeftBracket
                    | Punct::LeftParen
                    | Punct::Dot
                    | Punct::Arrow
                    | Punct::PlusPlus
                    | Punct::MinusMinus
            )
        )
    }

    /// Whether an array's brackets or parameters stand there.
    pub fn has_derived(&self) -> bool
        ensures { result ≡ is_derived (spec.suffix (spec.front self.now)) }
    {
        matches!(self.front(), Some(Punct::LeftBracket | Punct::LeftParen))
    }

    /// The operator before an operand.
    pub fn unary_at(&self) -> Option<UnaryOp>
        ensures { result ≡ spec.unary_at (spec.front self.now) }
    {
        tables::unary(self.front()?)
    }

    /// The `++` or `--`.
    pub fn step_at(&self) -> Option<Step>
        ensures { result ≡ spec.step_at (spec.front self.now) }
    {
        tables::step(self.front()?)
    }

    /// The assignment.
    pub fn assign_at(&self) -> Option<AssignOp>
        ensures { result ≡ spec.assign_at (spec.front self.now) }
    {
        tables::assign(self.front()?)
    }

    /// Whether the tokens begin with a word of specifiers or with a typedef name.
    pub fn begins_type(&self, types: &TypeNames) -> bool
        ensures { result ≡ spec.begins_type types.now self.now }
    {
        begins_piece(self.reserved()) || is_type_word(types, self.word())
    }
}

fn begins_piece(word: Option<Reserved>) -> bool
    ensures { result ≡ spec.begins_piece word }
{
    match word {
        None => false,
        Some(word) => {
            tables::storage_word(word).is_some()
                || tables::type_word(word).is_some()
                || tables::record_word(word).is_some()
                || matches!(word, Reserved::Enum)
        }
    }
}

fn is_type_word(types: &TypeNames, word: Option<NameId>) -> bool
    ensures { result ≡ spec.is_type_word types.now word }
{
    match word {
        None => false,
        Some(word) => types.contains(word),
    }
}
