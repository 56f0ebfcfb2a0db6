//! What stands at the front of the tokens of a declaration or a statement.

ghost use Rattle.std.specs.Prelude.{◌≡◌};
ghost use Rattle.sc_parse_front.specs.Front.{front, front_reserved, is_equals, is_left_brace, is_left_paren};
ghost use Rattle.sc_parse_front.specs.Error.{Passes};
ghost use Rattle.sc_parse_unit.specs.Reading as spec;
ghost use Rattle.sc_parse_unit.specs.Reading.{keyword_of};

use crate::found::Keyword;
use sc_base::NameId;
use sc_parse_front::{Cursor, ParseError};
use sc_tree::{Punct, Reserved};

/// Whether `.` stands at the front.
pub(crate) fn is_dot(tokens: &Cursor<'_>) -> bool
    ensures { result ≡ spec.is_dot (front tokens.now) }
{
    matches!(tokens.front(), Some(Punct::Dot))
}

/// Whether no designator begins at the front.
pub(crate) fn is_no_designator(tokens: &Cursor<'_>) -> bool
    ensures { result ≡ spec.is_no_designator tokens.now }
{
    !matches!(tokens.front(), Some(Punct::Dot | Punct::LeftBracket))
}

/// Whether `else` stands at the front.
pub(crate) fn is_else(tokens: &Cursor<'_>) -> bool
    ensures { result ≡ spec.is_else (front_reserved tokens.now) }
{
    matches!(tokens.reserved(), Some(Reserved::Else))
}

fn is_while(tokens: &Cursor<'_>) -> bool
    ensures { result ≡ spec.is_while (front_reserved tokens.now) }
{
    matches!(tokens.reserved(), Some(Reserved::While))
}

/// The label at the front: a word, be it a typedef name, before a colon.
pub(crate) fn label_at(tokens: &Cursor<'_>) -> Option<NameId>
    ensures { result ≡ spec.label_at tokens.now }
{
    if tokens.behind().is_colon() {
        tokens.word()
    } else {
        None
    }
}

/// Whether a label stands at the front.
pub(crate) fn is_label(tokens: &Cursor<'_>) -> bool
    ensures { result ≡ spec.is_label (spec.label_at tokens.now) }
{
    label_at(tokens).is_some()
}

/// Goes behind a `(`, which is to stand at the front.
pub(crate) fn pass_left_paren(tokens: &mut Cursor<'_>) -> Result<(), ParseError>
    ensures { Passes (is_left_paren (front tokens.old)) result tokens.old tokens.new }
{
    let found = tokens.is_left_paren();
    tokens.pass(found)
}

/// Goes behind a `{`, which is to stand at the front.
pub(crate) fn pass_left_brace(tokens: &mut Cursor<'_>) -> Result<(), ParseError>
    ensures { Passes (is_left_brace (front tokens.old)) result tokens.old tokens.new }
{
    let found = tokens.is_left_brace();
    tokens.pass(found)
}

/// Goes behind a `=`, which is to stand at the front.
pub(crate) fn pass_equals(tokens: &mut Cursor<'_>) -> Result<(), ParseError>
    ensures { Passes (is_equals (front tokens.old)) result tokens.old tokens.new }
{
    let found = tokens.is_equals();
    tokens.pass(found)
}

/// Goes behind a `while`, which is to stand at the front.
pub(crate) fn pass_while(tokens: &mut Cursor<'_>) -> Result<(), ParseError>
    ensures { Passes (spec.is_while (front_reserved tokens.old)) result tokens.old tokens.new }
{
    let found = is_while(tokens);
    tokens.pass(found)
}

/// What the reserved word at the front begins.
pub(crate) fn keyword(tokens: &Cursor<'_>) -> Keyword
    ensures { keyword_of result ≡ spec.keyword (front_reserved tokens.now) }
{
    keyword_by(tokens.reserved())
}

fn keyword_by(word: Option<Reserved>) -> Keyword
    ensures { keyword_of result ≡ spec.keyword word }
{
    match word {
        Some(Reserved::If) => Keyword::If,
        Some(Reserved::While) => Keyword::While,
        Some(Reserved::Do) => Keyword::Do,
        Some(Reserved::For) => Keyword::For,
        Some(Reserved::Switch) => Keyword::Switch,
        Some(Reserved::Goto) => Keyword::Goto,
        Some(Reserved::Break) => Keyword::Break,
        Some(Reserved::Continue) => Keyword::Continue,
        Some(Reserved::Return) => Keyword::Return,
        _ => Keyword::Other,
    }
}
