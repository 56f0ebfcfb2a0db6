//! Whether tokens stand in braces.

ghost use Rattle.std.specs.Prelude.{◌≡◌};
ghost use Rattle.sc_tree.specs.Units.{is_braced, turn_of};
ghost use Rattle.sc_parse_unit.specs.Reading.{is_closing, is_opening};

use sc_parse_front::Cursor;
use sc_tree::{Kind, Punct};

/// Whether a token opens a bracket.
fn opens(kind: Kind) -> bool
    ensures { result ≡ is_opening (turn_of kind) }
{
    matches!(
        kind,
        Kind::Punct(Punct::LeftParen | Punct::LeftBracket | Punct::LeftBrace)
    )
}

/// Whether a token closes a bracket.
fn closes(kind: Kind) -> bool
    ensures { result ≡ is_closing (turn_of kind) }
{
    matches!(
        kind,
        Kind::Punct(Punct::RightParen | Punct::RightBracket | Punct::RightBrace)
    )
}

/// Whether the tokens begin with a brace whose other half ends them.
pub(crate) fn is_braced(tokens: &Cursor<'_>) -> bool
    ensures { result ≡ is_braced tokens.now }
{
    if !tokens.is_left_brace() {
        return false;
    }
    let count = tokens.len();
    let mut left = tokens.behind();
    let mut open: usize = 1;
    for _turn in 1..count {
        let Some(kind) = left.kind() else {
            return false;
        };
        left.advance();
        if opens(kind) {
            open += 1;
            continue;
        }
        if !closes(kind) {
            continue;
        }
        if open == 1 {
            return left.is_empty();
        }
        open -= 1;
    }
    false
}
