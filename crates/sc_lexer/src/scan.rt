//! All tokens of a file, those too that leave nothing.
#![tactic(auto)]

ghost use Rattle.std.specs.Prelude.{◌≡◌, ◌+◌, ◌-◌, ◌^◌, ◌<◌, ◌≤◌, ◌++◌, [], length, IfOk, OnOk};
ghost use Rattle.sc_tree.specs.Cut.{cut, token_of};
ghost use Rattle.sc_lexer.specs.Answer.{Grow, Scans};
ghost use Rattle.sc_lexer.specs.Naming.{with_words};

use crate::answer::LexAnswer;
use crate::pieces::piece;
use crate::place::Place;
use crate::words::kind_of;
use name_interner::Interner;
use sc_base::{List, OutOfMemory, Pos};
use sc_tree::{Kind, Token};
use std::alloc::Global;

/// Puts the token of that kind behind the others, if there is one.
fn push(tokens: &mut List<Token>, kind: Option<Kind>, pos: Pos) -> Result<(), OutOfMemory>
    ensures { OnOk result (tokens.new ≡ tokens.old ++ token_of kind pos) }
{
    match kind {
        Some(kind) => tokens.push(Token { kind, pos }),
        None => Ok(()),
    }
}

/// The tokens of the pieces, or the place where nothing begins.
pub(crate) fn scan(
    alloc: Global,
    names: &mut Interner,
    file: u32,
    bytes: &[u8],
) -> Result<List<Token>, LexAnswer>
    requires { length names.old + length bytes.now < 2 ^ 32 - 1 }
    ensures tokens { Scans result (cut names.new file (length bytes.now) [] bytes.now) }
    ensures few { IfOk result (λ tokens. length tokens ≤ length bytes.now) }
    ensures names { Grow (length bytes.now) names.old names.new }
    ensures named { IfOk result (λ _. names.new ≡ with_words (length bytes.now) names.old [] bytes.now) }
{
    let mut tokens = List::new(alloc);
    let mut place = Place::start();
    let mut at = 0;
    let end = bytes.len();
    // Each piece has a byte or more.
    for _ in 0..end {
        if at == end {
            return Ok(tokens);
        }
        let (_, rest) = bytes.split_at(at);
        let Some(piece) = piece(place.is_fresh, rest) else {
            return Err(LexAnswer::Lexical(place.pos(file)));
        };
        let (text, _) = rest.split_at(piece.len);
        let kind = kind_of(names, piece.form, text)?;
        push(&mut tokens, kind, place.pos(file))?;
        place = place.past(text);
        at += piece.len;
    }
    Ok(tokens)
}
