//! The pieces of specifiers, one after the other (C11 6.7).

ghost use Rattle.std.specs.Prelude.{◌≡◌, Some, length};
ghost use Rattle.sc_tree.specs.Specifiers.{no_pieces};
ghost use Rattle.sc_parse_front.specs.Front.{behind};
ghost use Rattle.sc_parse_front.specs.Start.{start_of};
ghost use Rattle.sc_parse_expr.specs.Gives.{Gives};
ghost use Rattle.sc_parse_expr.specs.Nests.{ReadsParts, under};
ghost use Rattle.sc_parse_expr.specs.Read.{read};
ghost use Rattle.sc_parse_expr.specs.Reading as spec;

use crate::found::{Found, Phrase, Wanted};
use crate::grammar::Grammar;
use sc_parse_front::{
    Cursor, ParseError, Start, TypeNames, begun_piece, finished, no_pieces, with_piece,
};
use sc_tree::expr::Base;
use sc_tree::grammar::{BodyForm, Gathered, Piece, Specified};
use std::alloc::Global;

/// A piece of one token.
fn one_token(tokens: &mut Cursor<'_>, piece: Piece) -> Result<Found<Piece>, ParseError>
    ensures { Gives (Some (read piece 0 (behind tokens.old))) result tokens.new }
{
    tokens.advance();
    Ok(Found {
        it: piece,
        height: 0,
    })
}

impl<
    't,
    F: Fn(Global, &TypeNames, &mut Cursor<'_>, usize, Wanted) -> Result<Found<Phrase>, ParseError>,
> Grammar<'t, F> {
    #[tactic(auto, unfolding(crate::specs::Reading::piece_by))]
    fn piece(&self, tokens: &mut Cursor<'_>, start: Start) -> Result<Found<Piece>, ParseError>
        requires { ReadsParts self.now F.pre F.post }
        ensures { Gives (under self.now spec.piece_by (start_of (Some start)) tokens.old) result tokens.new }
    {
        match start {
            Start::Storage(word) => one_token(tokens, Piece::Storage(word)),
            Start::Word(word) => one_token(tokens, Piece::Word(word)),
            Start::Name(word) => {
                let pos = tokens.first_pos();
                one_token(
                    tokens,
                    Piece::Whole(Base::Named(word, pos), BodyForm::NoBody),
                )
            }
            Start::Record(union) => {
                let pos = tokens.first_pos();
                tokens.advance();
                self.record(tokens, union, pos)
            }
            Start::Enum => {
                let pos = tokens.first_pos();
                tokens.advance();
                self.enumeration(tokens, pos)
            }
        }
    }

    /// All pieces, as long as one begins.
    fn gather(&self, tokens: &mut Cursor<'_>) -> Result<Found<Gathered>, ParseError>
        requires { ReadsParts self.now F.pre F.post }
        ensures { Gives (under self.now spec.gather (length tokens.old) no_pieces 0 tokens.old) result tokens.new }
    {
        let mut gathered = no_pieces(self.alloc);
        let mut height = 0;
        for _turn in 0..tokens.len() {
            let Some(start) = begun_piece(self.types, &gathered.so_far, tokens) else {
                return Ok(Found {
                    it: gathered,
                    height,
                });
            };
            let piece = self.piece(tokens, start)?;
            gathered = with_piece(gathered, piece.it)?;
            height = height.max(piece.height);
        }
        if begun_piece(self.types, &gathered.so_far, tokens).is_some() {
            return Err(ParseError::NoMatch);
        }
        Ok(Found {
            it: gathered,
            height,
        })
    }

    #[tactic(auto, unfolding(crate::specs::Reading::specs))]
    pub(crate) fn specs(&self, tokens: &mut Cursor<'_>) -> Result<Found<Specified>, ParseError>
        requires { ReadsParts self.now F.pre F.post }
        ensures { Gives (under self.now spec.specs tokens.old) result tokens.new }
    {
        let found = self.gather(tokens)?;
        let it = finished(found.it)?;
        Ok(Found {
            it,
            height: found.height,
        })
    }
}
