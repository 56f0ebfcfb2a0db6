//! Enums with their enumerators (C11 6.7.2.2).

ghost use Rattle.std.specs.Prelude.{◌≡◌, IfOk};
ghost use Rattle.sc_tree.specs.declared.expr.Base.TheVariants as base;
ghost use Rattle.sc_tree.specs.declared.expr.EnumSpec.{roll-EnumSpec};
ghost use Rattle.sc_tree.specs.declared.grammar.Piece.TheVariants as piece;
ghost use Rattle.sc_parse_front.specs.Front.{front_word};
ghost use Rattle.sc_parse_expr.specs.Reading.{some_enumerators};
ghost use Rattle.sc_parse_expr.specs.Gives.{Gives};
ghost use Rattle.sc_parse_expr.specs.Nests.{ReadsParts, under};
ghost use Rattle.sc_parse_expr.specs.Reading as spec;

use crate::found::{Found, Phrase, Wanted};
use crate::grammar::{Grammar, node};
use sc_base::{Boxed, List, NameId, OutOfMemory, Pos};
use sc_parse_front::{Cursor, ParseError, TypeNames};
use sc_tree::expr::{Base, EnumSpec, Enumerator, Expr};
use sc_tree::grammar::{BodyForm, Level, Piece};
use std::alloc::Global;

fn enum_piece(
    alloc: Global,
    pos: Pos,
    tag: Option<NameId>,
    body: Option<List<Enumerator>>,
    form: BodyForm,
) -> Result<Piece, OutOfMemory>
    ensures { IfOk result (λ made. made ≡ piece.Whole (base.Enum (roll-EnumSpec (record { pos = pos; tag = tag; body = body }))) form) }
{
    let spec = Boxed::new(alloc, EnumSpec { pos, tag, body })?;
    Ok(Piece::Whole(Base::Enum(spec), form))
}

impl<
    't,
    F: Fn(Global, &TypeNames, &mut Cursor<'_>, usize, Wanted) -> Result<Found<Phrase>, ParseError>,
> Grammar<'t, F> {
    #[tactic(auto, unfolding(crate::specs::Reading::enumerator))]
    fn enumerator(&self, tokens: &mut Cursor<'_>) -> Result<Found<Enumerator>, ParseError>
        requires { ReadsParts self.now F.pre F.post }
        ensures { Gives (under self.now spec.enumerator tokens.old) result tokens.new }
    {
        let Some(name) = tokens.word() else {
            return Err(ParseError::NoMatch);
        };
        let pos = tokens.first_pos();
        tokens.advance();
        if !tokens.is_equals() {
            return Ok(Found {
                it: Enumerator {
                    pos,
                    name,
                    value: None,
                },
                height: 0,
            });
        }
        tokens.advance();
        let value = self.inner_expr(tokens, Level::Choice)?;
        Ok(Found {
            it: Enumerator {
                pos,
                name,
                value: Some(value.it.tree),
            },
            height: value.height,
        })
    }

    /// The enumerators, with commas between; a comma may end them.
    fn enumerators(&self, tokens: &mut Cursor<'_>) -> Result<Found<List<Enumerator>>, ParseError>
        requires { ReadsParts self.now F.pre F.post }
        ensures { Gives (under self.now some_enumerators tokens.old) result tokens.new }
    {
        let mut all = List::new(self.alloc);
        let mut height = 0;
        for _turn in 0..tokens.len() {
            let found = self.enumerator(tokens)?;
            all.push(found.it)?;
            height = height.max(found.height);
            if !tokens.is_comma() {
                return Ok(Found { it: all, height });
            }
            tokens.advance();
            if tokens.is_right_brace() {
                return Ok(Found { it: all, height });
            }
        }
        Err(ParseError::NoMatch)
    }

    #[tactic(auto, unfolding(crate::specs::Reading::enum_body))]
    fn enum_body(
        &self,
        tokens: &mut Cursor<'_>,
        pos: Pos,
        tag: Option<NameId>,
    ) -> Result<Found<Piece>, ParseError>
        requires { ReadsParts self.now F.pre F.post }
        ensures { Gives (under self.now spec.enum_body pos tag tokens.old) result tokens.new }
    {
        let all = self.enumerators(tokens)?;
        tokens.pass_right_brace()?;
        let piece = enum_piece(self.alloc, pos, tag, Some(all.it), BodyForm::WithBody)?;
        node(self.limit, piece, all.height)
    }

    #[tactic(auto, unfolding(crate::specs::Reading::tagged_enum))]
    fn tagged_enum(
        &self,
        tokens: &mut Cursor<'_>,
        pos: Pos,
        tag: NameId,
    ) -> Result<Found<Piece>, ParseError>
        requires { ReadsParts self.now F.pre F.post }
        ensures { Gives (under self.now spec.tagged_enum pos tag tokens.old) result tokens.new }
    {
        if tokens.is_left_brace() {
            tokens.advance();
            return self.enum_body(tokens, pos, Some(tag));
        }
        Ok(Found {
            it: enum_piece(self.alloc, pos, Some(tag), None, BodyForm::NoBody)?,
            height: 0,
        })
    }

    /// Behind its keyword, which stands at that place.
    #[tactic(auto, unfolding(crate::specs::Reading::enum_by))]
    pub(crate) fn enumeration(
        &self,
        tokens: &mut Cursor<'_>,
        pos: Pos,
    ) -> Result<Found<Piece>, ParseError>
        requires { ReadsParts self.now F.pre F.post }
        ensures { Gives (under self.now spec.enum_by pos (front_word tokens.old) tokens.old) result tokens.new }
    {
        if let Some(tag) = tokens.word() {
            let place = tokens.first_pos();
            tokens.advance();
            return self.tagged_enum(tokens, place, tag);
        }
        if !tokens.is_left_brace() {
            return Err(ParseError::NoMatch);
        }
        tokens.advance();
        self.enum_body(tokens, pos, None)
    }
}
