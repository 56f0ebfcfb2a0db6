//! Structs and unions with their members (C11 6.7.2.1).

ghost use Rattle.std.specs.Prelude.{◌≡◌, Some, [], length, IfOk};
ghost use Rattle.sc_tree.specs.declared.expr.Aggregate.{roll-Aggregate};
ghost use Rattle.sc_tree.specs.declared.expr.Base.TheVariants as base;
ghost use Rattle.sc_tree.specs.declared.grammar.Piece.TheVariants as piece;
ghost use Rattle.sc_tree.specs.Grammar.{body_form};
ghost use Rattle.sc_parse_front.specs.Front.{front_word, is_right_brace};
ghost use Rattle.sc_parse_expr.specs.Read.{many};
ghost use Rattle.sc_parse_expr.specs.Reading.{some_parts};
ghost use Rattle.sc_parse_expr.specs.Gives.{Gives};
ghost use Rattle.sc_parse_expr.specs.Nests.{ReadsParts, under};
ghost use Rattle.sc_parse_expr.specs.Read.{read};
ghost use Rattle.sc_parse_expr.specs.Reading as spec;

use crate::found::{Declared, Found, Phrase, Wanted};
use crate::grammar::{Grammar, node};
use sc_base::{Boxed, List, NameId, OutOfMemory, Pos};
use sc_parse_front::{Cursor, ParseError, TypeNames, room_for_one};
use sc_tree::expr::{Aggregate, Base, Expr, Member, Part};
use sc_tree::grammar::{BodyForm, Level, Naming, Piece, Specified};
use std::alloc::Global;

fn body_form(tag: Option<NameId>) -> BodyForm
    ensures { result ≡ body_form tag }
{
    match tag {
        Some(_) => BodyForm::WithBody,
        None => BodyForm::Untagged,
    }
}

fn record_piece(
    alloc: Global,
    union: bool,
    pos: Pos,
    tag: Option<NameId>,
    body: Option<List<Member>>,
    form: BodyForm,
) -> Result<Piece, OutOfMemory>
    ensures { IfOk result (λ made. made ≡ piece.Whole (base.Struct (roll-Aggregate (record { pos = pos; union = union; tag = tag; body = body }))) form) }
{
    let record = Aggregate {
        pos,
        union,
        tag,
        body,
    };
    let record = Boxed::new(alloc, record)?;
    Ok(Piece::Whole(Base::Struct(record), form))
}

impl<
    't,
    F: Fn(Global, &TypeNames, &mut Cursor<'_>, usize, Wanted) -> Result<Found<Phrase>, ParseError>,
> Grammar<'t, F> {
    /// A width alone, behind its `:`.
    #[tactic(auto, unfolding(crate::specs::Reading::padding))]
    fn padding(&self, tokens: &mut Cursor<'_>) -> Result<Found<Part>, ParseError>
        requires { ReadsParts self.now F.pre F.post }
        ensures { Gives (under self.now spec.padding tokens.old) result tokens.new }
    {
        tokens.advance();
        let width = self.inner_expr(tokens, Level::Choice)?;
        Ok(Found {
            it: Part {
                declarator: None,
                width: Some(width.it.tree),
            },
            height: width.height,
        })
    }

    #[tactic(auto, unfolding(crate::specs::Reading::with_width))]
    fn with_width(
        &self,
        tokens: &mut Cursor<'_>,
        declared: Found<Declared>,
    ) -> Result<Found<Part>, ParseError>
        requires { ReadsParts self.now F.pre F.post }
        ensures { Gives (under self.now spec.with_width (read declared.it declared.height tokens.old)) result tokens.new }
    {
        if !tokens.is_colon() {
            return Ok(Found {
                it: Part {
                    declarator: Some(declared.it.declarator),
                    width: None,
                },
                height: declared.height,
            });
        }
        tokens.advance();
        let width = self.inner_expr(tokens, Level::Choice)?;
        Ok(Found {
            it: Part {
                declarator: Some(declared.it.declarator),
                width: Some(width.it.tree),
            },
            height: declared.height.max(width.height),
        })
    }

    #[tactic(auto, unfolding(crate::specs::Reading::part))]
    fn part(&self, tokens: &mut Cursor<'_>) -> Result<Found<Part>, ParseError>
        requires { ReadsParts self.now F.pre F.post }
        ensures { Gives (under self.now spec.part tokens.old) result tokens.new }
    {
        if tokens.is_colon() {
            return self.padding(tokens);
        }
        let declared = self.inner_declarator(tokens, Naming::Member)?;
        self.with_width(tokens, declared)
    }

    /// The members of a line, with commas between.
    fn some_parts(&self, tokens: &mut Cursor<'_>) -> Result<Found<List<Part>>, ParseError>
        requires { ReadsParts self.now F.pre F.post }
        ensures { Gives (under self.now some_parts tokens.old) result tokens.new }
    {
        let mut all = room_for_one(self.alloc)?;
        let mut height = 0;
        for _turn in 0..tokens.len() {
            let found = self.part(tokens)?;
            all.push(found.it)?;
            height = height.max(found.height);
            if !tokens.is_comma() {
                return Ok(Found { it: all, height });
            }
            tokens.advance();
        }
        Err(ParseError::NoMatch)
    }

    #[tactic(auto, unfolding(crate::specs::Reading::parts))]
    fn parts(
        &self,
        tokens: &mut Cursor<'_>,
        specified: Found<Specified>,
    ) -> Result<Found<Member>, ParseError>
        requires { ReadsParts self.now F.pre F.post }
        ensures { Gives (under self.now spec.parts (read specified.it specified.height tokens.old)) result tokens.new }
    {
        let parts = self.some_parts(tokens)?;
        tokens.pass_semicolon()?;
        Ok(Found {
            it: Member {
                specs: specified.it.specs,
                parts: parts.it,
            },
            height: specified.height.max(parts.height),
        })
    }

    /// Specifiers before a `;`.
    fn lone_member(
        &self,
        tokens: &mut Cursor<'_>,
        specified: Found<Specified>,
    ) -> Result<Found<Member>, ParseError>
        ensures { Gives (under self.now spec.lone_member specified.it.form (read specified.it specified.height tokens.old)) result tokens.new }
    {
        if !matches!(specified.it.form, BodyForm::Untagged) {
            return Err(ParseError::NoMatch);
        }
        tokens.advance();
        Ok(Found {
            it: Member {
                specs: specified.it.specs,
                parts: List::new(self.alloc),
            },
            height: specified.height,
        })
    }

    #[tactic(auto, unfolding(crate::specs::Reading::member))]
    fn member(&self, tokens: &mut Cursor<'_>) -> Result<Found<Member>, ParseError>
        requires { ReadsParts self.now F.pre F.post }
        ensures { Gives (under self.now spec.member tokens.old) result tokens.new }
    {
        let specified = self.inner_specs(tokens)?;
        if tokens.is_semicolon() {
            self.lone_member(tokens, specified)
        } else {
            self.parts(tokens, specified)
        }
    }

    /// All lines up to the closing brace.
    fn members(&self, tokens: &mut Cursor<'_>) -> Result<Found<List<Member>>, ParseError>
        requires { ReadsParts self.now F.pre F.post }
        ensures { Gives (many (under self.now spec.member) spec.with_item is_right_brace (length tokens.old) [] 0 tokens.old) result tokens.new }
    {
        let mut all = List::new(self.alloc);
        let mut height = 0;
        for _turn in 0..tokens.len() {
            if tokens.is_right_brace() {
                return Ok(Found { it: all, height });
            }
            let found = self.member(tokens)?;
            all.push(found.it)?;
            height = height.max(found.height);
        }
        if !tokens.is_right_brace() {
            return Err(ParseError::NoMatch);
        }
        Ok(Found { it: all, height })
    }

    #[tactic(auto, unfolding(crate::specs::Reading::record_body))]
    fn record_body(
        &self,
        tokens: &mut Cursor<'_>,
        union: bool,
        pos: Pos,
        tag: Option<NameId>,
    ) -> Result<Found<Piece>, ParseError>
        requires { ReadsParts self.now F.pre F.post }
        ensures { Gives (under self.now spec.record_body union pos tag tokens.old) result tokens.new }
    {
        let members = self.members(tokens)?;
        tokens.advance();
        let form = body_form(tag);
        let piece = record_piece(self.alloc, union, pos, tag, Some(members.it), form)?;
        node(self.limit, piece, members.height)
    }

    #[tactic(auto, unfolding(crate::specs::Reading::tagged_record))]
    fn tagged_record(
        &self,
        tokens: &mut Cursor<'_>,
        union: bool,
        pos: Pos,
        tag: NameId,
    ) -> Result<Found<Piece>, ParseError>
        requires { ReadsParts self.now F.pre F.post }
        ensures { Gives (under self.now spec.tagged_record union pos tag tokens.old) result tokens.new }
    {
        if tokens.is_left_brace() {
            tokens.advance();
            return self.record_body(tokens, union, pos, Some(tag));
        }
        Ok(Found {
            it: record_piece(self.alloc, union, pos, Some(tag), None, BodyForm::NoBody)?,
            height: 0,
        })
    }

    /// Behind its keyword, which stands at that place.
    #[tactic(auto, unfolding(crate::specs::Reading::record_by))]
    pub(crate) fn record(
        &self,
        tokens: &mut Cursor<'_>,
        union: bool,
        pos: Pos,
    ) -> Result<Found<Piece>, ParseError>
        requires { ReadsParts self.now F.pre F.post }
        ensures { Gives (under self.now spec.record_by union pos (front_word tokens.old) tokens.old) result tokens.new }
    {
        if let Some(tag) = tokens.word() {
            let place = tokens.first_pos();
            tokens.advance();
            return self.tagged_record(tokens, union, place, tag);
        }
        if !tokens.is_left_brace() {
            return Err(ParseError::NoMatch);
        }
        tokens.advance();
        self.record_body(tokens, union, pos, None)
    }
}
