//! What may stand behind an operand: indices, arguments, fields, `++` and `--` (C11 6.5.2).

ghost use Rattle.std.specs.Prelude.{◌≡◌};
ghost use Rattle.sc_parse_front.specs.Front.{front, suffix};
ghost use Rattle.sc_parse_expr.specs.Reading.{one_suffix, some_arguments};
ghost use Rattle.sc_parse_expr.specs.Gives.{Gives};
ghost use Rattle.sc_parse_expr.specs.Nests.{ReadsParts, under};
ghost use Rattle.sc_parse_expr.specs.Read.{read};
ghost use Rattle.sc_parse_expr.specs.Reading as spec;

use crate::found::{Found, Operand, Phrase, Wanted};
use crate::grammar::Grammar;
use sc_base::{List, Pos};
use sc_parse_front::{Cursor, ParseError, TypeNames, room_for_one};
use sc_tree::Punct;
use sc_tree::expr::{Expr, Place};
use sc_tree::grammar::Level;
use sc_tree::op::Step;
use std::alloc::Global;

impl<
    't,
    F: Fn(Global, &TypeNames, &mut Cursor<'_>, usize, Wanted) -> Result<Found<Phrase>, ParseError>,
> Grammar<'t, F> {
    /// An operand with an index behind it.
    #[tactic(auto, unfolding(crate::specs::Reading::indexed))]
    fn indexed(
        &self,
        tokens: &mut Cursor<'_>,
        begin: Pos,
        a: Found<Operand>,
    ) -> Result<Found<Operand>, ParseError>
        requires { ReadsParts self.now F.pre F.post }
        ensures { Gives (under self.now spec.indexed begin (read a.it a.height tokens.old)) result tokens.new }
    {
        let place = Place {
            token: tokens.first_pos(),
            first: begin,
        };
        tokens.advance();
        let b = self.inner_expr(tokens, Level::Whole)?;
        tokens.pass_right_bracket()?;
        let height = a.height.max(b.height);
        self.operand(Expr::Index(a.it.tree, b.it.tree, place), true, height)
    }

    /// Arguments with commas between, at least one.
    fn some_arguments(&self, tokens: &mut Cursor<'_>) -> Result<Found<List<Expr>>, ParseError>
        requires { ReadsParts self.now F.pre F.post }
        ensures { Gives (under self.now some_arguments tokens.old) result tokens.new }
    {
        let mut all = room_for_one(self.alloc)?;
        let mut height = 0;
        for _turn in 0..tokens.len() {
            let found = self.inner_expr(tokens, Level::Assignment)?;
            all.push(found.it.tree.into_inner())?;
            height = height.max(found.height);
            if !tokens.is_comma() {
                return Ok(Found { it: all, height });
            }
            tokens.advance();
        }
        Err(ParseError::NoMatch)
    }

    /// What stands between the brackets of a call.
    #[tactic(auto, unfolding(crate::specs::Reading::arguments))]
    fn arguments(&self, tokens: &mut Cursor<'_>) -> Result<Found<List<Expr>>, ParseError>
        requires { ReadsParts self.now F.pre F.post }
        ensures { Gives (under self.now spec.arguments tokens.old) result tokens.new }
    {
        if tokens.is_right_paren() {
            return Ok(Found {
                it: List::new(self.alloc),
                height: 0,
            });
        }
        self.some_arguments(tokens)
    }

    /// An operand that is called.
    #[tactic(auto, unfolding(crate::specs::Reading::calling))]
    fn calling(
        &self,
        tokens: &mut Cursor<'_>,
        begin: Pos,
        a: Found<Operand>,
    ) -> Result<Found<Operand>, ParseError>
        requires { ReadsParts self.now F.pre F.post }
        ensures { Gives (under self.now spec.calling begin (read a.it a.height tokens.old)) result tokens.new }
    {
        let place = Place {
            token: tokens.first_pos(),
            first: begin,
        };
        tokens.advance();
        let b = self.arguments(tokens)?;
        tokens.pass_right_paren()?;
        let height = a.height.max(b.height);
        self.operand(Expr::Call(a.it.tree, b.it, place), true, height)
    }

    /// An operand with a field behind it.
    #[tactic(auto, unfolding(crate::specs::Reading::fielded))]
    fn fielded(
        &self,
        tokens: &mut Cursor<'_>,
        begin: Pos,
        arrow: bool,
        a: Found<Operand>,
    ) -> Result<Found<Operand>, ParseError>
        ensures { Gives (under self.now spec.fielded begin arrow (read a.it a.height tokens.old)) result tokens.new }
    {
        tokens.advance();
        let Some(word) = tokens.word() else {
            return Err(ParseError::NoMatch);
        };
        let place = Place {
            token: tokens.first_pos(),
            first: begin,
        };
        tokens.advance();
        self.operand(Expr::Field(a.it.tree, word, arrow, place), true, a.height)
    }

    /// An operand with `++` or `--` behind it.
    #[tactic(auto, unfolding(crate::specs::Reading::stepped))]
    fn stepped(
        &self,
        tokens: &mut Cursor<'_>,
        begin: Pos,
        by: Step,
        a: Found<Operand>,
    ) -> Result<Found<Operand>, ParseError>
        ensures { Gives (under self.now spec.stepped begin by (read a.it a.height tokens.old)) result tokens.new }
    {
        let place = Place {
            token: tokens.first_pos(),
            first: begin,
        };
        tokens.advance();
        self.operand(Expr::PostInc(by, a.it.tree, place), true, a.height)
    }

    /// An operand with the first of what stands behind it.
    fn suffixed(
        &self,
        tokens: &mut Cursor<'_>,
        begin: Pos,
        a: Found<Operand>,
    ) -> Result<Found<Operand>, ParseError>
        requires { ReadsParts self.now F.pre F.post }
        ensures { Gives (under self.now one_suffix begin (suffix (front tokens.old)) (read a.it a.height tokens.old)) result tokens.new }
    {
        match tokens.front() {
            Some(Punct::LeftBracket) => self.indexed(tokens, begin, a),
            Some(Punct::LeftParen) => self.calling(tokens, begin, a),
            Some(Punct::Dot) => self.fielded(tokens, begin, false, a),
            Some(Punct::Arrow) => self.fielded(tokens, begin, true, a),
            Some(Punct::PlusPlus) => self.stepped(tokens, begin, Step::Up, a),
            Some(Punct::MinusMinus) => self.stepped(tokens, begin, Step::Down, a),
            _ => Err(ParseError::NoMatch),
        }
    }

    /// An operand with all that stands behind it.
    fn suffixes(
        &self,
        tokens: &mut Cursor<'_>,
        begin: Pos,
        first: Found<Operand>,
    ) -> Result<Found<Operand>, ParseError>
        requires { ReadsParts self.now F.pre F.post }
        ensures { Gives (under self.now spec.suffixes self.now.limit begin (read first.it first.height tokens.old)) result tokens.new }
    {
        let mut a = first;
        for _turn in 0..self.limit {
            if !tokens.has_suffix() {
                return Ok(a);
            }
            a = self.suffixed(tokens, begin, a)?;
        }
        if tokens.has_suffix() {
            return Err(ParseError::NoMatch);
        }
        Ok(a)
    }

    #[tactic(auto, unfolding(crate::specs::Reading::postfix))]
    pub(crate) fn postfix(&self, tokens: &mut Cursor<'_>) -> Result<Found<Operand>, ParseError>
        requires { ReadsParts self.now F.pre F.post }
        ensures { Gives (under self.now spec.postfix tokens.old) result tokens.new }
    {
        let begin = tokens.first_pos();
        let a = self.primary(tokens)?;
        self.suffixes(tokens, begin, a)
    }
}
