//! The comma operator (C11 6.5.17).

ghost use Rattle.std.specs.Prelude.{◌≡◌};
ghost use Rattle.sc_parse_expr.specs.Gives.{Gives};
ghost use Rattle.sc_parse_expr.specs.Nests.{ReadsParts, under};
ghost use Rattle.sc_parse_expr.specs.Read.{read};
ghost use Rattle.sc_parse_expr.specs.Reading as spec;

use crate::found::{Found, Operand, Phrase, Wanted};
use crate::grammar::Grammar;
use sc_base::Pos;
use sc_parse_front::{Cursor, ParseError, TypeNames};
use sc_tree::expr::{Expr, Place};
use sc_tree::grammar::Level;
use std::alloc::Global;

impl<
    't,
    F: Fn(Global, &TypeNames, &mut Cursor<'_>, usize, Wanted) -> Result<Found<Phrase>, ParseError>,
> Grammar<'t, F> {
    #[tactic(auto, unfolding(crate::specs::Reading::sequenced))]
    fn sequenced(
        &self,
        tokens: &mut Cursor<'_>,
        begin: Pos,
        a: Found<Operand>,
    ) -> Result<Found<Operand>, ParseError>
        requires { ReadsParts self.now F.pre F.post }
        ensures { Gives (under self.now spec.sequenced begin (read a.it a.height tokens.old)) result tokens.new }
    {
        let place = Place {
            token: tokens.first_pos(),
            first: begin,
        };
        tokens.advance();
        let b = self.inner_expr(tokens, Level::Assignment)?;
        let height = a.height.max(b.height);
        self.operand(Expr::Comma(a.it.tree, b.it.tree, place), false, height)
    }

    fn sequence(
        &self,
        tokens: &mut Cursor<'_>,
        begin: Pos,
        first: Found<Operand>,
    ) -> Result<Found<Operand>, ParseError>
        requires { ReadsParts self.now F.pre F.post }
        ensures { Gives (under self.now spec.sequence self.now.limit begin (read first.it first.height tokens.old)) result tokens.new }
    {
        let mut a = first;
        for _turn in 0..self.limit {
            if !tokens.is_comma() {
                return Ok(a);
            }
            a = self.sequenced(tokens, begin, a)?;
        }
        if tokens.is_comma() {
            return Err(ParseError::NoMatch);
        }
        Ok(a)
    }

    #[tactic(auto, unfolding(crate::specs::Reading::whole))]
    pub(crate) fn whole(&self, tokens: &mut Cursor<'_>) -> Result<Found<Operand>, ParseError>
        requires { ReadsParts self.now F.pre F.post }
        ensures { Gives (under self.now spec.whole tokens.old) result tokens.new }
    {
        let begin = tokens.first_pos();
        let a = self.assignment(tokens)?;
        self.sequence(tokens, begin, a)
    }
}
