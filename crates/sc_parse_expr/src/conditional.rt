//! The conditional operator (C11 6.5.15).

ghost use Rattle.std.specs.Prelude.{◌≡◌};
ghost use Rattle.sc_parse_expr.specs.Gives.{Gives};
ghost use Rattle.sc_parse_expr.specs.Nests.{ReadsParts, under};
ghost use Rattle.sc_parse_expr.specs.Read.{read};
ghost use Rattle.sc_parse_expr.specs.Reading as spec;

use crate::found::{Found, Operand, Phrase, Wanted};
use crate::grammar::Grammar;
use sc_base::Pos;
use sc_parse_front::{Cursor, ParseError, TypeNames};
use sc_tree::expr::{Expr, Place};
use sc_tree::grammar::Level;
use std::alloc::Global;

impl<
    't,
    F: Fn(Global, &TypeNames, &mut Cursor<'_>, usize, Wanted) -> Result<Found<Phrase>, ParseError>,
> Grammar<'t, F> {
    #[tactic(auto, unfolding(crate::specs::Reading::conditioned))]
    fn conditioned(
        &self,
        tokens: &mut Cursor<'_>,
        begin: Pos,
        a: Found<Operand>,
    ) -> Result<Found<Operand>, ParseError>
        requires { ReadsParts self.now F.pre F.post }
        ensures { Gives (under self.now spec.conditioned begin (read a.it a.height tokens.old)) result tokens.new }
    {
        let place = Place {
            token: tokens.first_pos(),
            first: begin,
        };
        tokens.advance();
        let b = self.inner_expr(tokens, Level::Whole)?;
        tokens.pass_colon()?;
        let c = self.inner_expr(tokens, Level::Choice)?;
        let height = a.height.max(b.height.max(c.height));
        self.operand(
            Expr::Cond(a.it.tree, b.it.tree, c.it.tree, place),
            false,
            height,
        )
    }

    #[tactic(auto, unfolding(crate::specs::Reading::conditional, crate::specs::Reading::conditioning))]
    pub(crate) fn conditional(&self, tokens: &mut Cursor<'_>) -> Result<Found<Operand>, ParseError>
        requires { ReadsParts self.now F.pre F.post }
        ensures { Gives (under self.now spec.conditional tokens.old) result tokens.new }
    {
        let begin = tokens.first_pos();
        let a = self.operators(tokens, 10)?;
        if tokens.is_question() {
            self.conditioned(tokens, begin, a)
        } else {
            Ok(a)
        }
    }
}
