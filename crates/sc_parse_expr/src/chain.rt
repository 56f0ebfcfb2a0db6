//! Operators between two operands, level by level (C11 6.5.5 to 6.5.14).

ghost use Rattle.std.specs.Prelude.{◌≡◌, ◌+◌, ◌<◌};
ghost use Rattle.sc_parse_expr.specs.Gives.{Gives};
ghost use Rattle.sc_parse_expr.specs.Nests.{ReadsParts, under};
ghost use Rattle.sc_parse_expr.specs.Read.{read};
ghost use Rattle.sc_parse_expr.specs.Reading as spec;

use crate::found::{Found, Operand, Phrase, Wanted};
use crate::grammar::Grammar;
use sc_base::Pos;
use sc_parse_front::{Cursor, ParseError, TypeNames};
use sc_tree::expr::{Expr, Place};
use sc_tree::grammar::Level;
use sc_tree::op::BinaryOp;
use std::alloc::Global;

impl<
    't,
    F: Fn(Global, &TypeNames, &mut Cursor<'_>, usize, Wanted) -> Result<Found<Phrase>, ParseError>,
> Grammar<'t, F> {
    /// An operand with an operator and the operand behind it, which is of the next stronger level.
    #[tactic(auto, unfolding(crate::specs::Reading::combined))]
    fn combined(
        &self,
        tokens: &mut Cursor<'_>,
        stronger: u8,
        begin: Pos,
        op: BinaryOp,
        a: Found<Operand>,
    ) -> Result<Found<Operand>, ParseError>
        requires { ReadsParts self.now F.pre F.post }
        ensures { Gives (under self.now spec.combined stronger begin op (read a.it a.height tokens.old)) result tokens.new }
    {
        let place = Place {
            token: tokens.first_pos(),
            first: begin,
        };
        tokens.advance();
        let b = self.inner_expr(tokens, Level::Operators(stronger))?;
        let height = a.height.max(b.height);
        self.operand(Expr::Binary(op, a.it.tree, b.it.tree, place), false, height)
    }

    /// An operand with all operators of the level above that one, and their operands.
    fn chain(
        &self,
        tokens: &mut Cursor<'_>,
        stronger: u8,
        begin: Pos,
        first: Found<Operand>,
    ) -> Result<Found<Operand>, ParseError>
        requires nests { ReadsParts self.now F.pre F.post }
        requires level { stronger < 255 }
        ensures { Gives (under self.now spec.chain self.now.limit stronger begin (read first.it first.height tokens.old)) result tokens.new }
    {
        let mut a = first;
        for _turn in 0..self.limit {
            let Some(op) = tokens.binary_at(stronger + 1) else {
                return Ok(a);
            };
            a = self.combined(tokens, stronger, begin, op, a)?;
        }
        if tokens.binary_at(stronger + 1).is_some() {
            return Err(ParseError::NoMatch);
        }
        Ok(a)
    }

    pub(crate) fn operators(
        &self,
        tokens: &mut Cursor<'_>,
        level: u8,
    ) -> Result<Found<Operand>, ParseError>
        requires { ReadsParts self.now F.pre F.post }
        ensures { Gives (under self.now spec.operators level tokens.old) result tokens.new }
    {
        let begin = tokens.first_pos();
        let mut a = self.casts(tokens)?;
        for stronger in 0..level {
            a = self.chain(tokens, stronger, begin, a)?;
        }
        Ok(a)
    }
}
