//! Assignments (C11 6.5.16).

ghost use Rattle.std.specs.Prelude.{◌≡◌};
ghost use Rattle.sc_parse_front.specs.Front.{front, assign_at};
ghost use Rattle.sc_parse_expr.specs.Gives.{Gives};
ghost use Rattle.sc_parse_expr.specs.Nests.{ReadsParts, under};
ghost use Rattle.sc_parse_expr.specs.Read.{read};
ghost use Rattle.sc_parse_expr.specs.Reading as spec;

use crate::found::{Found, Operand, Phrase, Wanted};
use crate::grammar::Grammar;
use sc_base::Pos;
use sc_parse_front::{Cursor, ParseError, TypeNames};
use sc_tree::expr::{Expr, Place};
use sc_tree::grammar::Level;
use sc_tree::op::AssignOp;
use std::alloc::Global;

impl<
    't,
    F: Fn(Global, &TypeNames, &mut Cursor<'_>, usize, Wanted) -> Result<Found<Phrase>, ParseError>,
> Grammar<'t, F> {
    #[tactic(auto, unfolding(crate::specs::Reading::assigned))]
    fn assigned(
        &self,
        tokens: &mut Cursor<'_>,
        begin: Pos,
        op: AssignOp,
        a: Found<Operand>,
    ) -> Result<Found<Operand>, ParseError>
        requires { ReadsParts self.now F.pre F.post }
        ensures { Gives (under self.now spec.assigned begin op (read a.it a.height tokens.old)) result tokens.new }
    {
        let place = Place {
            token: tokens.first_pos(),
            first: begin,
        };
        tokens.advance();
        let value = self.inner_expr(tokens, Level::Assignment)?;
        let height = a.height.max(value.height);
        self.operand(
            Expr::Assign(op, a.it.tree, value.it.tree, place),
            false,
            height,
        )
    }

    #[tactic(auto, unfolding(crate::specs::Reading::assigning))]
    fn assigning(
        &self,
        tokens: &mut Cursor<'_>,
        begin: Pos,
        a: Found<Operand>,
    ) -> Result<Found<Operand>, ParseError>
        requires { ReadsParts self.now F.pre F.post }
        ensures { Gives (under self.now spec.assigning begin a.it.unary (assign_at (front tokens.old)) (read a.it a.height tokens.old)) result tokens.new }
    {
        if !a.it.unary {
            return Ok(a);
        }
        match tokens.assign_at() {
            Some(op) => self.assigned(tokens, begin, op, a),
            None => Ok(a),
        }
    }

    #[tactic(auto, unfolding(crate::specs::Reading::assignment))]
    pub(crate) fn assignment(&self, tokens: &mut Cursor<'_>) -> Result<Found<Operand>, ParseError>
        requires { ReadsParts self.now F.pre F.post }
        ensures { Gives (under self.now spec.assignment tokens.old) result tokens.new }
    {
        let begin = tokens.first_pos();
        let a = self.conditional(tokens)?;
        self.assigning(tokens, begin, a)
    }
}
