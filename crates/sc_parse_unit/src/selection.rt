//! `if` and `switch` (C11 6.8.4).

ghost use Rattle.std.specs.Prelude.{◌≡◌, []};
ghost use Rattle.sc_parse_expr.specs.Gives.{Gives};
ghost use Rattle.sc_parse_expr.specs.Read.{read};
ghost use Rattle.sc_parse_unit.specs.Nests.{ReadsStatements, in_statement};
ghost use Rattle.sc_parse_unit.specs.Reading as spec;

use crate::fronts;
use crate::parts::Statements;
use sc_base::{Boxed, Pos};
use sc_parse_expr::Found;
use sc_parse_front::{Cursor, ParseError, TypeNames};
use sc_tree::expr::Expr;
use sc_tree::stmt::Stmt;
use std::alloc::Global;

impl<
    't,
    F: Fn(Global, &TypeNames, &mut Cursor<'_>, usize) -> Result<Found<Boxed<Stmt>>, ParseError>,
> Statements<'t, F> {
    /// Behind the first statement of an `if`, before its `else`.
    #[tactic(auto, unfolding(crate::specs::Reading::if_else))]
    fn with_else(
        &self,
        tokens: &mut Cursor<'_>,
        pos: Pos,
        test: Found<Boxed<Expr>>,
        then: Found<Boxed<Stmt>>,
    ) -> Result<Found<Boxed<Stmt>>, ParseError>
        requires { ReadsStatements self.now F.pre F.post }
        ensures { Gives (in_statement self.now spec.if_else pos (read test.it test.height []) (read then.it then.height tokens.old)) result tokens.new }
    {
        tokens.advance();
        let otherwise = self.inner(tokens)?;
        let height = test.height.max(then.height.max(otherwise.height));
        let stmt = Stmt::If(test.it, then.it, Some(otherwise.it), pos);
        self.made(stmt, height)
    }

    /// Behind the first statement of an `if`. An `else` there belongs to it.
    #[tactic(auto, unfolding(crate::specs::Reading::if_rest, crate::specs::Reading::if_else))]
    fn if_rest(
        &self,
        tokens: &mut Cursor<'_>,
        pos: Pos,
        test: Found<Boxed<Expr>>,
        then: Found<Boxed<Stmt>>,
    ) -> Result<Found<Boxed<Stmt>>, ParseError>
        requires { ReadsStatements self.now F.pre F.post }
        ensures { Gives (in_statement self.now spec.if_rest pos (read test.it test.height []) (read then.it then.height tokens.old)) result tokens.new }
    {
        if fronts::is_else(tokens) {
            return self.with_else(tokens, pos, test, then);
        }
        let height = test.height.max(then.height);
        let stmt = Stmt::If(test.it, then.it, None, pos);
        self.made(stmt, height)
    }

    /// Behind `if`, which stands at that place.
    #[tactic(auto, unfolding(crate::specs::Reading::an_if, crate::specs::Reading::if_rest, crate::specs::Reading::if_else))]
    pub(crate) fn an_if(
        &self,
        tokens: &mut Cursor<'_>,
        pos: Pos,
    ) -> Result<Found<Boxed<Stmt>>, ParseError>
        requires { ReadsStatements self.now F.pre F.post }
        ensures { Gives (in_statement self.now spec.an_if pos tokens.old) result tokens.new }
    {
        let test = self.condition(tokens)?;
        let then = self.inner(tokens)?;
        self.if_rest(tokens, pos, test, then)
    }

    /// Behind `switch`.
    #[tactic(auto, unfolding(crate::specs::Reading::a_switch))]
    pub(crate) fn a_switch(
        &self,
        tokens: &mut Cursor<'_>,
        pos: Pos,
    ) -> Result<Found<Boxed<Stmt>>, ParseError>
        requires { ReadsStatements self.now F.pre F.post }
        ensures { Gives (in_statement self.now spec.a_switch pos tokens.old) result tokens.new }
    {
        let test = self.condition(tokens)?;
        fronts::pass_left_brace(tokens)?;
        let items = self.items(tokens, true)?;
        let closed = tokens.first_pos();
        tokens.advance();
        let height = test.height.max(items.height);
        let all = Boxed::new(self.alloc, items.it)?;
        let stmt = Stmt::Switch(test.it, all, pos, closed);
        self.made(stmt, height)
    }
}
