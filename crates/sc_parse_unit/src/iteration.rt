//! `while`, `do` and `for` (C11 6.8.5).

ghost use Rattle.std.specs.Prelude.{◌≡◌, [], IfOk};
ghost use Rattle.sc_tree.specs.Statements.{for_head};
ghost use Rattle.sc_parse_expr.specs.Gives.{Gives};
ghost use Rattle.sc_parse_expr.specs.Read.{read};
ghost use Rattle.sc_parse_unit.specs.Nests.{ReadsStatements, in_statement};
ghost use Rattle.sc_parse_unit.specs.Reading as spec;

use crate::declarations::read_declaration;
use crate::fronts;
use crate::parts::Statements;
use sc_base::{Boxed, OutOfMemory, Pos};
use sc_parse_expr::{Found, node};
use sc_parse_front::{Cursor, ParseError, TypeNames};
use sc_tree::expr::Expr;
use sc_tree::stmt::{ForHead, ForStart, Stmt};
use std::alloc::Global;

impl<
    't,
    F: Fn(Global, &TypeNames, &mut Cursor<'_>, usize) -> Result<Found<Boxed<Stmt>>, ParseError>,
> Statements<'t, F> {
    /// Behind `while`.
    #[tactic(auto, unfolding(crate::specs::Reading::a_while))]
    pub(crate) fn a_while(
        &self,
        tokens: &mut Cursor<'_>,
        pos: Pos,
    ) -> Result<Found<Boxed<Stmt>>, ParseError>
        requires { ReadsStatements self.now F.pre F.post }
        ensures { Gives (in_statement self.now spec.a_while pos tokens.old) result tokens.new }
    {
        let test = self.condition(tokens)?;
        let body = self.inner(tokens)?;
        let height = test.height.max(body.height);
        self.made(Stmt::While(test.it, body.it, pos), height)
    }

    /// `while` and its condition.
    #[tactic(auto, unfolding(crate::specs::Reading::do_test))]
    fn do_test(&self, tokens: &mut Cursor<'_>) -> Result<Found<Boxed<Expr>>, ParseError>
        requires { ReadsStatements self.now F.pre F.post }
        ensures { Gives (in_statement self.now spec.do_test tokens.old) result tokens.new }
    {
        fronts::pass_while(tokens)?;
        self.condition(tokens)
    }

    /// Behind the statement of a `do`.
    #[tactic(auto, unfolding(crate::specs::Reading::do_rest))]
    fn do_rest(
        &self,
        tokens: &mut Cursor<'_>,
        pos: Pos,
        body: Found<Boxed<Stmt>>,
    ) -> Result<Found<Boxed<Stmt>>, ParseError>
        requires { ReadsStatements self.now F.pre F.post }
        ensures { Gives (in_statement self.now spec.do_rest pos (read body.it body.height tokens.old)) result tokens.new }
    {
        let test = self.do_test(tokens)?;
        tokens.pass_semicolon()?;
        let height = body.height.max(test.height);
        self.made(Stmt::Do(body.it, test.it, pos), height)
    }

    /// Behind `do`.
    #[tactic(auto, unfolding(crate::specs::Reading::a_do))]
    pub(crate) fn a_do(
        &self,
        tokens: &mut Cursor<'_>,
        pos: Pos,
    ) -> Result<Found<Boxed<Stmt>>, ParseError>
        requires { ReadsStatements self.now F.pre F.post }
        ensures { Gives (in_statement self.now spec.a_do pos tokens.old) result tokens.new }
    {
        let body = self.inner(tokens)?;
        self.do_rest(tokens, pos, body)
    }

    #[tactic(auto, unfolding(crate::specs::Reading::for_expr))]
    fn for_expr(&self, tokens: &mut Cursor<'_>) -> Result<Found<Boxed<ForStart>>, ParseError>
        requires { ReadsStatements self.now F.pre F.post }
        ensures { Gives (in_statement self.now spec.for_expr tokens.old) result tokens.new }
    {
        let found = self.inner_expr(tokens)?;
        tokens.pass_semicolon()?;
        let start = ForStart::Expr(found.it);
        Ok(Found {
            it: Boxed::new(self.alloc, start)?,
            height: found.height,
        })
    }

    #[tactic(auto, unfolding(crate::specs::Reading::for_local))]
    fn for_local(&self, tokens: &mut Cursor<'_>) -> Result<Found<Boxed<ForStart>>, ParseError>
        requires { ReadsStatements self.now F.pre F.post }
        ensures { Gives (in_statement self.now spec.for_local tokens.old) result tokens.new }
    {
        let pos = tokens.first_pos();
        let found = read_declaration(self.alloc, self.types, tokens, self.limit - 1)?;
        let start = ForStart::Decl(found.it, pos);
        node(self.limit - 1, Boxed::new(self.alloc, start)?, found.height)
    }

    /// What stands in the first place, and its `;`.
    #[tactic(auto, unfolding(crate::specs::Reading::for_start))]
    fn for_start(&self, tokens: &mut Cursor<'_>) -> Result<Found<Boxed<ForStart>>, ParseError>
        requires { ReadsStatements self.now F.pre F.post }
        ensures { Gives (in_statement self.now spec.for_start tokens.old) result tokens.new }
    {
        if tokens.is_semicolon() {
            tokens.advance();
            return Ok(Found {
                it: Boxed::new(self.alloc, ForStart::Nothing)?,
                height: 0,
            });
        }
        if tokens.begins_type(self.types) {
            self.for_local(tokens)
        } else {
            self.for_expr(tokens)
        }
    }

    fn for_head(
        &self,
        start: Boxed<ForStart>,
        test: Option<Boxed<Expr>>,
        step: Option<Boxed<Expr>>,
    ) -> Result<ForHead, OutOfMemory>
        ensures { IfOk result (λ head. head ≡ for_head start test step) }
    {
        let test = Boxed::new(self.alloc, test)?;
        let step = Boxed::new(self.alloc, step)?;
        Ok(ForHead { start, test, step })
    }

    /// Behind the second `;` of a `for`.
    #[tactic(auto, unfolding(crate::specs::Reading::for_last))]
    fn for_last(
        &self,
        tokens: &mut Cursor<'_>,
        pos: Pos,
        start: Found<Boxed<ForStart>>,
        test: Found<Option<Boxed<Expr>>>,
    ) -> Result<Found<Boxed<Stmt>>, ParseError>
        requires { ReadsStatements self.now F.pre F.post }
        ensures { Gives (in_statement self.now spec.for_last pos (read start.it start.height []) (read test.it test.height []) tokens.old) result tokens.new }
    {
        let step = self.before_right_paren(tokens)?;
        tokens.pass_right_paren()?;
        let body = self.inner(tokens)?;
        let height = start
            .height
            .max(test.height.max(step.height.max(body.height)));
        let head = self.for_head(start.it, test.it, step.it)?;
        self.made(Stmt::For(head, body.it, pos), height)
    }

    /// Behind what stands in the first place of a `for`.
    #[tactic(auto, unfolding(crate::specs::Reading::for_rest, crate::specs::Reading::for_last))]
    fn for_rest(
        &self,
        tokens: &mut Cursor<'_>,
        pos: Pos,
        start: Found<Boxed<ForStart>>,
    ) -> Result<Found<Boxed<Stmt>>, ParseError>
        requires { ReadsStatements self.now F.pre F.post }
        ensures { Gives (in_statement self.now spec.for_rest pos (read start.it start.height tokens.old)) result tokens.new }
    {
        let test = self.before_semicolon(tokens)?;
        tokens.pass_semicolon()?;
        self.for_last(tokens, pos, start, test)
    }

    /// The opening bracket, and what stands in the first place.
    #[tactic(auto, unfolding(crate::specs::Reading::for_begin))]
    fn for_begin(&self, tokens: &mut Cursor<'_>) -> Result<Found<Boxed<ForStart>>, ParseError>
        requires { ReadsStatements self.now F.pre F.post }
        ensures { Gives (in_statement self.now spec.for_begin tokens.old) result tokens.new }
    {
        fronts::pass_left_paren(tokens)?;
        self.for_start(tokens)
    }

    /// Behind `for`.
    #[tactic(auto, unfolding(crate::specs::Reading::a_for))]
    pub(crate) fn a_for(
        &self,
        tokens: &mut Cursor<'_>,
        pos: Pos,
    ) -> Result<Found<Boxed<Stmt>>, ParseError>
        requires { ReadsStatements self.now F.pre F.post }
        ensures { Gives (in_statement self.now spec.a_for pos tokens.old) result tokens.new }
    {
        let start = self.for_begin(tokens)?;
        self.for_rest(tokens, pos, start)
    }
}
