//! The reading of statements up to a height, over a function that reads those which are lower by one:
//! what several kinds of statements have in them.

ghost use Rattle.std.specs.Prelude.{◌≡◌, ◌-◌, suc};
ghost use Rattle.sc_parse_front.specs.Front.{is_right_paren, is_semicolon};
ghost use Rattle.sc_parse_expr.specs.Gives.{Gives, Grows};
ghost use Rattle.sc_parse_unit.specs.Nests.{ReadsStatements, in_statement, inner_stmt, inner_whole};
ghost use Rattle.sc_parse_unit.specs.Reading as spec;

use crate::fronts;
use sc_base::Boxed;
use sc_parse_expr::{Found, node, read_expr};
use sc_parse_front::{Cursor, ParseError, TypeNames};
use sc_tree::expr::Expr;
use sc_tree::grammar::Level;
use sc_tree::stmt::Stmt;
use std::alloc::Global;

/// What reads statements of at most the height `limit`. The statements in them are read by `inner`,
/// at one less, as their expressions and declarations are. After a refusal nothing is known of the
/// tokens that are left.
#[derive(Clone, Copy)]
pub(crate) struct Statements<'t, F> {
    pub(crate) alloc: Global,
    /// The typedef names that were declared before.
    pub(crate) types: &'t TypeNames,
    pub(crate) limit: usize,
    pub(crate) inner: F,
}

impl<
    't,
    F: Fn(Global, &TypeNames, &mut Cursor<'_>, usize) -> Result<Found<Boxed<Stmt>>, ParseError>,
> Statements<'t, F> {
    /// A statement under this one.
    pub(crate) fn inner(&self, tokens: &mut Cursor<'_>) -> Result<Found<Boxed<Stmt>>, ParseError>
        requires { ReadsStatements self.now F.pre F.post }
        ensures { Gives (inner_stmt self.now.types.now self.now.limit tokens.old) result tokens.new }
    {
        (self.inner)(self.alloc, self.types, tokens, self.limit - 1)
    }

    /// A statement over parts of that height.
    pub(crate) fn made(&self, stmt: Stmt, below: usize) -> Result<Found<Boxed<Stmt>>, ParseError>
        requires { ReadsStatements self.now F.pre F.post }
        ensures { Grows (suc (self.now.limit - 1)) stmt below result }
    {
        let stmt = Boxed::new(self.alloc, stmt)?;
        node(self.limit, stmt, below)
    }

    /// An expression under this statement.
    pub(crate) fn inner_expr(
        &self,
        tokens: &mut Cursor<'_>,
    ) -> Result<Found<Boxed<Expr>>, ParseError>
        requires { ReadsStatements self.now F.pre F.post }
        ensures { Gives (inner_whole self.now.types.now self.now.limit tokens.old) result tokens.new }
    {
        let Found { it, height } = read_expr(
            self.alloc,
            self.types,
            tokens,
            self.limit - 1,
            Level::Whole,
        )?;
        Ok(Found {
            it: it.tree,
            height,
        })
    }

    /// An expression in round brackets.
    #[tactic(auto, unfolding(crate::specs::Reading::condition))]
    pub(crate) fn condition(
        &self,
        tokens: &mut Cursor<'_>,
    ) -> Result<Found<Boxed<Expr>>, ParseError>
        requires { ReadsStatements self.now F.pre F.post }
        ensures { Gives (in_statement self.now spec.condition tokens.old) result tokens.new }
    {
        fronts::pass_left_paren(tokens)?;
        let found = self.inner_expr(tokens)?;
        tokens.pass_right_paren()?;
        Ok(found)
    }

    /// An expression or none, before a `;`.
    #[tactic(auto, unfolding(crate::specs::Reading::at_most))]
    pub(crate) fn before_semicolon(
        &self,
        tokens: &mut Cursor<'_>,
    ) -> Result<Found<Option<Boxed<Expr>>>, ParseError>
        requires { ReadsStatements self.now F.pre F.post }
        ensures { Gives (in_statement self.now spec.at_most is_semicolon tokens.old) result tokens.new }
    {
        if tokens.is_semicolon() {
            return Ok(Found {
                it: None,
                height: 0,
            });
        }
        let Found { it, height } = self.inner_expr(tokens)?;
        Ok(Found {
            it: Some(it),
            height,
        })
    }

    /// An expression or none, before a `)`.
    #[tactic(auto, unfolding(crate::specs::Reading::at_most))]
    pub(crate) fn before_right_paren(
        &self,
        tokens: &mut Cursor<'_>,
    ) -> Result<Found<Option<Boxed<Expr>>>, ParseError>
        requires { ReadsStatements self.now F.pre F.post }
        ensures { Gives (in_statement self.now spec.at_most is_right_paren tokens.old) result tokens.new }
    {
        if tokens.is_right_paren() {
            return Ok(Found {
                it: None,
                height: 0,
            });
        }
        let Found { it, height } = self.inner_expr(tokens)?;
        Ok(Found {
            it: Some(it),
            height,
        })
    }
}
