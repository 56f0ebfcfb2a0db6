//! Statements (C11 6.8): what the first tokens begin, jumps, labels and expressions.

ghost use Rattle.std.specs.Prelude.{◌≡◌};
ghost use Rattle.sc_parse_expr.specs.Gives.{Gives};
ghost use Rattle.sc_parse_front.specs.Front.{front_reserved};
ghost use Rattle.sc_parse_unit.specs.Nests.{ReadsStatements, in_statement};
ghost use Rattle.sc_parse_unit.specs.Reading as spec;

use crate::found::Keyword;
use crate::fronts;
use crate::parts::Statements;
use sc_base::{Boxed, NameId, Pos};
use sc_parse_expr::Found;
use sc_parse_front::{Cursor, ParseError, TypeNames};
use sc_tree::stmt::Stmt;
use std::alloc::Global;

impl<
    't,
    F: Fn(Global, &TypeNames, &mut Cursor<'_>, usize) -> Result<Found<Boxed<Stmt>>, ParseError>,
> Statements<'t, F> {
    #[tactic(auto, unfolding(crate::specs::Reading::a_goto))]
    fn a_goto(&self, tokens: &mut Cursor<'_>, pos: Pos) -> Result<Found<Boxed<Stmt>>, ParseError>
        requires { ReadsStatements self.now F.pre F.post }
        ensures { Gives (in_statement self.now spec.a_goto pos tokens.old) result tokens.new }
    {
        let Some(label) = tokens.word() else {
            return Err(ParseError::NoMatch);
        };
        tokens.advance();
        tokens.pass_semicolon()?;
        self.made(Stmt::Goto(label, pos), 0)
    }

    #[tactic(auto, unfolding(crate::specs::Reading::a_break))]
    fn a_break(&self, tokens: &mut Cursor<'_>, pos: Pos) -> Result<Found<Boxed<Stmt>>, ParseError>
        requires { ReadsStatements self.now F.pre F.post }
        ensures { Gives (in_statement self.now spec.a_break pos tokens.old) result tokens.new }
    {
        tokens.pass_semicolon()?;
        self.made(Stmt::Break(pos), 0)
    }

    #[tactic(auto, unfolding(crate::specs::Reading::a_continue))]
    fn a_continue(
        &self,
        tokens: &mut Cursor<'_>,
        pos: Pos,
    ) -> Result<Found<Boxed<Stmt>>, ParseError>
        requires { ReadsStatements self.now F.pre F.post }
        ensures { Gives (in_statement self.now spec.a_continue pos tokens.old) result tokens.new }
    {
        tokens.pass_semicolon()?;
        self.made(Stmt::Continue(pos), 0)
    }

    #[tactic(auto, unfolding(crate::specs::Reading::a_return))]
    fn a_return(&self, tokens: &mut Cursor<'_>, pos: Pos) -> Result<Found<Boxed<Stmt>>, ParseError>
        requires { ReadsStatements self.now F.pre F.post }
        ensures { Gives (in_statement self.now spec.a_return pos tokens.old) result tokens.new }
    {
        let found = self.before_semicolon(tokens)?;
        tokens.pass_semicolon()?;
        self.made(Stmt::Return(found.it, pos), found.height)
    }

    #[tactic(auto, unfolding(crate::specs::Reading::expression))]
    fn expression(&self, tokens: &mut Cursor<'_>) -> Result<Found<Boxed<Stmt>>, ParseError>
        requires { ReadsStatements self.now F.pre F.post }
        ensures { Gives (in_statement self.now spec.expression tokens.old) result tokens.new }
    {
        let pos = tokens.first_pos();
        let value = self.before_semicolon(tokens)?;
        tokens.pass_semicolon()?;
        self.made(Stmt::Expr(value.it, pos), value.height)
    }

    /// A label with its colon, and the statement behind it.
    #[tactic(auto, unfolding(crate::specs::Reading::a_label))]
    fn a_label(
        &self,
        tokens: &mut Cursor<'_>,
        label: NameId,
    ) -> Result<Found<Boxed<Stmt>>, ParseError>
        requires { ReadsStatements self.now F.pre F.post }
        ensures { Gives (in_statement self.now spec.a_label label tokens.old) result tokens.new }
    {
        let pos = tokens.first_pos();
        tokens.advance();
        tokens.advance();
        let labelled = self.inner(tokens)?;
        self.made(Stmt::Label(label, labelled.it, pos), labelled.height)
    }

    /// By the reserved word at the front.
    #[tactic(auto, unfolding(crate::specs::Reading::by_keyword))]
    fn by_keyword(&self, tokens: &mut Cursor<'_>) -> Result<Found<Boxed<Stmt>>, ParseError>
        requires { ReadsStatements self.now F.pre F.post }
        ensures { Gives (in_statement self.now spec.by_keyword (spec.keyword (front_reserved tokens.old)) tokens.old) result tokens.new }
    {
        let pos = tokens.first_pos();
        match fronts::keyword(tokens) {
            Keyword::If => {
                tokens.advance();
                self.an_if(tokens, pos)
            }
            Keyword::While => {
                tokens.advance();
                self.a_while(tokens, pos)
            }
            Keyword::Do => {
                tokens.advance();
                self.a_do(tokens, pos)
            }
            Keyword::For => {
                tokens.advance();
                self.a_for(tokens, pos)
            }
            Keyword::Switch => {
                tokens.advance();
                self.a_switch(tokens, pos)
            }
            Keyword::Goto => {
                tokens.advance();
                self.a_goto(tokens, pos)
            }
            Keyword::Break => {
                tokens.advance();
                self.a_break(tokens, pos)
            }
            Keyword::Continue => {
                tokens.advance();
                self.a_continue(tokens, pos)
            }
            Keyword::Return => {
                tokens.advance();
                self.a_return(tokens, pos)
            }
            Keyword::Other => self.expression(tokens),
        }
    }

    /// A statement.
    #[tactic(auto, unfolding(crate::specs::Reading::statement_by, crate::specs::Reading::by_label))]
    fn statement(&self, tokens: &mut Cursor<'_>) -> Result<Found<Boxed<Stmt>>, ParseError>
        requires { ReadsStatements self.now F.pre F.post }
        ensures { Gives (in_statement self.now spec.statement_by tokens.old) result tokens.new }
    {
        if let Some(label) = fronts::label_at(tokens) {
            return self.a_label(tokens, label);
        }
        if tokens.is_left_brace() {
            return self.a_block(tokens);
        }
        self.by_keyword(tokens)
    }
}

/// The statement at the front of the tokens, of at most that height, and goes behind it. After a
/// refusal nothing is known of the tokens that are left.
pub(crate) fn read_statement(
    alloc: Global,
    types: &TypeNames,
    tokens: &mut Cursor<'_>,
    limit: usize,
) -> Result<Found<Boxed<Stmt>>, ParseError>
    ensures { Gives (spec.statement types.now limit tokens.old) result tokens.new }
{
    if limit == 0 {
        return Err(ParseError::NoMatch);
    }
    Statements {
        alloc,
        types,
        limit,
        inner: read_statement,
    }
    .statement(tokens)
}
