//! Blocks, and the items between the braces of a block or a `switch` (C11 6.8.1, 6.8.2).

ghost use Rattle.std.specs.Prelude.{◌≡◌};
ghost use Rattle.sc_parse_expr.specs.Gives.{Gives};
ghost use Rattle.sc_parse_front.specs.Front.{front_reserved};
ghost use Rattle.sc_parse_unit.specs.Nests.{ReadsStatements, in_statement};
ghost use Rattle.sc_parse_unit.specs.Reading as spec;

use crate::declarations::read_declaration;
use crate::fronts;
use crate::parts::Statements;
use sc_base::{Boxed, List};
use sc_parse_expr::{Found, node, read_expr};
use sc_parse_front::{Cursor, ParseError, TypeNames};
use sc_tree::Reserved;
use sc_tree::grammar::Level;
use sc_tree::stmt::Stmt;
use std::alloc::Global;

impl<
    't,
    F: Fn(Global, &TypeNames, &mut Cursor<'_>, usize) -> Result<Found<Boxed<Stmt>>, ParseError>,
> Statements<'t, F> {
    /// A declaration among items.
    #[tactic(auto, unfolding(crate::specs::Reading::local))]
    fn local(&self, tokens: &mut Cursor<'_>) -> Result<Found<Boxed<Stmt>>, ParseError>
        requires { ReadsStatements self.now F.pre F.post }
        ensures { Gives (in_statement self.now spec.local tokens.old) result tokens.new }
    {
        let pos = tokens.first_pos();
        let found = read_declaration(self.alloc, self.types, tokens, self.limit - 1)?;
        let stmt = Stmt::Decl(found.it, pos);
        node(self.limit - 1, Boxed::new(self.alloc, stmt)?, found.height)
    }

    #[tactic(auto, unfolding(crate::specs::Reading::case_item))]
    fn case_item(&self, tokens: &mut Cursor<'_>) -> Result<Found<Boxed<Stmt>>, ParseError>
        requires { ReadsStatements self.now F.pre F.post }
        ensures { Gives (in_statement self.now spec.case_item tokens.old) result tokens.new }
    {
        let pos = tokens.first_pos();
        tokens.advance();
        let found = read_expr(
            self.alloc,
            self.types,
            tokens,
            self.limit - 1,
            Level::Choice,
        )?;
        tokens.pass_colon()?;
        let stmt = Stmt::Case(found.it.tree, pos);
        Ok(Found {
            it: Boxed::new(self.alloc, stmt)?,
            height: found.height,
        })
    }

    #[tactic(auto, unfolding(crate::specs::Reading::default_item))]
    fn default_item(&self, tokens: &mut Cursor<'_>) -> Result<Found<Boxed<Stmt>>, ParseError>
        requires { ReadsStatements self.now F.pre F.post }
        ensures { Gives (in_statement self.now spec.default_item tokens.old) result tokens.new }
    {
        let pos = tokens.first_pos();
        tokens.advance();
        tokens.pass_colon()?;
        Ok(Found {
            it: Boxed::new(self.alloc, Stmt::Default(pos))?,
            height: 0,
        })
    }

    /// A declaration or a statement.
    #[tactic(auto, unfolding(crate::specs::Reading::plain_item))]
    fn plain_item(&self, tokens: &mut Cursor<'_>) -> Result<Found<Boxed<Stmt>>, ParseError>
        requires { ReadsStatements self.now F.pre F.post }
        ensures { Gives (in_statement self.now spec.plain_item tokens.old) result tokens.new }
    {
        if tokens.begins_type(self.types) && !fronts::is_label(tokens) {
            self.local(tokens)
        } else {
            self.inner(tokens)
        }
    }

    /// An item of a `switch`.
    #[tactic(auto, unfolding(crate::specs::Reading::marked_item))]
    fn marked_item(&self, tokens: &mut Cursor<'_>) -> Result<Found<Boxed<Stmt>>, ParseError>
        requires { ReadsStatements self.now F.pre F.post }
        ensures { Gives (in_statement self.now spec.marked_item (spec.marker (front_reserved tokens.old)) tokens.old) result tokens.new }
    {
        match tokens.reserved() {
            Some(Reserved::Case) => self.case_item(tokens),
            Some(Reserved::Default) => self.default_item(tokens),
            _ => self.plain_item(tokens),
        }
    }

    /// An item, of a `switch` where the flag is set.
    #[tactic(auto, unfolding(crate::specs::Reading::an_item))]
    fn an_item(
        &self,
        tokens: &mut Cursor<'_>,
        switch: bool,
    ) -> Result<Found<Boxed<Stmt>>, ParseError>
        requires { ReadsStatements self.now F.pre F.post }
        ensures { Gives (in_statement self.now spec.an_item switch tokens.old) result tokens.new }
    {
        if switch {
            self.marked_item(tokens)
        } else {
            self.plain_item(tokens)
        }
    }

    /// All items up to the closing brace, which is left.
    pub(crate) fn items(
        &self,
        tokens: &mut Cursor<'_>,
        switch: bool,
    ) -> Result<Found<List<Stmt>>, ParseError>
        requires { ReadsStatements self.now F.pre F.post }
        ensures { Gives (in_statement self.now spec.items switch tokens.old) result tokens.new }
    {
        let mut all = List::new(self.alloc);
        let mut height = 0;
        for _turn in 0..tokens.len() {
            if tokens.is_right_brace() {
                return Ok(Found { it: all, height });
            }
            let found = self.an_item(tokens, switch)?;
            all.push(found.it.into_inner())?;
            height = height.max(found.height);
        }
        if !tokens.is_right_brace() {
            return Err(ParseError::NoMatch);
        }
        Ok(Found { it: all, height })
    }

    #[tactic(auto, unfolding(crate::specs::Reading::a_block))]
    pub(crate) fn a_block(&self, tokens: &mut Cursor<'_>) -> Result<Found<Boxed<Stmt>>, ParseError>
        requires { ReadsStatements self.now F.pre F.post }
        ensures { Gives (in_statement self.now spec.a_block tokens.old) result tokens.new }
    {
        let opened = tokens.first_pos();
        tokens.advance();
        let items = self.items(tokens, false)?;
        let closed = tokens.first_pos();
        tokens.advance();
        self.made(Stmt::Block(items.it, opened, closed), items.height)
    }
}
