//! The operators before their operand, `sizeof` and casts (C11 6.5.3, 6.5.4).

ghost use Rattle.std.specs.Prelude.{◌≡◌};
ghost use Rattle.sc_parse_expr.specs.Gives.{Gives};
ghost use Rattle.sc_parse_expr.specs.Nests.{ReadsParts, under};
ghost use Rattle.sc_parse_expr.specs.Reading as spec;

use crate::found::{Found, Operand, Phrase, Wanted};
use crate::grammar::Grammar;
use crate::primary::at;
use sc_parse_front::{Cursor, ParseError, TypeNames};
use sc_tree::expr::Expr;
use sc_tree::grammar::{Level, Naming};
use sc_tree::op::{Step, UnaryOp};
use std::alloc::Global;

impl<
    't,
    F: Fn(Global, &TypeNames, &mut Cursor<'_>, usize, Wanted) -> Result<Found<Phrase>, ParseError>,
> Grammar<'t, F> {
    #[tactic(auto, unfolding(crate::specs::Reading::applied))]
    fn applied(&self, tokens: &mut Cursor<'_>, op: UnaryOp) -> Result<Found<Operand>, ParseError>
        requires { ReadsParts self.now F.pre F.post }
        ensures { Gives (under self.now spec.applied op tokens.old) result tokens.new }
    {
        let pos = tokens.first_pos();
        tokens.advance();
        let a = self.inner_expr(tokens, Level::Cast)?;
        self.operand(Expr::Unary(op, a.it.tree, at(pos)), true, a.height)
    }

    #[tactic(auto, unfolding(crate::specs::Reading::stepped_first))]
    fn stepped_first(&self, tokens: &mut Cursor<'_>, by: Step) -> Result<Found<Operand>, ParseError>
        requires { ReadsParts self.now F.pre F.post }
        ensures { Gives (under self.now spec.stepped_first by tokens.old) result tokens.new }
    {
        let pos = tokens.first_pos();
        tokens.advance();
        let a = self.inner_expr(tokens, Level::Prefix)?;
        self.operand(Expr::PreInc(by, a.it.tree, at(pos)), true, a.height)
    }

    #[tactic(auto, unfolding(crate::specs::Reading::size_of_type))]
    fn size_of_type(&self, tokens: &mut Cursor<'_>) -> Result<Found<Operand>, ParseError>
        requires { ReadsParts self.now F.pre F.post }
        ensures { Gives (under self.now spec.size_of_type tokens.old) result tokens.new }
    {
        let pos = tokens.first_pos();
        tokens.advance();
        tokens.advance();
        let named = self.inner_head(tokens, Naming::Absent)?;
        tokens.pass_right_paren()?;
        self.operand(Expr::SizeofType(named.it.head, at(pos)), true, named.height)
    }

    #[tactic(auto, unfolding(crate::specs::Reading::size_of))]
    fn size_of(&self, tokens: &mut Cursor<'_>) -> Result<Found<Operand>, ParseError>
        requires { ReadsParts self.now F.pre F.post }
        ensures { Gives (under self.now spec.size_of tokens.old) result tokens.new }
    {
        let pos = tokens.first_pos();
        tokens.advance();
        let a = self.inner_expr(tokens, Level::Prefix)?;
        self.operand(Expr::SizeofExpr(a.it.tree, at(pos)), true, a.height)
    }

    /// Whether a type in brackets stands there.
    fn opens_type(&self, tokens: &Cursor<'_>) -> bool
        ensures { result ≡ under self.now spec.opens_type tokens.now }
    {
        tokens.is_left_paren() && tokens.behind().begins_type(self.types)
    }

    #[tactic(auto, unfolding(crate::specs::Reading::sized))]
    fn sized(&self, tokens: &mut Cursor<'_>) -> Result<Found<Operand>, ParseError>
        requires { ReadsParts self.now F.pre F.post }
        ensures { Gives (under self.now spec.sized tokens.old) result tokens.new }
    {
        if self.opens_type(&tokens.behind()) {
            self.size_of_type(tokens)
        } else {
            self.size_of(tokens)
        }
    }

    #[tactic(auto, unfolding(crate::specs::Reading::prefix, crate::specs::Reading::prefix_by))]
    pub(crate) fn prefix(&self, tokens: &mut Cursor<'_>) -> Result<Found<Operand>, ParseError>
        requires { ReadsParts self.now F.pre F.post }
        ensures { Gives (under self.now spec.prefix tokens.old) result tokens.new }
    {
        if let Some(op) = tokens.unary_at() {
            return self.applied(tokens, op);
        }
        if let Some(by) = tokens.step_at() {
            return self.stepped_first(tokens, by);
        }
        if tokens.is_sizeof() {
            return self.sized(tokens);
        }
        self.postfix(tokens)
    }

    #[tactic(auto, unfolding(crate::specs::Reading::cast))]
    fn cast(&self, tokens: &mut Cursor<'_>) -> Result<Found<Operand>, ParseError>
        requires { ReadsParts self.now F.pre F.post }
        ensures { Gives (under self.now spec.cast tokens.old) result tokens.new }
    {
        let pos = tokens.first_pos();
        tokens.advance();
        let named = self.inner_head(tokens, Naming::Absent)?;
        tokens.pass_right_paren()?;
        let a = self.inner_expr(tokens, Level::Cast)?;
        let height = named.height.max(a.height);
        self.operand(Expr::Cast(named.it.head, a.it.tree, at(pos)), false, height)
    }

    #[tactic(auto, unfolding(crate::specs::Reading::casts))]
    pub(crate) fn casts(&self, tokens: &mut Cursor<'_>) -> Result<Found<Operand>, ParseError>
        requires { ReadsParts self.now F.pre F.post }
        ensures { Gives (under self.now spec.casts tokens.old) result tokens.new }
    {
        if self.opens_type(tokens) {
            self.cast(tokens)
        } else {
            self.prefix(tokens)
        }
    }
}
