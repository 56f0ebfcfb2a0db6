//! Names, constants, strings and expressions in brackets (C11 6.5.1).

ghost use Rattle.std.specs.Prelude.{◌≡◌, ◌∷◌, Some, OnOk, IfOk};
ghost use Rattle.sc_tree.specs.declared.token.Punct.TheVariants as sign;
ghost use Rattle.sc_tree.specs.Tokens.{at, is_type};
ghost use Rattle.sc_parse_expr.specs.Gives.{Gives};
ghost use Rattle.sc_parse_expr.specs.Nests.{ReadsParts, under};
ghost use Rattle.sc_parse_expr.specs.Reading as spec;

use crate::found::{Found, Operand, Phrase, Wanted};
use crate::grammar::{Grammar, node};
use sc_base::{List, NameId, OutOfMemory, Pos};
use sc_parse_front::{Cursor, ParseError, TypeNames};
use sc_tree::expr::{Expr, Place};
use sc_tree::grammar::Level;
use sc_tree::{Kind, Punct, StrToken};
use std::alloc::Global;

/// The place of an expression that its first token stands for.
pub(crate) fn at(pos: Pos) -> Place
    ensures { result ≡ at pos }
{
    Place {
        token: pos,
        first: pos,
    }
}

/// This string literal and those at the front of the tokens.
fn strings(
    alloc: Global,
    tokens: &mut Cursor<'_>,
    first: StrToken,
) -> Result<List<StrToken>, OutOfMemory>
    ensures all { IfOk result (λ all. all ≡ first ∷ spec.strings tokens.old) }
    ensures rest { OnOk result (tokens.new ≡ spec.past_strings tokens.old) }
{
    let mut all = List::new(alloc);
    all.push(first)?;
    while let Some(string) = tokens.string() {
        all.push(string)?;
        tokens.advance();
    }
    Ok(all)
}

impl<
    't,
    F: Fn(Global, &TypeNames, &mut Cursor<'_>, usize, Wanted) -> Result<Found<Phrase>, ParseError>,
> Grammar<'t, F> {
    /// A name or a constant.
    fn atom(&self, tokens: &Cursor<'_>, tree: Expr) -> Result<Found<Operand>, ParseError>
        ensures { Gives (under self.now spec.atom tree tokens.now) result tokens.now }
    {
        self.operand(tree, true, 0)
    }

    /// Behind the word, which is to be no typedef name.
    fn named(
        &self,
        tokens: &Cursor<'_>,
        word: NameId,
        pos: Pos,
    ) -> Result<Found<Operand>, ParseError>
        ensures { Gives (under self.now spec.named_atom (is_type self.now.types.now word) word pos tokens.now) result tokens.now }
    {
        if self.types.contains(word) {
            return Err(ParseError::NoMatch);
        }
        self.atom(tokens, Expr::Name(word, at(pos)))
    }

    /// Behind the opening bracket.
    #[tactic(auto, unfolding(crate::specs::Reading::bracketed))]
    fn bracketed(&self, tokens: &mut Cursor<'_>) -> Result<Found<Operand>, ParseError>
        requires { ReadsParts self.now F.pre F.post }
        ensures { Gives (under self.now spec.in_round (Some sign.LeftParen) tokens.old) result tokens.new }
    {
        let a = self.inner_expr(tokens, Level::Whole)?;
        tokens.pass_right_paren()?;
        let Found { it, height } = a;
        let Operand { tree, .. } = it;
        node(self.limit, Operand { tree, unary: true }, height)
    }

    /// Behind its first token.
    #[tactic(auto, unfolding(crate::specs::Reading::primary_by))]
    fn primary_by(
        &self,
        tokens: &mut Cursor<'_>,
        first: Kind,
        pos: Pos,
    ) -> Result<Found<Operand>, ParseError>
        requires { ReadsParts self.now F.pre F.post }
        ensures { Gives (under self.now spec.primary_by first pos tokens.old) result tokens.new }
    {
        match first {
            Kind::Word(word) => self.named(tokens, word, pos),
            Kind::Int(int) => self.atom(tokens, Expr::Int(int, at(pos))),
            Kind::Char(value) => self.atom(tokens, Expr::Char(value, at(pos))),
            Kind::Odd => self.atom(tokens, Expr::Odd(at(pos))),
            Kind::Str(string) => {
                let all = strings(self.alloc, tokens, string)?;
                self.atom(tokens, Expr::Str(all, at(pos)))
            }
            Kind::Punct(Punct::LeftParen) => self.bracketed(tokens),
            Kind::Punct(_) => Err(ParseError::NoMatch),
            Kind::Reserved(_) => Err(ParseError::NoMatch),
        }
    }

    #[tactic(auto, unfolding(crate::specs::Reading::primary))]
    pub(crate) fn primary(&self, tokens: &mut Cursor<'_>) -> Result<Found<Operand>, ParseError>
        requires { ReadsParts self.now F.pre F.post }
        ensures { Gives (under self.now spec.primary tokens.old) result tokens.new }
    {
        let Some(first) = tokens.next() else {
            return Err(ParseError::NoMatch);
        };
        self.primary_by(tokens, first.kind, first.pos)
    }
}
