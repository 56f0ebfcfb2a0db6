//! The knot: what is read up to a height, whose parts are read up to one less.

ghost use Rattle.std.specs.Prelude.{◌≡◌};
ghost use Rattle.sc_parse_expr.specs.Gives.{Gives};
ghost use Rattle.sc_parse_expr.specs.Nests.{ReadsParts, under};
ghost use Rattle.sc_parse_expr.specs.Reading as spec;

use crate::found::{Declared, Found, Operand, Phrase, Wanted};
use crate::grammar::Grammar;
use sc_parse_front::{Cursor, ParseError, TypeNames};
use sc_tree::grammar::{Level, Naming, Specified};
use std::alloc::Global;

impl<
    't,
    F: Fn(Global, &TypeNames, &mut Cursor<'_>, usize, Wanted) -> Result<Found<Phrase>, ParseError>,
> Grammar<'t, F> {
    #[tactic(auto, unfolding(crate::specs::Reading::at_level))]
    fn at_level(&self, tokens: &mut Cursor<'_>, level: Level) -> Result<Found<Operand>, ParseError>
        requires { ReadsParts self.now F.pre F.post }
        ensures { Gives (under self.now spec.at_level level tokens.old) result tokens.new }
    {
        match level {
            Level::Primary => self.primary(tokens),
            Level::Postfix => self.postfix(tokens),
            Level::Prefix => self.prefix(tokens),
            Level::Cast => self.casts(tokens),
            Level::Operators(level) => self.operators(tokens, level),
            Level::Choice => self.conditional(tokens),
            Level::Assignment => self.assignment(tokens),
            Level::Whole => self.whole(tokens),
        }
    }

    #[tactic(auto, unfolding(crate::specs::Reading::wanted))]
    fn wanted(&self, tokens: &mut Cursor<'_>, wanted: Wanted) -> Result<Found<Phrase>, ParseError>
        requires { ReadsParts self.now F.pre F.post }
        ensures { Gives (under self.now spec.wanted wanted tokens.old) result tokens.new }
    {
        match wanted {
            Wanted::Expr(level) => {
                let Found { it, height } = self.at_level(tokens, level)?;
                Ok(Found {
                    it: Phrase::Expr(it),
                    height,
                })
            }
            Wanted::Specs => {
                let Found { it, height } = self.specs(tokens)?;
                Ok(Found {
                    it: Phrase::Specs(it),
                    height,
                })
            }
            Wanted::Declarator(naming) => {
                let Found { it, height } = self.declarator(tokens, naming)?;
                Ok(Found {
                    it: Phrase::Declarator(it),
                    height,
                })
            }
        }
    }
}

/// What is wanted, read at the front of the tokens with a tree of at most that height.
fn parse(
    alloc: Global,
    types: &TypeNames,
    tokens: &mut Cursor<'_>,
    limit: usize,
    wanted: Wanted,
) -> Result<Found<Phrase>, ParseError>
    ensures { Gives (spec.parse types.now limit wanted tokens.old) result tokens.new }
{
    if limit == 0 {
        return Err(ParseError::NoMatch);
    }
    Grammar {
        alloc,
        types,
        limit,
        inner: parse,
    }
    .wanted(tokens, wanted)
}

/// The expression of that level at the front of the tokens, of at most that height, and goes behind
/// it. After a refusal nothing is known of the tokens that are left.
#[tactic(auto, using(crate::proofs::Phrases::expr_is_read))]
pub fn read_expr(
    alloc: Global,
    types: &TypeNames,
    tokens: &mut Cursor<'_>,
    limit: usize,
    level: Level,
) -> Result<Found<Operand>, ParseError>
    ensures { Gives (spec.expr_at types.now limit level tokens.old) result tokens.new }
{
    let Found { it, height } = parse(alloc, types, tokens, limit, Wanted::Expr(level))?;
    Ok(Found {
        it: it.into_expr(),
        height,
    })
}

/// The specifiers that name a type at the front of the tokens, with bodies of at most that height.
#[tactic(auto, using(crate::proofs::Phrases::specs_are_read))]
pub fn read_specs(
    alloc: Global,
    types: &TypeNames,
    tokens: &mut Cursor<'_>,
    limit: usize,
) -> Result<Found<Specified>, ParseError>
    ensures { Gives (spec.specs_at types.now limit tokens.old) result tokens.new }
{
    let Found { it, height } = parse(alloc, types, tokens, limit, Wanted::Specs)?;
    Ok(Found {
        it: it.into_specs(),
        height,
    })
}

/// The declarator of that naming at the front of the tokens, of at most that height.
#[tactic(auto, using(crate::proofs::Phrases::declarator_is_read))]
pub fn read_declarator(
    alloc: Global,
    types: &TypeNames,
    tokens: &mut Cursor<'_>,
    limit: usize,
    naming: Naming,
) -> Result<Found<Declared>, ParseError>
    ensures { Gives (spec.declarator_at types.now limit naming tokens.old) result tokens.new }
{
    let Found { it, height } = parse(alloc, types, tokens, limit, Wanted::Declarator(naming))?;
    Ok(Found {
        it: it.into_declarator(),
        height,
    })
}
