//! The reading of trees up to a height, over a function that reads those which are lower by one.

ghost use Rattle.std.specs.Prelude.{◌≡◌};
ghost use Rattle.sc_tree.specs.Grammar.{is_named};
ghost use Rattle.sc_parse_expr.specs.Gives.{Gives, Grows};
ghost use Rattle.sc_parse_expr.specs.Nests.{ReadsParts, below, under};
ghost use Rattle.sc_parse_expr.specs.Reading as spec;

use crate::found::{Declared, Found, Headed, Operand, Phrase, Wanted};
use sc_base::Boxed;
use sc_parse_front::{Cursor, ParseError, TypeNames};
use sc_tree::expr::{Expr, Head};
use sc_tree::grammar::{Core, Level, Naming, Specified};
use std::alloc::Global;

/// What reads trees of at most the height `limit`. The parts under a node are read by `inner`, at one
/// less. After a refusal nothing is known of the tokens that are left.
#[derive(Clone, Copy)]
pub struct Grammar<'t, F> {
    pub alloc: Global,
    /// The typedef names that were declared before.
    pub types: &'t TypeNames,
    pub limit: usize,
    pub inner: F,
}

/// A tree over parts of that height, where the limit allows one more.
pub fn node<T: Drop>(limit: usize, it: T, below: usize) -> Result<Found<T>, ParseError>
    ensures { Grows limit it below result }
{
    if below >= limit {
        return Err(ParseError::NoMatch);
    }
    Ok(Found {
        it,
        height: below + 1,
    })
}

fn is_named(core: Core) -> bool
    ensures { result ≡ is_named core }
{
    !matches!(core, Core::Nameless)
}

impl<
    't,
    F: Fn(Global, &TypeNames, &mut Cursor<'_>, usize, Wanted) -> Result<Found<Phrase>, ParseError>,
> Grammar<'t, F> {
    fn inner(&self, tokens: &mut Cursor<'_>, wanted: Wanted) -> Result<Found<Phrase>, ParseError>
        requires { ReadsParts self.now F.pre F.post }
        ensures { Gives (below self.now.types.now self.now.limit wanted tokens.old) result tokens.new }
    {
        (self.inner)(self.alloc, self.types, tokens, self.limit - 1, wanted)
    }

    /// An expression over parts of that height.
    pub(crate) fn operand(
        &self,
        tree: Expr,
        unary: bool,
        below: usize,
    ) -> Result<Found<Operand>, ParseError>
        ensures { Grows self.now.limit (spec.operand tree unary) below result }
    {
        let tree = Boxed::new(self.alloc, tree)?;
        node(self.limit, Operand { tree, unary }, below)
    }

    /// An expression of the level under a node.
    #[tactic(auto, using(crate::proofs::Phrases::expr_is_read))]
    pub(crate) fn inner_expr(
        &self,
        tokens: &mut Cursor<'_>,
        level: Level,
    ) -> Result<Found<Operand>, ParseError>
        requires { ReadsParts self.now F.pre F.post }
        ensures { Gives (under self.now spec.inner_expr level tokens.old) result tokens.new }
    {
        let Found { it, height } = self.inner(tokens, Wanted::Expr(level))?;
        Ok(Found {
            it: it.into_expr(),
            height,
        })
    }

    /// Specifiers under a node.
    #[tactic(auto, using(crate::proofs::Phrases::specs_are_read))]
    pub(crate) fn inner_specs(
        &self,
        tokens: &mut Cursor<'_>,
    ) -> Result<Found<Specified>, ParseError>
        requires { ReadsParts self.now F.pre F.post }
        ensures { Gives (under self.now spec.inner_specs tokens.old) result tokens.new }
    {
        let Found { it, height } = self.inner(tokens, Wanted::Specs)?;
        Ok(Found {
            it: it.into_specs(),
            height,
        })
    }

    /// A declarator under a node.
    #[tactic(auto, using(crate::proofs::Phrases::declarator_is_read))]
    pub(crate) fn inner_declarator(
        &self,
        tokens: &mut Cursor<'_>,
        naming: Naming,
    ) -> Result<Found<Declared>, ParseError>
        requires { ReadsParts self.now F.pre F.post }
        ensures { Gives (under self.now spec.inner_declarator naming tokens.old) result tokens.new }
    {
        let Found { it, height } = self.inner(tokens, Wanted::Declarator(naming))?;
        Ok(Found {
            it: it.into_declarator(),
            height,
        })
    }

    /// Specifiers and a declarator under a node.
    #[tactic(auto, unfolding(crate::specs::Reading::inner_head, crate::specs::Reading::headed))]
    pub(crate) fn inner_head(
        &self,
        tokens: &mut Cursor<'_>,
        naming: Naming,
    ) -> Result<Found<Headed>, ParseError>
        requires { ReadsParts self.now F.pre F.post }
        ensures { Gives (under self.now spec.inner_head naming tokens.old) result tokens.new }
    {
        let pos = tokens.first_pos();
        let specified = self.inner_specs(tokens)?;
        let declared = self.inner_declarator(tokens, naming)?;
        let named = is_named(declared.it.core);
        let head = Head {
            pos,
            specs: specified.it.specs,
            declarator: declared.it.declarator.into_inner(),
        };
        let head = Boxed::new(self.alloc, head)?;
        Ok(Found {
            it: Headed { head, named },
            height: specified.height.max(declared.height),
        })
    }
}
