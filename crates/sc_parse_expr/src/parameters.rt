//! The parameters of a function (C11 6.7.6.3).

ghost use Rattle.std.specs.Prelude.{◌≡◌, ◌&&◌};
ghost use Rattle.sc_parse_expr.specs.Gives.{GivesAs};
ghost use Rattle.sc_parse_expr.specs.Nests.{ReadsParts, under};
ghost use Rattle.sc_parse_expr.specs.Reading as spec;
ghost use Rattle.sc_parse_expr.specs.Reading.{params_of, some_heads};

use crate::found::{Found, Headed, Phrase, Wanted};
use crate::grammar::Grammar;
use sc_base::List;
use sc_parse_front::{Cursor, ParseError, TypeNames, room_for_one};
use sc_tree::expr::Head;
use sc_tree::grammar::Naming;
use std::alloc::Global;

/// The parameters of a function, whether each has a name, and whether `...` stands behind them.
#[derive(Drop)]
pub struct Params {
    /// `None` for empty brackets, and none at all for `void`.
    pub heads: Option<List<Head>>,
    pub named: bool,
    pub dots: bool,
}

fn both(all: bool, this: bool) -> bool
    ensures { result ≡ (all && this) }
{
    all && this
}

impl<
    't,
    F: Fn(Global, &TypeNames, &mut Cursor<'_>, usize, Wanted) -> Result<Found<Phrase>, ParseError>,
> Grammar<'t, F> {
    /// Parameters with commas between, and `...` behind them or not.
    fn heads(&self, tokens: &mut Cursor<'_>) -> Result<Found<Params>, ParseError>
        requires { ReadsParts self.now F.pre F.post }
        ensures { GivesAs params_of (under self.now some_heads tokens.old) result tokens.new }
    {
        let mut all = room_for_one(self.alloc)?;
        let mut named = true;
        let mut height = 0;
        for _turn in 0..tokens.len() {
            let found = self.inner_head(tokens, Naming::Optional)?;
            let Found { it, height: tall } = found;
            let Headed {
                head,
                named: has_name,
            } = it;
            all.push(head.into_inner())?;
            named = both(named, has_name);
            height = height.max(tall);
            if !tokens.is_comma() {
                let it = Params {
                    heads: Some(all),
                    named,
                    dots: false,
                };
                return Ok(Found { it, height });
            }
            tokens.advance();
            if tokens.is_ellipsis() {
                tokens.advance();
                let it = Params {
                    heads: Some(all),
                    named,
                    dots: true,
                };
                return Ok(Found { it, height });
            }
        }
        Err(ParseError::NoMatch)
    }

    #[tactic(auto, unfolding(crate::specs::Reading::parameters))]
    pub(crate) fn parameters(&self, tokens: &mut Cursor<'_>) -> Result<Found<Params>, ParseError>
        requires { ReadsParts self.now F.pre F.post }
        ensures { GivesAs params_of (under self.now spec.parameters tokens.old) result tokens.new }
    {
        if tokens.is_right_paren() {
            let it = Params {
                heads: None,
                named: true,
                dots: false,
            };
            return Ok(Found { it, height: 0 });
        }
        if tokens.is_void() && tokens.behind().is_right_paren() {
            tokens.advance();
            let it = Params {
                heads: Some(List::new(self.alloc)),
                named: true,
                dots: false,
            };
            return Ok(Found { it, height: 0 });
        }
        self.heads(tokens)
    }
}
