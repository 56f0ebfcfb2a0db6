//! Initialisers (C11 6.7.9).

ghost use Rattle.std.specs.Prelude.{◌≡◌, ◌-◌, suc, length, []};
ghost use Rattle.sc_tree.specs.declared.decl.InitItem.{roll-InitItem};
ghost use Rattle.sc_parse_expr.specs.Gives.{Gives, Grows};
ghost use Rattle.sc_parse_unit.specs.Nests.{ReadsInitialisers, in_initialiser, inner_init};
ghost use Rattle.sc_parse_unit.specs.Reading.{some_items};
ghost use Rattle.sc_parse_unit.specs.Reading as spec;

use crate::fronts;
use sc_base::{Boxed, List};
use sc_parse_expr::{Found, node, read_expr};
use sc_parse_front::{Cursor, ParseError, TypeNames};
use sc_tree::decl::{Designator, Init, InitItem};
use sc_tree::grammar::Level;
use std::alloc::Global;

/// What reads initialisers of at most the height `limit`. Those in braces are read by `inner`, at
/// one less. After a refusal nothing is known of the tokens that are left.
#[derive(Clone, Copy)]
struct Initialisers<'t, F> {
    alloc: Global,
    /// The typedef names that were declared before.
    types: &'t TypeNames,
    limit: usize,
    inner: F,
}

fn item_of(designators: List<Designator>, init: Boxed<Init>) -> InitItem
    ensures { result ≡ spec.item_of designators init }
{
    InitItem {
        designators,
        init: init.into_inner(),
    }
}

impl<
    't,
    F: Fn(Global, &TypeNames, &mut Cursor<'_>, usize) -> Result<Found<Boxed<Init>>, ParseError>,
> Initialisers<'t, F> {
    fn inner(&self, tokens: &mut Cursor<'_>) -> Result<Found<Boxed<Init>>, ParseError>
        requires { ReadsInitialisers self.now F.pre F.post }
        ensures { Gives (inner_init self.now.types.now self.now.limit tokens.old) result tokens.new }
    {
        (self.inner)(self.alloc, self.types, tokens, self.limit - 1)
    }

    /// An initialiser over parts of that height.
    fn made(&self, init: Init, below: usize) -> Result<Found<Boxed<Init>>, ParseError>
        requires { ReadsInitialisers self.now F.pre F.post }
        ensures { Grows (suc (self.now.limit - 1)) init below result }
    {
        let init = Boxed::new(self.alloc, init)?;
        node(self.limit, init, below)
    }

    /// `. name` or `[ length ]`
    #[tactic(auto, unfolding(crate::specs::Reading::a_designator))]
    fn designator(&self, tokens: &mut Cursor<'_>) -> Result<Found<Designator>, ParseError>
        requires { ReadsInitialisers self.now F.pre F.post }
        ensures { Gives (spec.a_designator self.now.types.now (self.now.limit - 1) tokens.old) result tokens.new }
    {
        if fronts::is_dot(tokens) {
            tokens.advance();
            let Some(name) = tokens.word() else {
                return Err(ParseError::NoMatch);
            };
            tokens.advance();
            return Ok(Found {
                it: Designator::Field(name),
                height: 0,
            });
        }
        tokens.advance();
        let found = read_expr(
            self.alloc,
            self.types,
            tokens,
            self.limit - 1,
            Level::Choice,
        )?;
        tokens.pass_right_bracket()?;
        Ok(Found {
            it: Designator::Index(found.it.tree),
            height: found.height,
        })
    }

    /// All designators at the front.
    fn designators(&self, tokens: &mut Cursor<'_>) -> Result<Found<List<Designator>>, ParseError>
        requires { ReadsInitialisers self.now F.pre F.post }
        ensures { Gives (spec.designators self.now.types.now (self.now.limit - 1) (length tokens.old) [] 0 tokens.old) result tokens.new }
    {
        let mut all = List::new(self.alloc);
        let mut height = 0;
        for _turn in 0..tokens.len() {
            if fronts::is_no_designator(tokens) {
                return Ok(Found { it: all, height });
            }
            let found = self.designator(tokens)?;
            all.push(found.it)?;
            height = height.max(found.height);
        }
        if !fronts::is_no_designator(tokens) {
            return Err(ParseError::NoMatch);
        }
        Ok(Found { it: all, height })
    }

    #[tactic(auto, unfolding(crate::specs::Reading::designated))]
    fn designated(&self, tokens: &mut Cursor<'_>) -> Result<Found<InitItem>, ParseError>
        requires { ReadsInitialisers self.now F.pre F.post }
        ensures { Gives (in_initialiser self.now spec.designated tokens.old) result tokens.new }
    {
        let designators = self.designators(tokens)?;
        fronts::pass_equals(tokens)?;
        let init = self.inner(tokens)?;
        Ok(Found {
            it: item_of(designators.it, init.it),
            height: designators.height.max(init.height),
        })
    }

    #[tactic(auto, unfolding(crate::specs::Reading::undesignated))]
    fn undesignated(&self, tokens: &mut Cursor<'_>) -> Result<Found<InitItem>, ParseError>
        requires { ReadsInitialisers self.now F.pre F.post }
        ensures { Gives (in_initialiser self.now spec.undesignated tokens.old) result tokens.new }
    {
        let init = self.inner(tokens)?;
        Ok(Found {
            it: item_of(List::new(self.alloc), init.it),
            height: init.height,
        })
    }

    #[tactic(auto, unfolding(crate::specs::Reading::init_item))]
    fn item(&self, tokens: &mut Cursor<'_>) -> Result<Found<InitItem>, ParseError>
        requires { ReadsInitialisers self.now F.pre F.post }
        ensures { Gives (in_initialiser self.now spec.init_item tokens.old) result tokens.new }
    {
        if fronts::is_no_designator(tokens) {
            self.undesignated(tokens)
        } else {
            self.designated(tokens)
        }
    }

    /// Initialisers with commas between; a comma may end them.
    fn items(&self, tokens: &mut Cursor<'_>) -> Result<Found<List<InitItem>>, ParseError>
        requires { ReadsInitialisers self.now F.pre F.post }
        ensures { Gives (in_initialiser self.now some_items tokens.old) result tokens.new }
    {
        let mut all = List::new(self.alloc);
        let mut height = 0;
        for _turn in 0..tokens.len() {
            let found = self.item(tokens)?;
            all.push(found.it)?;
            height = height.max(found.height);
            if !tokens.is_comma() {
                return Ok(Found { it: all, height });
            }
            tokens.advance();
            if tokens.is_right_brace() {
                return Ok(Found { it: all, height });
            }
        }
        Err(ParseError::NoMatch)
    }

    /// Behind the opening brace.
    #[tactic(auto, unfolding(crate::specs::Reading::braces))]
    fn braces(&self, tokens: &mut Cursor<'_>) -> Result<Found<Boxed<Init>>, ParseError>
        requires { ReadsInitialisers self.now F.pre F.post }
        ensures { Gives (in_initialiser self.now spec.braces tokens.old) result tokens.new }
    {
        if tokens.is_right_brace() {
            tokens.advance();
            return self.made(Init::List(List::new(self.alloc)), 0);
        }
        let items = self.items(tokens)?;
        tokens.pass_right_brace()?;
        self.made(Init::List(items.it), items.height)
    }

    /// A value.
    #[tactic(auto, unfolding(crate::specs::Reading::init_value))]
    fn value(&self, tokens: &mut Cursor<'_>) -> Result<Found<Boxed<Init>>, ParseError>
        requires { ReadsInitialisers self.now F.pre F.post }
        ensures { Gives (in_initialiser self.now spec.init_value tokens.old) result tokens.new }
    {
        let found = read_expr(
            self.alloc,
            self.types,
            tokens,
            self.limit,
            Level::Assignment,
        )?;
        let init = Init::One(found.it.tree);
        Ok(Found {
            it: Boxed::new(self.alloc, init)?,
            height: found.height,
        })
    }

    #[tactic(auto, unfolding(crate::specs::Reading::initialiser_by))]
    fn initialiser(&self, tokens: &mut Cursor<'_>) -> Result<Found<Boxed<Init>>, ParseError>
        requires { ReadsInitialisers self.now F.pre F.post }
        ensures { Gives (in_initialiser self.now spec.initialiser_by tokens.old) result tokens.new }
    {
        if tokens.is_left_brace() {
            tokens.advance();
            self.braces(tokens)
        } else {
            self.value(tokens)
        }
    }
}

/// The initialiser at the front of the tokens, of at most that height, and goes behind it. After a
/// refusal nothing is known of the tokens that are left.
pub(crate) fn read_initialiser(
    alloc: Global,
    types: &TypeNames,
    tokens: &mut Cursor<'_>,
    limit: usize,
) -> Result<Found<Boxed<Init>>, ParseError>
    ensures { Gives (spec.initialiser types.now limit tokens.old) result tokens.new }
{
    if limit == 0 {
        return Err(ParseError::NoMatch);
    }
    Initialisers {
        alloc,
        types,
        limit,
        inner: read_initialiser,
    }
    .initialiser(tokens)
}
