//! Declarators (C11 6.7.6): `*`, brackets, names, arrays and functions.

ghost use Rattle.std.specs.Prelude.{◌≡◌};
ghost use Rattle.sc_tree.specs.Grammar.{called, covered, may_lack, may_name};
ghost use Rattle.sc_parse_front.specs.Front.{front, front_word, suffix};
ghost use Rattle.sc_parse_expr.specs.Gives.{Grows};
ghost use Rattle.sc_parse_expr.specs.Reading.{enclosed_at, one_derived};
ghost use Rattle.sc_parse_expr.specs.Gives.{Gives};
ghost use Rattle.sc_parse_expr.specs.Nests.{ReadsParts, under};
ghost use Rattle.sc_parse_expr.specs.Read.{read};
ghost use Rattle.sc_parse_expr.specs.Reading as spec;

use crate::found::{Declared, Found, Phrase, Wanted};
use crate::grammar::{Grammar, node};
use crate::parameters::Params;
use sc_base::{Boxed, NameId};
use sc_parse_front::{Cursor, ParseError, TypeNames};
use sc_tree::Punct;
use sc_tree::expr::{Declarator, Expr};
use sc_tree::grammar::{Core, Level, Naming};
use std::alloc::Global;

fn covered(core: Core) -> Core
    ensures { result ≡ covered core }
{
    match core {
        Core::Bare(word) => Core::Other(word),
        other => other,
    }
}

fn called(named: bool, core: Core) -> Core
    ensures { result ≡ called named core }
{
    match core {
        Core::Bare(word) => Core::Function(word, named),
        other => other,
    }
}

fn may_name(naming: Naming, types: &TypeNames, word: NameId) -> bool
    ensures { result ≡ may_name naming types.now word }
{
    match naming {
        Naming::Required => !types.contains(word),
        Naming::Member => true,
        Naming::Optional => !types.contains(word),
        Naming::Absent => false,
    }
}

fn may_lack(naming: Naming) -> bool
    ensures { result ≡ may_lack naming }
{
    matches!(naming, Naming::Optional | Naming::Absent)
}

impl<
    't,
    F: Fn(Global, &TypeNames, &mut Cursor<'_>, usize, Wanted) -> Result<Found<Phrase>, ParseError>,
> Grammar<'t, F> {
    /// A declarator over parts of that height.
    fn declared(
        &self,
        declarator: Declarator,
        core: Core,
        below: usize,
    ) -> Result<Found<Declared>, ParseError>
        ensures { Grows self.now.limit (spec.declared declarator core) below result }
    {
        let declarator = Boxed::new(self.alloc, declarator)?;
        node(self.limit, Declared { declarator, core }, below)
    }

    /// Behind the opening bracket of a declarator in brackets.
    #[tactic(auto, unfolding(crate::specs::Reading::enclosed))]
    fn enclosed(
        &self,
        tokens: &mut Cursor<'_>,
        naming: Naming,
    ) -> Result<Found<Declared>, ParseError>
        requires { ReadsParts self.now F.pre F.post }
        ensures { Gives (under self.now enclosed_at naming tokens.old) result tokens.new }
    {
        let found = self.inner_declarator(tokens, naming)?;
        tokens.pass_right_paren()?;
        let Found { it, height } = found;
        node(self.limit, it, height)
    }

    fn encloses(&self, tokens: &Cursor<'_>, naming: Naming) -> bool
        ensures { result ≡ under self.now spec.encloses naming tokens.now }
    {
        !(may_lack(naming) && (tokens.is_right_paren() || tokens.begins_type(self.types)))
    }

    #[tactic(auto, unfolding(crate::specs::Reading::unnamed))]
    fn unnamed(
        &self,
        tokens: &mut Cursor<'_>,
        naming: Naming,
    ) -> Result<Found<Declared>, ParseError>
        requires { ReadsParts self.now F.pre F.post }
        ensures { Gives (under self.now spec.unnamed naming tokens.old) result tokens.new }
    {
        if tokens.is_left_paren() && self.encloses(&tokens.behind(), naming) {
            tokens.advance();
            return self.enclosed(tokens, naming);
        }
        if !may_lack(naming) {
            return Err(ParseError::NoMatch);
        }
        self.declared(Declarator::Name(None), Core::Nameless, 0)
    }

    #[tactic(auto, unfolding(crate::specs::Reading::begun))]
    fn begun(&self, tokens: &mut Cursor<'_>, naming: Naming) -> Result<Found<Declared>, ParseError>
        requires { ReadsParts self.now F.pre F.post }
        ensures { Gives (under self.now spec.begun naming (front_word tokens.old) tokens.old) result tokens.new }
    {
        let Some(word) = tokens.word() else {
            return self.unnamed(tokens, naming);
        };
        if !may_name(naming, self.types, word) {
            return self.unnamed(tokens, naming);
        }
        let pos = tokens.first_pos();
        tokens.advance();
        self.declared(Declarator::Name(Some((word, pos))), Core::Bare(word), 0)
    }

    #[tactic(auto, unfolding(crate::specs::Reading::open_array, crate::specs::Reading::long_array, crate::specs::Reading::array_of))]
    fn array_of(
        &self,
        tokens: &mut Cursor<'_>,
        inside: Found<Declared>,
    ) -> Result<Found<Declared>, ParseError>
        requires { ReadsParts self.now F.pre F.post }
        ensures { Gives (under self.now spec.array_of (read inside.it inside.height tokens.old)) result tokens.new }
    {
        let core = covered(inside.it.core);
        tokens.advance();
        if tokens.is_right_bracket() {
            tokens.advance();
            return self.declared(
                Declarator::Array(inside.it.declarator, None),
                core,
                inside.height,
            );
        }
        let len = self.inner_expr(tokens, Level::Choice)?;
        tokens.pass_right_bracket()?;
        let height = inside.height.max(len.height);
        self.declared(
            Declarator::Array(inside.it.declarator, Some(len.it.tree)),
            core,
            height,
        )
    }

    #[tactic(auto, unfolding(crate::specs::Reading::function_of))]
    fn function_of(
        &self,
        tokens: &mut Cursor<'_>,
        inside: Found<Declared>,
    ) -> Result<Found<Declared>, ParseError>
        requires { ReadsParts self.now F.pre F.post }
        ensures { Gives (under self.now spec.function_of (read inside.it inside.height tokens.old)) result tokens.new }
    {
        tokens.advance();
        let found = self.parameters(tokens)?;
        tokens.pass_right_paren()?;
        let Found { it, height: tall } = found;
        let Params { heads, named, dots } = it;
        let core = called(named, inside.it.core);
        let height = inside.height.max(tall);
        self.declared(
            Declarator::Func(inside.it.declarator, heads, dots),
            core,
            height,
        )
    }

    /// A declarator with the first of the arrays and parameters behind it.
    fn derived(
        &self,
        tokens: &mut Cursor<'_>,
        inside: Found<Declared>,
    ) -> Result<Found<Declared>, ParseError>
        requires { ReadsParts self.now F.pre F.post }
        ensures { Gives (under self.now one_derived (suffix (front tokens.old)) (read inside.it inside.height tokens.old)) result tokens.new }
    {
        match tokens.front() {
            Some(Punct::LeftBracket) => self.array_of(tokens, inside),
            Some(Punct::LeftParen) => self.function_of(tokens, inside),
            _ => Err(ParseError::NoMatch),
        }
    }

    /// A declarator with all arrays and parameters behind it.
    fn derive(
        &self,
        tokens: &mut Cursor<'_>,
        first: Found<Declared>,
    ) -> Result<Found<Declared>, ParseError>
        requires { ReadsParts self.now F.pre F.post }
        ensures { Gives (under self.now spec.derive self.now.limit (read first.it first.height tokens.old)) result tokens.new }
    {
        let mut a = first;
        for _turn in 0..self.limit {
            if !tokens.has_derived() {
                return Ok(a);
            }
            a = self.derived(tokens, a)?;
        }
        if tokens.has_derived() {
            return Err(ParseError::NoMatch);
        }
        Ok(a)
    }

    #[tactic(auto, unfolding(crate::specs::Reading::direct))]
    fn direct(&self, tokens: &mut Cursor<'_>, naming: Naming) -> Result<Found<Declared>, ParseError>
        requires { ReadsParts self.now F.pre F.post }
        ensures { Gives (under self.now spec.direct naming tokens.old) result tokens.new }
    {
        let first = self.begun(tokens, naming)?;
        self.derive(tokens, first)
    }

    #[tactic(auto, unfolding(crate::specs::Reading::declarator, crate::specs::Reading::pointed))]
    pub(crate) fn declarator(
        &self,
        tokens: &mut Cursor<'_>,
        naming: Naming,
    ) -> Result<Found<Declared>, ParseError>
        requires { ReadsParts self.now F.pre F.post }
        ensures { Gives (under self.now spec.declarator naming tokens.old) result tokens.new }
    {
        if !tokens.is_star() {
            return self.direct(tokens, naming);
        }
        tokens.advance();
        let inside = self.inner_declarator(tokens, naming)?;
        let core = covered(inside.it.core);
        self.declared(
            Declarator::Pointer(inside.it.declarator),
            core,
            inside.height,
        )
    }
}
