// Expressions: each is a node, but a conversion; a call is a site.

ghost use Rattle.std.specs.Prelude.{◌≡◌};
ghost use Rattle.sc_world.specs.Tree as tree;
ghost use Rattle.sc_world.specs.Gather as spec;
ghost use Rattle.sc_world.specs.View as view;
ghost use Rattle.sc_gather.specs.Made.{Makes};
ghost use Rattle.sc_gather.specs.Seen as seen;

use crate::found::{call_site, field_name, function_name, global, literal, nodes};
use crate::types::{is_void, target};
use crate::{Context, Found, Refused, Round, Site, Stands};
use sc_base::List;
use sc_tree::ctype::CType;
use sc_typed::{TExpr, What};

// How the right side of an assignment, an initialiser or what is returned stands.
pub fn as_given<'p>(here: &Context, e: &'p TExpr) -> Stands<'p>
    ensures { seen.standing result ≡ spec.as_given (view.exp (seen.source_of here.now).structs e.now) }
{
    Stands::GivenAs(target(here.type_of(e)))
}

fn object_as<'p>(given: Option<&'p CType>, t: &'p CType) -> Option<&'p CType>
    ensures { spec.declared_object (seen.type_if result) ≡ spec.object_as (seen.type_if given.entry) (view.type t.now) }
{
    match given {
        None => target(t),
        Some(u) => { if is_void(u) { target(t) } else { Some(u) } }
    }
}

// The type of the object of a call that stands so and gives a pointer of that type; `None` for `void`.
fn object_of<'p>(stands: Stands<'p>, t: &'p CType) -> Option<&'p CType>
    ensures { spec.declared_object (seen.type_if result) ≡ spec.object_of (seen.standing stands.entry) (view.type t.now) }
{
    match stands {
        Stands::GivenAs(given) => object_as(given, t),
        Stands::Plain | Stands::Named => target(t),
    }
}

/// Gathers an expression that stands so, in such a round.
#[cycle(expression)]
pub fn expression<'p>(
    found: &mut Found<'p>,
    here: &Context<'p, '_>,
    e: &'p TExpr,
    stands: Stands<'p>,
    round: Round,
) -> Result<(), Refused>
    ensures { Makes (spec.gather (seen.source_of here.now) (view.exp (seen.source_of here.now).structs e.now) (seen.standing stands.entry)
        (seen.round round) (seen.found found.old)) result (seen.found found.new) }
{
    match &e.what {
        What::Convert(a) => expression(found, here, a.get(), stands, round),
        What::Temp(_) | What::TempPlace(_) => Ok(()),
        What::Comma(a, b) | What::Binary(_, a, b) | What::Index(a, b) => {
            nodes(found, round.factor)?;
            expression(found, here, a.get(), Stands::Plain, round)?;
            expression(found, here, b.get(), Stands::Plain, round)
        }
        What::Assign(_, _, a, b) => {
            nodes(found, round.factor)?;
            expression(found, here, a.get(), Stands::Plain, round)?;
            expression(found, here, b.get(), as_given(here, b.get()), round)
        }
        What::Cond(a, b, c) => {
            nodes(found, round.factor)?;
            expression(found, here, a.get(), Stands::Plain, round)?;
            expression(found, here, b.get(), Stands::Plain, round)?;
            expression(found, here, c.get(), Stands::Plain, round)
        }
        What::Cast(a) => {
            nodes(found, round.factor)?;
            expression(
                found,
                here,
                a.get(),
                Stands::GivenAs(target(&e.ctype)),
                round,
            )
        }
        What::Unary(_, a) | What::PreInc(_, a) | What::PostInc(_, a) => {
            nodes(found, round.factor)?;
            expression(found, here, a.get(), Stands::Plain, round)
        }
        What::SizeofExpr(a, _) => {
            nodes(found, round.factor)?;
            expression(found, here, a.get(), Stands::Named, round)
        }
        What::SizeofType(_) | What::Param(_) | What::Local(_) | What::Int(_) | What::Char(_) =>
            nodes(found, round.factor),
        What::Call(f, args) => {
            nodes(found, round.factor)?;
            expression(found, here, f.get(), Stands::Named, round)?;
            arguments(found, here, args, round)?;
            let site = Site {
                pos: e.place.first,
                bracket: e.place.token,
                turns: round.turns,
                effect: here.effect(f.get(), args.as_slice(), &e.ctype),
                result: &e.ctype,
                object: object_of(stands, &e.ctype),
            };
            call_site(found, site)
        }
        What::Field(a, number, member, _) => {
            nodes(found, round.factor)?;
            expression(found, here, a.get(), Stands::Plain, round)?;
            field_name(found, here.member_name(*number, *member))
        }
        What::Global(n) => {
            nodes(found, round.factor)?;
            global(found, *n)
        }
        What::Function(n, _) => {
            nodes(found, round.factor)?;
            function_name(found, *n, stands)
        }
        What::Str(_) => {
            nodes(found, round.factor)?;
            literal(found, e.place.token)
        }
    }
}

// Gathers the arguments of a call.
#[cycle(expression)]
fn arguments<'p>(
    found: &mut Found<'p>,
    here: &Context<'p, '_>,
    args: &'p List<TExpr>,
    round: Round,
) -> Result<(), Refused>
    ensures { Makes (spec.gather_all (seen.source_of here.now) (seen.arguments_of (seen.source_of here.now).structs args.now)
        (seen.round round) (seen.found found.old)) result (seen.found found.new) }
{
    for e in args.as_slice() {
        expression(found, here, e, Stands::Plain, round)?;
    }
    Ok(())
}
