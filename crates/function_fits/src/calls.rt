// Which calls fit the layout.

ghost use Rattle.std.specs.Prelude.{◌≡◌};
ghost use Rattle.run_laws.specs.Fits as laws;
ghost use Rattle.sc_gather.specs.Seen.{meaning};
ghost use Rattle.sc_world.specs.Layout.{same_pos};
ghost use Rattle.sc_world.specs.View.{type};
ghost use Rattle.layout_lookup.specs.Seen as seen;
ghost use Rattle.function_fits.specs.Expressions as spec;
ghost use Rattle.function_fits.specs.Laid.{arguments_of, layout_of};

use crate::laid::{Laid, type_of};
use layout_lookup::Placed;
use run_world::same_type;
use sc_base::Pos;
use sc_gather::{Effect, is_integer, is_pointer, is_void};
use sc_tree::ctype::CType;
use sc_typed::TExpr;

/// Whether a function may give a result of that type: an integer, a pointer, or nothing.
pub fn may_give(t: &CType) -> bool
    ensures { result ≡ laws.may_give (type t.now) }
{
    is_integer(t) || (is_pointer(t) || is_void(t))
}

// Whether the first argument is a pointer, if there is one.
fn first_points(laid: &Laid, args: &[TExpr]) -> bool
    ensures { result ≡ spec.first_points (arguments_of laid.now args.now) }
{
    match args {
        [] => true,
        [first, ..] => is_pointer(type_of(laid, first)),
    }
}

// Whether there is a first argument, of that type.
fn is_first(laid: &Laid, args: &[TExpr], t: &CType) -> bool
    ensures { result ≡ spec.is_first (arguments_of laid.now args.now) (type t.now) }
{
    match args {
        [] => false,
        [first, ..] => same_type(type_of(laid, first), t),
    }
}

// Whether a call that does this takes these arguments and has that type.
fn effect_fits(laid: &Laid, effect: Effect, args: &[TExpr], t: &CType) -> bool
    ensures { result ≡ spec.effect_fits (meaning effect) (arguments_of laid.now args.now) (type t.now) }
{
    match effect {
        Effect::Operation(_) => (is_integer(t) || is_void(t)) && first_points(laid, args),
        Effect::Try(_, _) => is_integer(t) && first_points(laid, args),
        Effect::Allocate(_) => is_pointer(t),
        Effect::Release => is_void(t) && first_points(laid, args),
        Effect::Ends => true,
        Effect::Expect => is_first(laid, args, t),
        Effect::Known(_) | Effect::Unknown => may_give(t),
    }
}

// The opening bracket of a call of the layout; the first place of all where there is no such call.
fn bracket_of(call: Placed) -> Pos
    ensures { result ≡ (seen.placed call.entry).site.bracket }
{
    match call.site {
        None => Pos {
            file: 0,
            line: 0,
            col: 0,
        },
        Some(site) => site.bracket,
    }
}

// What it does; of no call nothing is known.
fn effect_of(call: Placed) -> Effect
    ensures { meaning result ≡ (seen.placed call.entry).site.effect }
{
    match call.site {
        None => Effect::Unknown,
        Some(site) => site.effect,
    }
}

fn is_at(p: Pos, q: Pos) -> bool
    ensures { result ≡ same_pos p q }
{
    p.file == q.file && (p.line == q.line && p.col == q.col)
}

/// Whether a call is among those of the layout, by its opening bracket, and takes these arguments and has that type by
/// what it does there.
pub fn call_fits(laid: &Laid, bracket: Pos, args: &[TExpr], t: &CType) -> bool
    ensures { result ≡ spec.call_fits (layout_of laid.now) bracket (arguments_of laid.now args.now) (type t.now) }
{
    let call = laid.layout.site_at(bracket);
    is_at(bracket, bracket_of(call)) && effect_fits(laid, effect_of(call), args, t)
}
