//! Which calls have gates.

ghost use Rattle.std.specs.Prelude.{◌≡◌};
ghost use Rattle.sc_world.specs.View.{type};
ghost use Rattle.run_laws.specs.Fits as laws;
ghost use Rattle.sc_gather.specs.Seen.{meaning};
ghost use Rattle.layout_base.specs.Seen as laid;
ghost use Rattle.layout_lookup.specs.Seen as looked;
ghost use Rattle.run_world.specs.Seen as seen;
ghost use Rattle.sc_flow.specs.Seen.{calling as node_call};
ghost use Rattle.tr_call.specs.Calls.{effect_of as call_effect, fits_width as is_of_width, has_gates};

use layout_lookup::{Lookup, Placed};
use run_entry::integer_bits;
use run_world::Here;
use sc_flow::Calling;
use sc_gather::{Effect, is_integer, is_pointer, is_void};
use sc_tree::ctype::CType;

// What a call does that is found; nothing is known of one that is not.
pub fn effect_of(call: Placed) -> Effect
    ensures { meaning result ≡ (looked.placed call.entry).site.effect }
{
    match call.site {
        None => Effect::Unknown,
        Some(site) => site.effect,
    }
}

// Whether a number is one of the width of an integer type.
fn fits_width(here: &Here, t: &CType, n: u32) -> bool
    ensures { result ≡ is_of_width (seen.env here.now).source (type t.now) n }
{
    sc_types::fits(integer_bits(here, t), n as u64)
}

// A call gives an integer, a pointer, or nothing.
fn may_give(t: &CType) -> bool
    ensures { result ≡ laws.may_give (type t.now) }
{
    is_integer(t) || (is_pointer(t) || is_void(t))
}

// Whether a call has a type that what it does can give.
fn type_fits(here: &Here, t: &CType, effect: Effect) -> bool
    ensures { result ≡ has_gates (seen.env here.now).source (type t.now) (meaning effect) }
{
    match effect {
        Effect::Operation(_) => is_integer(t) || is_void(t),
        Effect::Try(success, failure) => {
            is_integer(t) && (fits_width(here, t, success) && fits_width(here, t, failure))
        }
        Effect::Allocate(_) => is_pointer(t),
        Effect::Release => is_void(t),
        Effect::Ends | Effect::Expect => true,
        Effect::Known(_) | Effect::Unknown => may_give(t),
    }
}

/// Whether the call of a node has gates: it has a type that what it does can give. Each call of a typed program has such a type.
pub fn can_call(here: &Here, layout: &Lookup, calling: &Calling) -> bool
    ensures { result ≡ has_gates (seen.env here.now).source (type calling.now.result.now)
        (call_effect (laid.layout_of layout.now.places.now) (node_call (seen.env here.now).source.structs calling.now)) }
{
    let effect = effect_of(layout.site_at(calling.place.token));
    type_fits(here, calling.result, effect)
}
