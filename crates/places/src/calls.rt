// Calls in their turns: the objects that they give.

ghost use Rattle.std.specs.Prelude.{◌≡◌, map};
ghost use Rattle.sc_world.specs.Occurrences as spec;
ghost use Rattle.sc_gather.specs.Made.{Makes};
ghost use Rattle.sc_gather.specs.Seen as gathered;
ghost use Rattle.layout_base.specs.Seen as seen;

use crate::entry::following;
use crate::objects::{Behind, follow_range, whole_or_void};
use layout_base::{Chosen, Ground, Occurrence, Places};
use sc_gather::{Effect, Refused, Site, is_pointer};
use sc_world::Origin;

fn is_zeroed(effect: Effect) -> bool
    ensures { result ≡ spec.is_zeroed (gathered.meaning effect) }
{
    match effect {
        Effect::Allocate(zeroed) => zeroed,
        Effect::Operation(_)
        | Effect::Try(_, _)
        | Effect::Release
        | Effect::Ends
        | Effect::Expect
        | Effect::Known(_)
        | Effect::Unknown => false,
    }
}

// A stub behind each pointer cell of a range; where they are zeroed they are null.
fn stubs_behind<'p>(
    laid: &mut Places<'p>,
    ground: &Ground<'p, '_, '_>,
    zeroed: bool,
    from: u32,
    to: u32,
) -> Result<(), Refused>
    ensures { Makes (spec.stubs_behind zeroed from to (seen.ground_of ground.now) (seen.layout_of laid.old)) result (seen.layout_of laid.new) }
{
    if zeroed {
        Ok(())
    } else {
        follow_range(laid, ground, Behind::Stub, from, to)
    }
}

// The object of a call in one turn.
fn call_object<'p>(
    laid: &mut Places<'p>,
    ground: &Ground<'p, '_, '_>,
    n: u32,
    site: Site<'p>,
) -> Result<Option<u32>, Refused>
    ensures { Makes (spec.call_object (seen.ground_of ground.now) n (gathered.call site.entry) (seen.layout_of laid.old))
        result (seen.layout_of laid.new) }
{
    let at = whole_or_void(laid, ground, Chosen::Nothing, site.object, Origin::Call(n))?;
    let end = laid.locations_now()?;
    stubs_behind(laid, ground, is_zeroed(site.effect), at, end)?;
    Ok(Some(at))
}

fn object_if<'p>(
    laid: &mut Places<'p>,
    ground: &Ground<'p, '_, '_>,
    given: bool,
    n: u32,
    site: Site<'p>,
) -> Result<Option<u32>, Refused>
    ensures { Makes (spec.object_if given (seen.ground_of ground.now) n (gathered.call site.entry) (seen.layout_of laid.old))
        result (seen.layout_of laid.new) }
{
    if given {
        call_object(laid, ground, n, site)
    } else {
        Ok(None)
    }
}

// One call in one turn.
fn occur_once<'p>(
    laid: &mut Places<'p>,
    ground: &Ground<'p, '_, '_>,
    k: u32,
    site: Site<'p>,
) -> Result<(), Refused>
    ensures { Makes (spec.occur_once (seen.ground_of ground.now) k (gathered.call site.entry) (seen.layout_of laid.old))
        result (seen.layout_of laid.new) }
{
    let n = laid.occurrences_now()?;
    let object = object_if(laid, ground, is_pointer(site.result), n, site)?;
    laid.push_occurrence(Occurrence {
        site: k,
        object,
        bit: 0,
        spot: 0,
    })
}

// One call in all its turns.
#[tactic(auto, using(crate::proofs::Steps::occur_more, crate::proofs::Steps::occur_last))]
fn occur<'p>(
    laid: &mut Places<'p>,
    ground: &Ground<'p, '_, '_>,
    k: u32,
    site: Site<'p>,
) -> Result<(), Refused>
    ensures { Makes (spec.occur site.entry.turns (seen.ground_of ground.now) k (gathered.call site.entry) (seen.layout_of laid.old))
        result (seen.layout_of laid.new) }
{
    for _turn in 0..site.turns {
        occur_once(laid, ground, k, site)?;
    }
    Ok(())
}

/// All calls, in order, in all their turns.
pub fn occur_all<'p>(
    laid: &mut Places<'p>,
    ground: &Ground<'p, '_, '_>,
    sites: &[Site<'p>],
) -> Result<(), Refused>
    ensures { Makes (spec.occur_all 0 (map gathered.call sites.now) (seen.ground_of ground.now) (seen.layout_of laid.old))
        result (seen.layout_of laid.new) }
{
    let mut k = 0;
    for site in sites {
        occur(laid, ground, k, *site)?;
        k = following(k)?;
    }
    Ok(())
}
