// The bits that choose what calls do, in their order.

ghost use Rattle.std.specs.Prelude.{◌≡◌, ◌+◌, map, MatchResult};
ghost use Rattle.sc_world.specs.Occurrences as spec;
ghost use Rattle.sc_gather.specs.Made.{Makes, IsMemory};
ghost use Rattle.sc_gather.specs.Seen as gathered;
ghost use Rattle.layout_base.specs.Seen as seen;

use crate::cells::{object_cells, result_bits};
use crate::entry::following;
use crate::known::known_spots;
use layout_base::{Ground, Places};
use sc_gather::{Effect, Refused, Site};

// The bits of a call in one turn.
fn call_bits<'p>(
    laid: &mut Places<'p>,
    ground: &Ground<'p, '_, '_>,
    k: u32,
    site: Site<'p>,
    object: Option<u32>,
) -> Result<(), Refused>
    ensures { Makes (spec.effect_bits (seen.ground_of ground.now) k (gathered.call site.entry) object (gathered.meaning site.entry.effect)
        (seen.layout_of laid.old)) result (seen.layout_of laid.new) }
{
    match site.effect {
        Effect::Try(_, _) => {
            laid.take_bits(1)?;
            Ok(())
        }
        Effect::Allocate(zeroed) => {
            laid.take_bits(1)?;
            if zeroed {
                Ok(())
            } else {
                object_cells(laid, ground, object)
            }
        }
        Effect::Unknown => result_bits(laid, ground, site, 1, object),
        Effect::Known(place) => {
            result_bits(laid, ground, site, 2, object)?;
            known_spots(laid, ground, place, k)
        }
        Effect::Operation(_) | Effect::Release | Effect::Ends | Effect::Expect => Ok(()),
    }
}

// The bits and the spots of a call in one turn.
fn number_site<'p>(
    laid: &mut Places<'p>,
    ground: &Ground<'p, '_, '_>,
    k: u32,
    site: Site<'p>,
) -> Result<(), Refused>
    ensures { Makes (spec.number_site (seen.ground_of ground.now) k (gathered.call site.entry) (seen.layout_of laid.old))
        result (seen.layout_of laid.new) }
{
    let mut here = laid.occurrence(k);
    let bit = laid.take_bits(0)?;
    let spot = laid.spots_now()?;
    call_bits(laid, ground, k, site, here.object)?;
    here.bit = bit;
    here.spot = spot;
    laid.put_occurrence(k, here);
    Ok(())
}

// The same in all turns of a call, the first being occurrence k.
#[tactic(auto, using(crate::proofs::Steps::number_more, crate::proofs::Steps::number_last))]
fn number_turns<'p>(
    laid: &mut Places<'p>,
    ground: &Ground<'p, '_, '_>,
    first: u32,
    site: Site<'p>,
) -> Result<(), Refused>
    ensures { Makes (spec.number_turns site.entry.turns (seen.ground_of ground.now) first (gathered.call site.entry) (seen.layout_of laid.old))
        result (seen.layout_of laid.new) }
{
    let mut k = first;
    for _turn in 0..site.turns {
        number_site(laid, ground, k, site)?;
        k = following(k)?;
    }
    Ok(())
}

fn behind_turns(k: u32, turns: u32) -> Result<u32, Refused>
    ensures { MatchResult result (λ n. n ≡ k + turns) IsMemory }
{
    match k.checked_add(turns) {
        None => Err(Refused::Memory),
        Some(n) => Ok(n),
    }
}

/// The bits and the spots of all calls, in order.
pub fn number_all<'p>(
    laid: &mut Places<'p>,
    ground: &Ground<'p, '_, '_>,
    sites: &[Site<'p>],
) -> Result<(), Refused>
    ensures { Makes (spec.number_all 0 (map gathered.call sites.now) (seen.ground_of ground.now) (seen.layout_of laid.old))
        result (seen.layout_of laid.new) }
{
    let mut k = 0;
    for site in sites {
        number_turns(laid, ground, k, *site)?;
        k = behind_turns(k, site.turns)?;
    }
    Ok(())
}
