// The calls of the text, and their occurrences.

ghost use Rattle.std.specs.Prelude.{◌≡◌, slice_index_or, map};
ghost use Rattle.sc_world.specs.Layout as spec;
ghost use Rattle.sc_gather.specs.Seen.{call, meaning};
ghost use Rattle.layout_base.specs.Seen as laid;
ghost use Rattle.run_world.specs.Seen as seen;

use layout_base::{Occurrence, Places};
use run_world::Here;
use sc_base::Pos;
use sc_gather::{Effect, Site};

/// A call of the text in the turn at hand: what it does, and its occurrence.
#[derive(Clone, Copy)]
pub struct CallInTurn {
    pub effect: Effect,
    pub occurrence: Occurrence,
}

fn same_pos(p: Pos, q: Pos) -> bool
    ensures { result ≡ spec.same_pos p q }
{
    p.file == q.file && (p.line == q.line && p.col == q.col)
}

// The occurrence with that number; one of no call where there is none.
#[tactic(auto, unfolding(layout_base::specs::Seen::layout_of))]
fn occurrence(places: &Places, number: u128) -> Occurrence
    ensures { laid.occurrence_of result ≡ slice_index_or (laid.layout_of places.now).occurrences number spec.no_occurrence }
{
    let none = Occurrence {
        site: 0,
        object: None,
        bit: 0,
        spot: 0,
    };
    let occurrences = places.occurrences.as_slice();
    if number < occurrences.len() as u128 {
        occurrences[number as usize]
    } else {
        none
    }
}

// In how many turns a call may be made.
fn turns(site: &Site) -> u32
    ensures { result ≡ (call site.now).turns }
{
    site.turns
}

/// The call with that opening bracket, in the turn at hand.
#[tactic(auto, unfolding(run_world::specs::Seen::env, layout_base::specs::Seen::layout_of))]
pub fn called(here: &Here, bracket: Pos) -> CallInTurn
    ensures effect { meaning result.effect ≡ (spec.site_at (seen.env here.now).layout bracket).site.effect }
    ensures occurrence { laid.occurrence_of result.occurrence
        ≡ spec.occurrence_at (seen.env here.now).layout (spec.site_at (seen.env here.now).layout bracket) (seen.env here.now).turn }
{
    let sites = here.places.sites.as_slice();
    let mut first = 0u128;
    for k in 0..sites.len() {
        let site = sites[k];
        if same_pos(bracket, site.bracket) {
            return CallInTurn {
                effect: site.effect,
                occurrence: occurrence(here.places, first + u128::from(here.turn)),
            };
        }
        first += u128::from(turns(&site));
    }
    CallInTurn {
        effect: Effect::Unknown,
        occurrence: occurrence(here.places, first + u128::from(here.turn)),
    }
}
