// The look-ups in a layout, over tables that are made once.

ghost use Rattle.std.specs.Prelude.{◌≡◌, IfOk, slice_index_or};
ghost use Rattle.std.specs.HashMap.{get};
ghost use Rattle.sum_rows.specs.declared.path.Step.TheVariants as step;
ghost use Rattle.sc_world.specs.Layout as layouts;
ghost use Rattle.layout_base.specs.Seen as laid;
ghost use Rattle.layout_lookup.specs.Keys.{same_key, same_place};
ghost use Rattle.layout_lookup.specs.Tables.{TellsLocations, HasFewElements, TellsSites, firsts as first_numbers};
ghost use Rattle.layout_lookup.specs.Seen as seen;

use crate::key::{Key, Place, key_of, part_key, place_of};
use crate::placed::Placed;
use crate::table::find;
use crate::tables::{firsts, locations_by_key, number_at, number_or, site_with, sites_by_bracket};
use layout_base::{Occurrence, Places, Spot};
use sc_base::{OutOfMemory, Pos};
use sc_world::Origin;
use std::alloc::Global;
use std::collections::HashMap;
use sum_rows::Step;

/// Look-ups in a layout.
#[derive(Drop)]
pub struct Lookup<'p, 'f> {
    /// What is looked up in.
    pub places: &'f Places<'p>,

    // of each key the number of the first location that has it
    by_key: HashMap<Key, u32>,

    // of each opening bracket the number of the first call that has it
    by_bracket: HashMap<Place, u32>,

    // the number of the first occurrence of each call, and of what would stand behind the last one
    firsts: Vec<u32>,
    ghost located: { TellsLocations (get same_key by_key) (laid.layout_of places.now).locations },
    ghost few: { HasFewElements (get same_key by_key) },
    ghost sited: { TellsSites (get same_place by_bracket) (laid.layout_of places.now).sites },
    ghost counted: { firsts.items ≡ first_numbers (laid.layout_of places.now).sites },
}

impl<'p, 'f> Lookup<'p, 'f> {
    /// The tables of a layout. This alone takes memory. Where all calls together may be made in 2^32 turns or more, it
    /// answers `OutOfMemory`.
    #[tactic(auto, unfolding(layout_base::specs::Seen::layout_of))]
    pub fn of(alloc: Global, places: &'f Places<'p>) -> Result<Lookup<'p, 'f>, OutOfMemory>
        ensures { IfOk result (λ t. laid.layout_of t.places.now ≡ laid.layout_of places.now) }
    {
        let by_key = locations_by_key(alloc, places.locations.as_slice())?;
        let by_bracket = sites_by_bracket(alloc, places.sites.as_slice())?;
        let firsts = firsts(alloc, places.sites.as_slice())?;
        Ok(Lookup {
            places,
            by_key,
            by_bracket,
            firsts,
        })
    }

    /// The part of a location to which a step leads.
    pub fn part(&self, at: u32, step: Step) -> Option<u32>
        ensures { result ≡ layouts.part (laid.layout_of self.now.places.now) at step }
    {
        find(&self.by_key, part_key(at, step))
    }

    /// The element of a location with that number.
    pub fn element(&self, at: u32, k: u64) -> Option<u32>
        ensures { result ≡ layouts.part (laid.layout_of self.now.places.now) at (step.Elem k) }
    {
        match u32::try_from(k) {
            Ok(k) => self.part(at, Step::Elem(k)),
            Err(_) => None,
        }
    }

    /// The location that a parameter, a global, a local, a string or a function is; 0 where there is none.
    pub fn location_of(&self, origin: Origin) -> u32
        ensures { result ≡ layouts.location_of (laid.layout_of self.now.places.now) origin }
    {
        match find(&self.by_key, key_of(origin)) {
            None => 0,
            Some(at) => at,
        }
    }

    /// The call with that opening bracket.
    #[tactic(auto, unfolding(layout_base::specs::Seen::layout_of))]
    pub fn site_at(&self, bracket: Pos) -> Placed<'p>
        ensures { seen.placed result ≡ layouts.site_at (laid.layout_of self.now.places.now) bracket }
    {
        let sites = self.places.sites.as_slice();
        let at = number_or(find(&self.by_bracket, place_of(bracket)), sites.len());
        Placed {
            site: site_with(sites, at),
            first: number_at(self.firsts.as_slice(), at),
        }
    }

    /// The occurrence of a call in a turn; one of no call where there is none.
    #[tactic(auto, unfolding(layout_base::specs::Seen::layout_of))]
    pub fn occurrence_at(&self, call: Placed<'p>, turn: u32) -> Occurrence
        ensures { laid.occurrence_of result
            ≡ layouts.occurrence_at (laid.layout_of self.now.places.now) (seen.placed call.entry) turn }
    {
        match self
            .places
            .occurrences
            .get(call.first as usize + turn as usize)
        {
            None => Occurrence {
                site: 0,
                object: None,
                bit: 0,
                spot: 0,
            },
            Some(occurrence) => *occurrence,
        }
    }

    /// The spot with that number; one of no item where there is none.
    #[tactic(auto, unfolding(layout_base::specs::Seen::layout_of))]
    pub fn spot_at(&self, n: usize) -> Spot
        ensures { laid.spot_of result ≡ layouts.spot_at (laid.layout_of self.now.places.now) n }
    {
        match self.places.spots.get(n) {
            None => Spot {
                bit: 0,
                object: None,
            },
            Some(spot) => *spot,
        }
    }
}
