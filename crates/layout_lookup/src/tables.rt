// The tables of a layout.

ghost use Rattle.std.specs.Prelude.{◌≡◌, ◌+◌, IfOk, map, slice_index_or};
ghost use Rattle.std.specs.HashMap.{get};
ghost use Rattle.sc_world.specs.Layout.{no_site};
ghost use Rattle.sc_gather.specs.Seen.{call};
ghost use Rattle.layout_base.specs.Seen.{location_of};
ghost use Rattle.layout_lookup.specs.Firsts.{number_or};
ghost use Rattle.layout_lookup.specs.Keys.{same_key, same_place};
ghost use Rattle.layout_lookup.specs.Tables as spec;
ghost use Rattle.layout_lookup.specs.Seen as seen;

use crate::key::{Key, Place, key_of, place_of};
use crate::table::note;
use layout_base::Location;
use sc_base::OutOfMemory;
use sc_gather::Site;
use std::alloc::Global;
use std::collections::HashMap;

fn behind(n: u32, more: u32) -> Result<u32, OutOfMemory>
    ensures { IfOk result (λ k. k ≡ n + more) }
{
    match n.checked_add(more) {
        None => Err(OutOfMemory),
        Some(k) => Ok(k),
    }
}

/// Of each key the number of the first location that has it.
pub fn locations_by_key(
    alloc: Global,
    locations: &[Location],
) -> Result<HashMap<Key, u32>, OutOfMemory>
    ensures tells { IfOk result (λ t. spec.TellsLocations (get same_key t) (map location_of locations.now)) }
    ensures few { IfOk result (λ t. spec.HasFewElements (get same_key t)) }
{
    let mut table = HashMap::new(alloc);
    let mut at = 0;
    for location in locations {
        note(&mut table, key_of(location.origin), at)?;
        at = behind(at, 1)?;
    }
    Ok(table)
}

/// Of each opening bracket the number of the first call that has it.
pub fn sites_by_bracket(alloc: Global, sites: &[Site]) -> Result<HashMap<Place, u32>, OutOfMemory>
    ensures { IfOk result (λ t. spec.TellsSites (get same_place t) (map call sites.now)) }
{
    let mut table = HashMap::new(alloc);
    let mut at = 0;
    for site in sites {
        note(&mut table, place_of(site.bracket), at)?;
        at = behind(at, 1)?;
    }
    Ok(table)
}

/// The number of the first occurrence of each call, and of what would stand behind the last one.
pub fn firsts(alloc: Global, sites: &[Site]) -> Result<Vec<u32>, OutOfMemory>
    ensures { IfOk result (λ v. v.items ≡ spec.firsts (map call sites.now)) }
{
    let mut numbers = Vec::new(alloc);
    let mut next = 0;
    numbers.push(next)?;
    for site in sites {
        next = behind(next, site.turns)?;
        numbers.push(next)?;
    }
    Ok(numbers)
}

/// The number at a place of a list; 0 where there is none.
pub fn number_at(numbers: &[u32], at: usize) -> u32
    ensures { result ≡ slice_index_or numbers.now at 0 }
{
    match numbers.get(at) {
        None => 0,
        Some(n) => *n,
    }
}

/// The call with that number.
pub fn site_with<'p>(sites: &[Site<'p>], at: usize) -> Option<Site<'p>>
    ensures { seen.site result ≡ slice_index_or (map call sites.now) at no_site }
{
    sites.get(at).copied()
}

/// The number that was found, or another one.
pub fn number_or(found: Option<u32>, otherwise: usize) -> usize
    ensures { result ≡ number_or found otherwise }
{
    match found {
        None => otherwise,
        Some(n) => n as usize,
    }
}
