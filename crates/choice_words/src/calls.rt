// The calls of which a choice speaks, each in each turn of the loops round it.

ghost use Rattle.std.specs.Prelude.{◌≡◌, ◌++◌, IfOk, OnOk, map};
ghost use Rattle.sc_gather.specs.Seen as gathered;
ghost use Rattle.sc_world.specs.View.{type};
ghost use Rattle.layout_base.specs.Seen as laid;
ghost use Rattle.choice_words.specs.Things as spec;

use crate::locations::{next, put_thing, value_reading};
use crate::parts::{Part, parts_of};
use crate::subjects::{Reading, Subject, Thing};
use layout_base::{Ground, Occurrence, Places, Spot};
use run_paths::{Sort, spot_at};
use sc_base::OutOfMemory;
use sc_gather::{Effect, Site};
use std::alloc::Global;

// How it is read what becomes of an item.
fn item_reading(sort: Sort, object: Option<u32>) -> Reading
    ensures { result ≡ spec.item_reading sort object }
{
    match sort {
        Sort::Lock => Reading::StateAfter,
        Sort::Param => Reading::Fate,
        Sort::Out => Reading::Pointed(object),
    }
}

fn part_thing(call: u32, spot: Spot, part: Part) -> Thing
    ensures { result ≡ spec.part_thing call spot.bit spot.object part }
{
    let (of, reading) = match part {
        Part::Item(sort, item) => (
            Subject::Item { call, item },
            item_reading(sort, spot.object),
        ),
        Part::Number(write, width) => (
            Subject::Write { call, write },
            Reading::Number {
                width,
                signed: false,
            },
        ),
        Part::Pointer(write) => (
            Subject::Write { call, write },
            Reading::Pointer(spot.object),
        ),
    };
    Thing {
        of,
        bit: spot.bit,
        reading,
    }
}

// The parts of a callee, the first of them having that spot.
fn put_parts(
    things: &mut Vec<Thing>,
    places: &Places,
    call: u32,
    spot: u32,
    parts: &[Part],
) -> Result<(), OutOfMemory>
    ensures { OnOk result (things.new.items ≡ things.old.items
        ++ spec.part_things (laid.layout_of places.now) call spot parts.now) }
{
    let mut n = spot as usize;
    for part in parts {
        things.push(part_thing(call, spot_at(places, n), *part))?;
        n += 1;
    }
    Ok(())
}

// The parts of the callee of a call with that effect.
fn known_parts(alloc: Global, ground: &Ground, effect: Effect) -> Result<Vec<Part>, OutOfMemory>
    ensures { IfOk result (λ parts. parts.items
        ≡ spec.known_parts (laid.ground_of ground.now).source (gathered.meaning effect)) }
{
    match effect {
        Effect::Known(n) => match ground.summary(n) {
            Some(summary) => parts_of(alloc, summary),
            None => Ok(Vec::new(alloc)),
        },
        Effect::Operation(_)
        | Effect::Try(_, _)
        | Effect::Allocate(_)
        | Effect::Release
        | Effect::Ends
        | Effect::Expect
        | Effect::Unknown => Ok(Vec::new(alloc)),
    }
}

// How it is read what a call itself does.
fn own_reading(ground: &Ground, site: &Site, object: Option<u32>) -> Option<Reading>
    ensures { result ≡ spec.own_reading (laid.ground_of ground.now).source (gathered.call site.now).result object
        (gathered.call site.now).effect }
{
    match site.effect {
        Effect::Try(_, _) => Some(Reading::Success),
        Effect::Allocate(_) => Some(Reading::Pointer(object)),
        Effect::Known(_) => value_reading(ground, site.result, Reading::Given(object)),
        Effect::Unknown => value_reading(ground, site.result, Reading::Pointer(object)),
        Effect::Operation(_) | Effect::Release | Effect::Ends | Effect::Expect => None,
    }
}

// The things of a call in one turn.
fn put_call(
    things: &mut Vec<Thing>,
    alloc: Global,
    ground: &Ground,
    places: &Places,
    call: u32,
    occurrence: Occurrence,
    site: &Site,
) -> Result<(), OutOfMemory>
    ensures { OnOk result (things.new.items ≡ things.old.items
        ++ spec.call_things (laid.ground_of ground.now).source (laid.layout_of places.now) call (laid.occurrence_of occurrence)
        (gathered.call site.now)) }
{
    let own = own_reading(ground, site, occurrence.object);
    put_thing(things, Subject::Call(call), occurrence.bit, own)?;
    let parts = known_parts(alloc, ground, site.effect)?;
    put_parts(things, places, call, occurrence.spot, parts.as_slice())
}

// The same of an occurrence; nothing where its call is not among those of the text.
#[tactic(auto, unfolding(layout_base::specs::Seen::layout_of))]
fn put_occurrence(
    things: &mut Vec<Thing>,
    alloc: Global,
    ground: &Ground,
    places: &Places,
    call: u32,
    occurrence: Occurrence,
) -> Result<(), OutOfMemory>
    ensures { OnOk result (things.new.items ≡ things.old.items
        ++ spec.occurrence_things (laid.ground_of ground.now).source (laid.layout_of places.now) call
        (laid.occurrence_of occurrence)) }
{
    match places.sites.get(occurrence.site as usize) {
        Some(site) => put_call(things, alloc, ground, places, call, occurrence, site),
        None => Ok(()),
    }
}

/// The things of all calls.
pub(crate) fn put_occurrences(
    things: &mut Vec<Thing>,
    alloc: Global,
    ground: &Ground,
    places: &Places,
    occurrences: &[Occurrence],
) -> Result<(), OutOfMemory>
    ensures { OnOk result (things.new.items ≡ things.old.items
        ++ spec.occurrences_things (laid.ground_of ground.now).source (laid.layout_of places.now) 0
        (map laid.occurrence_of occurrences.now)) }
{
    let mut call = 0;
    for occurrence in occurrences {
        put_occurrence(things, alloc, ground, places, call, *occurrence)?;
        call = next(call)?;
    }
    Ok(())
}
