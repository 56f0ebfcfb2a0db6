//! The elements to which arrays and an index lead.

ghost use Rattle.std.specs.Prelude.{◌≡◌, ℕ, ◌+◌, ◌<◌, ◌≤◌, ◌^◌, ◌&&◌, nat_eq, length, IfOk, OnOk};
ghost use Rattle.bit_net.specs.Runs.{Gives, Grown};
ghost use Rattle.bit_words.specs.Number.{number, top};
ghost use Rattle.gl_sets.specs.Guards.{guard, guards_top};
ghost use Rattle.gl_store.specs.Meets.{locations_top};
ghost use Rattle.gate_runs.specs.Stands.{AreEnds};
ghost use Rattle.layout_base.specs.Seen as laid;
ghost use Rattle.sc_world.specs.Layout as layouts;
ghost use Rattle.sc_world.specs.View.{type};
ghost use Rattle.run_world.specs.Seen as seen;
ghost use Rattle.run_values.specs.Seen.{want_of};
ghost use Rattle.gate_places.specs.Places.{IsLaid};
ghost use Rattle.gate_elements.specs.Elements.{DoesElement, HasElements, IsElement, IsPushed, LeadsHere, element_origin, is_location};

use bit_net::{Gate, Net, OutOfMemory};
use bit_words::{Word, constant, convert, equal};
use gate_places::wanted;
use gate_runs::Ends;
use gl_sets::{Pair, Set, is_never, points};
use gl_store::{Store, Val};
use layout_base::Places;
use layout_lookup::Lookup;
use run_values::Want;
use run_world::Here;
use sc_tree::ctype::CType;
use sc_world::{Origin, Reason};
use smallvec::SmallVec;
use sum_rows::Step;

/// An element, by the location of its array and by its number.
#[derive(Clone, Copy)]
pub struct Entry {
    pub array: u32,
    pub number: u32,
}

/// The pointer to an element, null where there is none.
#[derive(Drop)]
pub struct Elements {
    pub pointer: Set,
    /// Holds where there is none.
    pub missing: Gate,
}

// The element that a location is, of an array among the locations.
fn element_origin(places: &Places, at: u32) -> Option<Entry>
    ensures { result ≡ element_origin (laid.layout_of places.now) (layouts.location (laid.layout_of places.now) at).origin }
{
    match places.location(at).origin {
        Origin::Part(array, Step::Elem(number)) => {
            if (array as usize) < places.count() {
                Some(Entry { array, number })
            } else {
                None
            }
        }
        Origin::Part(_, Step::Deref | Step::Field(_))
        | Origin::Param(_)
        | Origin::Global(_)
        | Origin::Local(_)
        | Origin::Literal(_)
        | Origin::Function(_)
        | Origin::Target(_)
        | Origin::Call(_) => None,
    }
}

// Whether the part is that location.
fn is_location(part: Option<u32>, at: u32) -> bool
    ensures { result ≡ is_location part at }
{
    match part {
        None => false,
        Some(to) => to == at,
    }
}

// Holds where the index is that number.
fn is_index(net: &mut Net, index: &Word, value: u32) -> Result<Gate, OutOfMemory>
    requires some { 0 < length index.now.bits.items }
    requires small { length index.now.bits.items ≤ 64 }
    requires index { top index.now.bits.items ≤ length net.old }
    ensures grown { Grown net.old net.new }
    ensures ok { IfOk result (λ r. Gives net.new r.at (λ choice v. nat_eq (number v index.now.bits.items) value)) }
{
    let wide = convert(net, index, false, 64)?;
    let bound = constant(net, value as u64, 64)?;
    let same = equal(net, &wide, &bound)?;
    Ok(same)
}

// Holds where the set points to the array of the element, and the index is its number.
fn is_indexed(net: &mut Net, array: &Set, index: &Word, element: Entry) -> Result<Gate, OutOfMemory>
    requires few { element.array + 1 < 2 ^ 32 }
    requires some { 0 < length index.now.bits.items }
    requires small { length index.now.bits.items ≤ 64 }
    requires array { guards_top array.now.pairs.items ≤ length net.old }
    requires index { top index.now.bits.items ≤ length net.old }
    ensures grown { Grown net.old net.new }
    ensures ok { IfOk result (λ r. Gives net.new r.at
        (λ choice v. guard v array.now.pairs.items (element.array + 1) && nat_eq (number v index.now.bits.items) element.number)) }
{
    let same = is_index(net, index, element.number)?;
    let there = points(net, array, element.array + 1);
    let both = net.and(there, same)?;
    Ok(both)
}

// Holds where the array and the index lead to that location.
fn leads_here(
    layout: &Lookup,
    net: &mut Net,
    array: &Set,
    index: &Word,
    at: u32,
) -> Result<Gate, OutOfMemory>
    requires few { length (laid.layout_of layout.now.places.now).locations < 2 ^ 32 }
    requires some { 0 < length index.now.bits.items }
    requires small { length index.now.bits.items ≤ 64 }
    requires array { guards_top array.now.pairs.items ≤ length net.old }
    requires index { top index.now.bits.items ≤ length net.old }
    ensures grown { Grown net.old net.new }
    ensures ok { IfOk result (λ r. LeadsHere net.new
        (laid.layout_of layout.now.places.now) array.now.pairs.items index.now.bits.items at r.at) }
{
    match element_origin(layout.places, at) {
        None => Ok(net.constant(false)),
        Some(element) => {
            let part = layout.part(element.array, Step::Elem(element.number));
            if is_location(part, at) {
                let gate = is_indexed(net, array, index, element)?;
                Ok(gate)
            } else {
                let never = net.constant(false);
                Ok(never)
            }
        }
    }
}

// Adds a pair, unless its guard never holds.
fn push_pair(net: &Net, pairs: &mut SmallVec<Pair, 4>, pair: Pair) -> Result<(), OutOfMemory>
    requires { pair.guard.at < length net.now }
    ensures { OnOk result (IsPushed net.now pair pairs.old.items pairs.new.items) }
{
    if is_never(net, pair.guard) {
        return Ok(());
    }
    pairs.push(pair)?;
    Ok(())
}

// One location more is looked at.
fn add_element(
    layout: &Lookup,
    net: &mut Net,
    array: &Set,
    index: &Word,
    at: u32,
    pairs: &mut SmallVec<Pair, 4>,
    found: Gate,
) -> Result<Gate, OutOfMemory>
    requires few { length (laid.layout_of layout.now.places.now).locations < 2 ^ 32 }
    requires at { at < length (laid.layout_of layout.now.places.now).locations }
    requires some { 0 < length index.now.bits.items }
    requires small { length index.now.bits.items ≤ 64 }
    requires array { guards_top array.now.pairs.items ≤ length net.old }
    requires index { top index.now.bits.items ≤ length net.old }
    requires elements { HasElements net.old (laid.layout_of layout.now.places.now) array.now.pairs.items index.now.bits.items at pairs.old.items found.at }
    ensures grown { Grown net.old net.new }
    ensures ok { IfOk result (λ r. HasElements net.new
        (laid.layout_of layout.now.places.now) array.now.pairs.items index.now.bits.items (at + 1) pairs.new.items r.at) }
{
    let guard = leads_here(layout, net, array, index, at)?;
    let target = at + 1;
    push_pair(net, pairs, Pair { guard, target })?;
    let more = net.or(found, guard)?;
    Ok(more)
}

/// The pointer to the element with the index of the array to which a set points.
pub fn element(
    layout: &Lookup,
    net: &mut Net,
    array: &Set,
    index: &Word,
) -> Result<Elements, OutOfMemory>
    requires few { length (laid.layout_of layout.now.places.now).locations < 2 ^ 32 }
    requires some { 0 < length index.now.bits.items }
    requires small { length index.now.bits.items ≤ 64 }
    requires array { guards_top array.now.pairs.items ≤ length net.old }
    requires index { top index.now.bits.items ≤ length net.old }
    ensures grown { Grown net.old net.new }
    ensures ok { IfOk result (λ r. IsElement net.new
        (laid.layout_of layout.now.places.now) array.now.pairs.items index.now.bits.items r.pointer.pairs.items r.missing.at) }
{
    let mut pairs = SmallVec::new(net.alloc());
    let mut found = net.constant(false);
    for at in 0..layout.places.count() {
        let more = add_element(layout, net, array, index, at as u32, &mut pairs, found)?;
        found = more;
    }
    let missing = net.not(found)?;
    push_pair(
        net,
        &mut pairs,
        Pair {
            guard: missing,
            target: 0,
        },
    )?;
    let pointer = Set { pairs };
    Ok(Elements { pointer, missing })
}

/// `a [ k ]` of an array: an index that no element has sets the run aside.
pub fn array_index(
    here: &Here,
    layout: &Lookup,
    net: &mut Net,
    store: &Store,
    ends: &mut Ends,
    want: Want,
    t: &CType,
    array: &Set,
    index: &Word,
) -> Result<Val, OutOfMemory>
    requires few { length (laid.layout_of layout.now.places.now).locations < 2 ^ 32 }
    requires same { laid.layout_of layout.now.places.now ≡ (seen.env here.now).layout }
    requires laid { IsLaid (seen.env here.now).source (seen.env here.now).layout store.now.locations.items }
    requires store { locations_top store.now.locations.items ≤ length net.old }
    requires ends { AreEnds net.old ends.old }
    requires some { 0 < length index.now.bits.items }
    requires small { length index.now.bits.items ≤ 64 }
    requires array { guards_top array.now.pairs.items ≤ length net.old }
    requires index { top index.now.bits.items ≤ length net.old }
    ensures grown { Grown net.old net.new }
    ensures ready { IfOk result (λ r. AreEnds net.new ends.new) }
    ensures locations { length ends.new.bads.items ≡ length ends.old.bads.items }
    ensures ok { IfOk result (λ r. DoesElement (seen.env here.now).source (seen.env here.now).layout
        net.new store.now.locations.items (want_of want) (type t.now) array.now index.now ends.old ends.new r) }
{
    let made = element(layout, net, array, index)?;
    ends.end_where(net, made.missing, Reason::Index)?;
    let val = wanted(here, net, store, want, t, &made.pointer)?;
    Ok(val)
}
