//! Parts of objects: members (C11 6.5.2.3), and the first elements of arrays (C11 6.3.2.1).

ghost use Rattle.std.specs.Prelude.{◌≡◌, ℕ, ◌-◌, ◌<◌, ◌≤◌, ◌^◌, max, length, map, IfOk};
ghost use Rattle.bit_net.specs.Runs.{Grown};
ghost use Rattle.gl_sets.specs.Guards.{guards_top, targets_of};
ghost use Rattle.gl_store.specs.Meets.{locations_top};
ghost use Rattle.gate_runs.specs.Stands.{AreEnds};
ghost use Rattle.layout_base.specs.Seen as laid;
ghost use Rattle.sc_world.specs.Tree.{target_or_void};
ghost use Rattle.sc_world.specs.View.{type};
ghost use Rattle.run_world.specs.Seen as seen;
ghost use Rattle.run_values.specs.Seen.{want_of};
ghost use Rattle.gate_places.specs.Places.{DoesFollow, DoesMember, DoesMemberBehind, IsFirstElement, IsLaid, IsPart, part_at, part_target};

use crate::following::dereference;
use crate::places::wanted;
use bit_net::{Net, OutOfMemory};
use gate_runs::Ends;
use gl_sets::{Pair, Set, moved};
use gl_store::{Store, Val};
use layout_lookup::Lookup;
use run_values::Want;
use run_world::Here;
use sc_base::NameId;
use sc_tree::ctype::CType;
use std::alloc::Global;
use sum_rows::Step;

/// A part of an object, by the way to it.
#[derive(Clone, Copy)]
pub enum Way {
    /// The member of that name; one that the text names is there.
    Member(NameId),
    /// The first element of an array; the array itself where it has no element.
    First,
}

// The location of the part of a location.
#[tactic(auto, using(crate::proofs::Membering::part_low))]
fn part_of(layout: &Lookup, way: Way, at: u32) -> u32
    ensures is { result ≡ part_at (laid.layout_of layout.now.places.now) way at }
    ensures low { result ≤ max at (length (laid.layout_of layout.now.places.now).locations - 1) }
{
    match way {
        Way::Member(name) => match layout.part(at, Step::Field(name)) {
            None => 0,
            Some(member) => member,
        },
        Way::First => match layout.part(at, Step::Elem(0)) {
            None => at,
            Some(first) => first,
        },
    }
}

// The target of the part of the location to which a target leads.
fn target_of(layout: &Lookup, way: Way, target: u32) -> u32
    requires few { length (laid.layout_of layout.now.places.now).locations < 2 ^ 32 }
    ensures { result ≡ part_target (laid.layout_of layout.now.places.now) way target }
{
    let whole = target.saturating_sub(1);
    let at = part_of(layout, way, whole);
    at + 1
}

// For each pair the target of the part.
fn targets(
    layout: &Lookup,
    alloc: Global,
    way: Way,
    pairs: &[Pair],
) -> Result<Vec<u32>, OutOfMemory>
    requires few { length (laid.layout_of layout.now.places.now).locations < 2 ^ 32 }
    ensures { IfOk result (λ r. map (λ t. part_target (laid.layout_of layout.now.places.now) way t)
        (targets_of pairs.now) ≡ r.items) }
{
    let mut made = Vec::new(alloc);
    for pair in pairs {
        let target = target_of(layout, way, pair.target);
        made.push(target)?;
    }
    Ok(made)
}

/// The pointer to a part of what a pointer leads to.
pub fn part(layout: &Lookup, net: &mut Net, way: Way, pointer: &Set) -> Result<Set, OutOfMemory>
    requires few { length (laid.layout_of layout.now.places.now).locations < 2 ^ 32 }
    requires pointer { guards_top pointer.now.pairs.items ≤ length net.old }
    ensures grown { Grown net.old net.new }
    ensures ok { IfOk result (λ r. IsPart net.new (laid.layout_of layout.now.places.now) way pointer.now.pairs.items r.pairs.items) }
{
    let ways = targets(layout, net.alloc(), way, pointer.pairs.as_slice())?;
    let made = moved(net, pointer, ways.as_slice())?;
    Ok(made)
}

/// The pointer to the first element of an array (C11 6.3.2.1); to the array itself where it has no element.
#[tactic(auto, using(crate::proofs::Membering::is_first))]
pub fn first_element(layout: &Lookup, net: &mut Net, array: &Set) -> Result<Set, OutOfMemory>
    requires few { length (laid.layout_of layout.now.places.now).locations < 2 ^ 32 }
    requires array { guards_top array.now.pairs.items ≤ length net.old }
    ensures grown { Grown net.old net.new }
    ensures ok { IfOk result (λ r. IsFirstElement net.new (laid.layout_of layout.now.places.now) array.now r) }
{
    let made = part(layout, net, Way::First, array)?;
    Ok(made)
}

/// `s . m`: what is wanted of a member of an object.
pub fn member_of(
    here: &Here,
    layout: &Lookup,
    net: &mut Net,
    store: &Store,
    ends: &Ends,
    want: Want,
    t: &CType,
    name: NameId,
    object: &Set,
) -> Result<Val, OutOfMemory>
    requires few { length (laid.layout_of layout.now.places.now).locations < 2 ^ 32 }
    requires same { laid.layout_of layout.now.places.now ≡ (seen.env here.now).layout }
    requires laid { IsLaid (seen.env here.now).source (seen.env here.now).layout store.now.locations.items }
    requires store { locations_top store.now.locations.items ≤ length net.old }
    requires object { guards_top object.now.pairs.items ≤ length net.old }
    ensures grown { Grown net.old net.new }
    ensures ok { IfOk result (λ r. DoesMember (seen.env here.now).source (seen.env here.now).layout
        net.new store.now.locations.items ends.now (want_of want) (type t.now) name object.now r) }
{
    let made = part(layout, net, Way::Member(name), object)?;
    let val = wanted(here, net, store, want, t, &made)?;
    Ok(val)
}

// A pointer of that type is followed.
#[tactic(auto, unfolding(run_world::specs::Seen::env))]
fn pointed(
    here: &Here,
    net: &mut Net,
    store: &Store,
    ends: &mut Ends,
    pointer_type: &CType,
    pointer: &Set,
) -> Result<(), OutOfMemory>
    requires store { locations_top store.now.locations.items ≤ length net.old }
    requires ends { AreEnds net.old ends.old }
    requires pointer { guards_top pointer.now.pairs.items ≤ length net.old }
    ensures grown { Grown net.old net.new }
    ensures ready { IfOk result (λ r. AreEnds net.new ends.new) }
    ensures locations { length ends.new.bads.items ≡ length ends.old.bads.items }
    ensures ok { IfOk result (λ r. DoesFollow net.new (seen.env here.now).layout
        (target_or_void (type pointer_type.now)) store.now.locations.items pointer.now.pairs.items ends.old ends.new) }
{
    match pointer_type {
        CType::Ptr(target) => dereference(here.places, net, store, ends, target.get(), pointer),
        CType::Void
        | CType::Bool
        | CType::Int(_)
        | CType::Array(_, _)
        | CType::Struct(_)
        | CType::Union(_)
        | CType::Func(_)
        | CType::Opaque(_) => {
            let void = CType::Void;
            dereference(here.places, net, store, ends, &void, pointer)
        }
    }
}

/// `p -> m`: what is wanted of a member of what a pointer of that type points to.
pub fn member_behind(
    here: &Here,
    layout: &Lookup,
    net: &mut Net,
    store: &Store,
    ends: &mut Ends,
    want: Want,
    pointer_type: &CType,
    t: &CType,
    name: NameId,
    pointer: &Set,
) -> Result<Val, OutOfMemory>
    requires few { length (laid.layout_of layout.now.places.now).locations < 2 ^ 32 }
    requires same { laid.layout_of layout.now.places.now ≡ (seen.env here.now).layout }
    requires laid { IsLaid (seen.env here.now).source (seen.env here.now).layout store.now.locations.items }
    requires store { locations_top store.now.locations.items ≤ length net.old }
    requires ends { AreEnds net.old ends.old }
    requires pointer { guards_top pointer.now.pairs.items ≤ length net.old }
    ensures grown { Grown net.old net.new }
    ensures ready { IfOk result (λ r. AreEnds net.new ends.new) }
    ensures locations { length ends.new.bads.items ≡ length ends.old.bads.items }
    ensures ok { IfOk result (λ r. DoesMemberBehind (seen.env here.now).source (seen.env here.now).layout
        net.new store.now.locations.items (want_of want) (type pointer_type.now) (type t.now) name pointer.now.pairs.items ends.old ends.new r) }
{
    pointed(here, net, store, ends, pointer_type, pointer)?;
    let made = part(layout, net, Way::Member(name), pointer)?;
    let val = wanted(here, net, store, want, t, &made)?;
    Ok(val)
}
