// What a pointer may lead to: no stub, and no object that was freed.

ghost use Rattle.std.specs.Prelude.{◌≡◌, ℕ, ◌≤◌, length, IfOk};
ghost use Rattle.bit_net.specs.Runs.{Grown};
ghost use Rattle.gl_sets.specs.Guards.{guards_top};
ghost use Rattle.gl_store.specs.Meets.{locations_top};
ghost use Rattle.layout_base.specs.Seen as laid;
ghost use Rattle.gate_places.specs.Checks.{HaveTests, IsTest};
ghost use Rattle.gate_paths.specs.Targets.{IsUsable, is_lost as was_freed};

use crate::moves::{Move, go};
use bit_net::{Gate, Net, OutOfMemory};
use gl_sets::{Pair, Set, join, where_target};
use gl_store::{Flag, Store};
use layout_lookup::Lookup;

// Holds where the object in which a target is was freed.
fn is_lost(layout: &Lookup, net: &Net, store: &Store, target: u32) -> Gate
    requires store { locations_top store.now.locations.items ≤ length net.now }
    ensures { IsTest net.now store.now.locations.items (λ ps. was_freed (laid.layout_of layout.now.places.now) ps target) result.at }
{
    if target == 0 {
        net.constant(false)
    } else {
        let location = layout.places.location(target - 1);
        store.flag_anywhere(net, location.root, Flag::Freed)
    }
}

// For each pair the gate that holds where the object of its target was freed.
fn are_lost(
    layout: &Lookup,
    net: &Net,
    store: &Store,
    pairs: &[Pair],
) -> Result<Vec<Gate>, OutOfMemory>
    requires store { locations_top store.now.locations.items ≤ length net.now }
    ensures { IfOk result (λ r. HaveTests net.now store.now.locations.items
        (λ ps target. was_freed (laid.layout_of layout.now.places.now) ps target) pairs.now r.items) }
{
    let mut tests = Vec::new(net.alloc());
    for pair in pairs {
        let test = is_lost(layout, net, store, pair.target);
        tests.push(test)?;
    }
    Ok(tests)
}

/// What a pointer leads to, where that is no stub and was not freed; else it is missing.
pub fn usable(
    layout: &Lookup,
    net: &mut Net,
    store: &Store,
    pointer: &Set,
) -> Result<Set, OutOfMemory>
    requires store { locations_top store.now.locations.items ≤ length net.old }
    requires pointer { guards_top pointer.now.pairs.items ≤ length net.old }
    ensures grown { Grown net.old net.new }
    ensures ok { IfOk result (λ r. IsUsable net.new (laid.layout_of layout.now.places.now) store.now.locations.items
        pointer.now.pairs.items r.pairs.items) }
{
    let real = go(layout, net, Move::Real, pointer)?;
    let tests = are_lost(layout, net, store, real.pairs.as_slice())?;
    let lost = where_target(net, &real, tests.as_slice())?;
    let missing = Set::one(net, 0);
    let made = join(net, lost, &missing, &real)?;
    Ok(made)
}
