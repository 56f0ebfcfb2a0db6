//! The checks of where a pointer leads.

ghost use Rattle.std.specs.Prelude.{◌≡◌, ℕ, ◌<◌, ◌≤◌, length, IfOk, OnOk};
ghost use Rattle.bit_net.specs.Runs.{Grown};
ghost use Rattle.gl_sets.specs.Guards.{guards_top};
ghost use Rattle.gl_store.specs.Meets.{locations_top};
ghost use Rattle.gate_runs.specs.Stands.{AreEnds};
ghost use Rattle.layout_base.specs.Seen as laid;
ghost use Rattle.sc_world.specs.Layout as layouts;
ghost use Rattle.sc_world.specs.View.{type};
ghost use Rattle.gate_places.specs.Checks.{DoesCheck, HaveTests, IsTest, fails, fails_at, is_null_check, reason_of};

use bit_net::{Gate, Net, OutOfMemory};
use gate_runs::Ends;
use gl_sets::{Pair, Set, where_target};
use gl_store::{Flag, Store};
use layout_base::{Kind, Places};
use layout_lookup::is_stub;
use run_world::same_type;
use sc_tree::ctype::CType;
use sc_world::Reason;

/// A check of where a pointer leads, in the order of their reasons.
#[derive(Clone, Copy)]
pub enum Check {
    /// Null is followed nowhere.
    Null,
    /// A stub has no cell.
    Reach,
    /// The object was freed.
    Freed,
    /// The location is of another type.
    Type,
}

fn reason_of(check: Check) -> Reason
    ensures { result ≡ reason_of check }
{
    match check {
        Check::Null => Reason::Null,
        Check::Reach => Reason::Reach,
        Check::Freed => Reason::Freed,
        Check::Type => Reason::Type,
    }
}

fn is_null_check(check: Check) -> bool
    ensures { result ≡ is_null_check check }
{
    matches!(check, Check::Null)
}

fn is_stub_at(places: &Places, at: u32) -> bool
    ensures { result ≡ layouts.is_stub (layouts.location (laid.layout_of places.now) at) }
{
    is_stub(places.location(at))
}

fn has_type(places: &Places, at: u32, t: &CType) -> bool
    ensures { result ≡ layouts.has_type (layouts.location (laid.layout_of places.now) at) (type t.now) }
{
    match places.location(at).kind {
        Kind::Stub => false,
        Kind::Void => matches!(t, CType::Void),
        Kind::Of(u) => same_type(u, t),
    }
}

fn root_of(places: &Places, at: u32) -> u32
    ensures { result ≡ (layouts.location (laid.layout_of places.now) at).root }
{
    places.location(at).root
}

// Holds where the location fails the check.
fn location_fails(
    places: &Places,
    net: &Net,
    store: &Store,
    check: Check,
    t: &CType,
    at: u32,
) -> Gate
    requires store { locations_top store.now.locations.items ≤ length net.now }
    ensures { IsTest net.now store.now.locations.items
        (λ ps. fails_at check (laid.layout_of places.now) (type t.now) ps at) result.at }
{
    match check {
        Check::Null => net.constant(false),
        Check::Reach => net.constant(is_stub_at(places, at)),
        Check::Freed => store.flag_anywhere(net, root_of(places, at), Flag::Freed),
        Check::Type => net.constant(!has_type(places, at, t)),
    }
}

// Holds where the target fails the check.
fn target_fails(
    places: &Places,
    net: &Net,
    store: &Store,
    check: Check,
    t: &CType,
    target: u32,
) -> Gate
    requires store { locations_top store.now.locations.items ≤ length net.now }
    ensures { IsTest net.now store.now.locations.items
        (λ ps. fails check (laid.layout_of places.now) (type t.now) ps target) result.at }
{
    if target == 0 {
        net.constant(is_null_check(check))
    } else {
        location_fails(places, net, store, check, t, target - 1)
    }
}

// For each pair the gate that holds where its target fails the check.
fn tests_of(
    places: &Places,
    net: &Net,
    store: &Store,
    check: Check,
    t: &CType,
    pairs: &[Pair],
) -> Result<Vec<Gate>, OutOfMemory>
    requires store { locations_top store.now.locations.items ≤ length net.now }
    ensures { IfOk result (λ r. HaveTests net.now store.now.locations.items
        (λ ps target. fails check (laid.layout_of places.now) (type t.now) ps target) pairs.now r.items) }
{
    let mut tests = Vec::new(net.alloc());
    for pair in pairs {
        let test = target_fails(places, net, store, check, t, pair.target);
        tests.push(test)?;
    }
    Ok(tests)
}

/// Sets the run aside where it goes on and the target of the pointer fails the check.
pub fn check_target(
    places: &Places,
    net: &mut Net,
    store: &Store,
    ends: &mut Ends,
    check: Check,
    t: &CType,
    pointer: &Set,
) -> Result<(), OutOfMemory>
    requires store { locations_top store.now.locations.items ≤ length net.old }
    requires ends { AreEnds net.old ends.old }
    requires pointer { guards_top pointer.now.pairs.items ≤ length net.old }
    ensures grown { Grown net.old net.new }
    ensures ready { OnOk result (AreEnds net.new ends.new) }
    ensures locations { length ends.new.bads.items ≡ length ends.old.bads.items }
    ensures ok { OnOk result (DoesCheck net.new (laid.layout_of places.now) (type t.now)
        store.now.locations.items check pointer.now.pairs.items ends.old ends.new) }
{
    let tests = tests_of(places, net, store, check, t, pointer.pairs.as_slice())?;
    let when = where_target(net, pointer, tests.as_slice())?;
    ends.end_where(net, when, reason_of(check))?;
    Ok(())
}
