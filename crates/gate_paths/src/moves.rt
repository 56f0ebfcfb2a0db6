// Where the targets of a set go, by the layout alone. Targets that go to one place share a guard.

ghost use Rattle.std.specs.Prelude.{◌≡◌, ℕ, ◌≤◌, length, map, IfOk};
ghost use Rattle.bit_net.specs.Runs.{Grown};
ghost use Rattle.gl_sets.specs.Guards.{guards_top, targets_of};
ghost use Rattle.layout_base.specs.Seen as laid;
ghost use Rattle.gate_paths.specs.Targets.{Goes, found_target, gone as gone_to, led_to as leads_to};

use bit_net::{Net, OutOfMemory};
use gl_sets::{Pair, Set, moved};
use layout_lookup::{Lookup, is_pointer_cell, is_stub};
use std::alloc::Global;
use sum_rows::Step;

/// Where the locations of a set go.
#[derive(Clone, Copy)]
pub enum Move {
    /// Only pointer cells stay.
    Cell,
    /// Stubs are left out.
    Real,
    /// To a part.
    Part(Step),
}

// The location to which another one goes.
fn led_to(layout: &Lookup, by: Move, at: u32) -> Option<u32>
    ensures { result ≡ leads_to (laid.layout_of layout.now.places.now) by at }
{
    match by {
        Move::Cell => {
            if is_pointer_cell(layout.places.location(at)) {
                Some(at)
            } else {
                None
            }
        }
        Move::Real => {
            if is_stub(layout.places.location(at)) {
                None
            } else {
                Some(at)
            }
        }
        Move::Part(step) => layout.part(at, step),
    }
}

/// The target of what was found; 0 of nothing. No memory has room for 2^32 locations.
pub fn target_of(found: Option<u32>) -> Result<u32, OutOfMemory>
    ensures { IfOk result (λ r. r ≡ found_target found) }
{
    match found {
        None => Ok(0),
        Some(at) => {
            let Some(target) = at.checked_add(1) else {
                return Err(OutOfMemory);
            };
            Ok(target)
        }
    }
}

// Where a target goes. What is missing stays missing.
fn gone(layout: &Lookup, by: Move, target: u32) -> Result<u32, OutOfMemory>
    ensures { IfOk result (λ r. r ≡ gone_to (laid.layout_of layout.now.places.now) by target) }
{
    if target == 0 {
        return Ok(0);
    }
    let r = target_of(led_to(layout, by, target - 1))?;
    Ok(r)
}

// Where the target of each pair goes.
fn targets(
    layout: &Lookup,
    alloc: Global,
    by: Move,
    pairs: &[Pair],
) -> Result<Vec<u32>, OutOfMemory>
    ensures { IfOk result (λ r. map (λ t. gone_to (laid.layout_of layout.now.places.now) by t)
        (targets_of pairs.now) ≡ r.items) }
{
    let mut made = Vec::new(alloc);
    for pair in pairs {
        let target = gone(layout, by, pair.target)?;
        made.push(target)?;
    }
    Ok(made)
}

/// The set of where the targets of a set go.
pub fn go(layout: &Lookup, net: &mut Net, by: Move, from: &Set) -> Result<Set, OutOfMemory>
    requires from { guards_top from.now.pairs.items ≤ length net.old }
    ensures grown { Grown net.old net.new }
    ensures ok { IfOk result (λ r. Goes net.new (laid.layout_of layout.now.places.now) by from.now.pairs.items r.pairs.items) }
{
    let ways = targets(layout, net.alloc(), by, from.pairs.as_slice())?;
    let made = moved(net, from, ways.as_slice())?;
    Ok(made)
}
