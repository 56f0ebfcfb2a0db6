//! The widths of cells, by their numbers.

ghost use Rattle.std.specs.Prelude.{◌≡◌, ℕ, Some, map, IfOk};
ghost use Rattle.sc_world.specs.View.{type};
ghost use Rattle.run_world.specs.Seen as seen;
ghost use Rattle.gate_copies.specs.Widths.{cell_width, leads_to_some, number_at, of_width, width_at, width_number};

use bit_net::OutOfMemory;
use layout_base::Kind;
use run_entry::integer_bits;
use run_world::Here;
use sc_gather::is_pointer;
use sc_tree::ctype::CType;
use std::alloc::Global;

/// The width with that number: those of integers, and that of a pointer's cell.
pub fn width_at(number: u32) -> u32
    ensures { result ≡ width_at number }
{
    match number {
        0 => 1,
        1 => 8,
        2 => 16,
        3 => 32,
        4 => 64,
        _ => 255,
    }
}

// The number of a width; 6 for what is no width of a cell.
fn width_number(width: u32) -> u32
    ensures { result ≡ width_number width }
{
    match width {
        1 => 0,
        8 => 1,
        16 => 2,
        32 => 3,
        64 => 4,
        255 => 5,
        _ => 6,
    }
}

// The width of a cell of that type, as stores have it: 0 where there is no cell.
fn cell_width(here: &Here, t: &CType) -> u32
    ensures { result ≡ cell_width (seen.env here.now).source (Some (type t.now)) }
{
    if is_pointer(t) {
        255
    } else {
        integer_bits(here, t)
    }
}

// The number of the width of a location's cell.
#[tactic(auto, unfolding(run_world::specs::Seen::env))]
fn number_at(here: &Here, at: u32) -> u32
    ensures { result ≡ number_at (seen.env here.now).source (seen.env here.now).layout at }
{
    let width = match here.places.location(at).kind {
        Kind::Stub | Kind::Void => 0,
        Kind::Of(t) => cell_width(here, t),
    };
    width_number(width)
}

// The target where its cell has that width, null where not.
fn if_of_width(here: &Here, number: u32, target: u32) -> u32
    ensures { result ≡ of_width (seen.env here.now).source (seen.env here.now).layout number target }
{
    if target > 0 && number_at(here, target - 1) == number {
        target
    } else {
        0
    }
}

/// Of the targets those whose cells have that width; null for the others.
pub fn of_width(
    here: &Here,
    alloc: Global,
    number: u32,
    targets: &[u32],
) -> Result<Vec<u32>, OutOfMemory>
    ensures { IfOk result (λ r. r.items
        ≡ map (λ target. of_width (seen.env here.now).source (seen.env here.now).layout number target) targets.now) }
{
    let mut made = Vec::new(alloc);
    for target in targets {
        let same = if_of_width(here, number, *target);
        made.push(same)?;
    }
    Ok(made)
}

/// Whether a target is not null.
pub fn leads_to_some(targets: &[u32]) -> bool
    ensures { result ≡ leads_to_some targets.now }
{
    targets.iter().any(|target| *target > 0)
}
