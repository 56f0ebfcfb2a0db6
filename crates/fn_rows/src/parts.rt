// What rows are made of.

ghost use Rattle.std.specs.Prelude.{◌≡◌, ◌≤◌, ◌^◌, ◌||◌, IfOk};
ghost use Rattle.std.specs.List.{range_with_len};
ghost use Rattle.sc_world.specs.Tree as tree;
ghost use Rattle.sc_world.specs.Verdict as spec;
ghost use Rattle.sc_world.specs.World.{states};
ghost use Rattle.sc_gather.specs.Seen as seen;
ghost use Rattle.fn_rows.specs.Parts.{AreParts};

use crate::locations::numbers;
use crate::params::{entry_bits, is_scalar};
use sc_base::OutOfMemory;
use sc_gather::{Context, is_pointer};
use std::alloc::Global;
use sum_rows::{Gives, State};

/// What rows are made of, each in the order of rows.
#[derive(Drop)]
pub struct Parts {
    /// The numbers that the entry bits may be.
    pub givens: &'static [u8],
    /// The states of the machine.
    pub states: Vec<State>,
    /// The results that the function may give.
    pub results: &'static [Gives],
}

// The numbers of so many bits.
fn numbers_of_bits(bits: u8) -> &'static [u8]
    requires { bits ≤ 3 }
    ensures { result.now ≡ range_with_len 0 (2 ^ bits) }
{
    match bits {
        0 => &[0],
        1 => &[0, 1],
        2 => &[0, 1, 2, 3],
        _ => &[0, 1, 2, 3, 4, 5, 6, 7],
    }
}

// The states of the machine.
#[tactic(auto, unfolding(sc_gather::specs::Seen::source_of, sc_world::specs::Programs::source_by))]
fn machine_states(alloc: Global, here: &Context) -> Result<Vec<State>, OutOfMemory>
    ensures { IfOk result (λ ss. ss.items ≡ spec.machine_states (seen.source_of here.now)) }
{
    let count = numbers(alloc, here.machine.states())?;
    let mut states = Vec::new(alloc);
    for n in &count {
        states.push(State::At(*n))?;
    }
    Ok(states)
}

// Whether the function gives an integer or a pointer.
#[tactic(auto, unfolding(sc_gather::specs::Seen::source_of, sc_world::specs::Programs::source_by))]
fn gives_scalar(here: &Context) -> bool
    ensures { result ≡ (tree.is_integer (seen.source_of here.now).result || tree.is_pointer (seen.source_of here.now).result) }
{
    match here.function() {
        None => false,
        Some(function) => is_scalar(&function.result),
    }
}

/// Whether the function gives a pointer.
#[tactic(auto, unfolding(sc_gather::specs::Seen::source_of, sc_world::specs::Programs::source_by))]
pub(crate) fn gives_pointer(here: &Context) -> bool
    ensures { result ≡ tree.is_pointer (seen.source_of here.now).result }
{
    match here.function() {
        None => false,
        Some(function) => is_pointer(&function.result),
    }
}

fn results(here: &Context) -> &'static [Gives]
    ensures { result.now ≡ spec.results (seen.source_of here.now) }
{
    if gives_scalar(here) {
        &[Gives::Zero, Gives::NotZero]
    } else {
        &[Gives::Nothing]
    }
}

/// What the rows of a function are made of.
pub fn parts_of(alloc: Global, here: &Context) -> Result<Parts, OutOfMemory>
    ensures { IfOk result (λ parts. AreParts (seen.source_of here.now) parts) }
{
    let states = machine_states(alloc, here)?;
    Ok(Parts {
        givens: numbers_of_bits(entry_bits(here)),
        states,
        results: results(here),
    })
}
