//! The states of locations at entry.

ghost use Rattle.std.specs.Prelude.{◌≡◌, ◌<◌, ◌≤◌, length, IfOk};
ghost use Rattle.bit_net.specs.Circuit.{input_count};
ghost use Rattle.bit_net.specs.Runs.{Grown};
ghost use Rattle.bit_words.specs.Number.{number, top};
ghost use Rattle.bit_words.specs.Spells.{Spells};
ghost use Rattle.fsm_spec.specs.Table.{bits_of_states, state_of_number};
ghost use Rattle.sc_world.specs.World as spec;
ghost use Rattle.layout_base.specs.Seen as laid;
ghost use Rattle.run_world.specs.Seen as seen;
ghost use Rattle.gate_entry.specs.Entry.{IsState};

use crate::bits::chosen_number;
use bit_net::{Net, OutOfMemory};
use bit_words::{Word, constant, convert, less_u, select};
use layout_base::Location;
use run_world::Here;

// Any state.
const ANY: u64 = 15;

// The number of bits of a state in the store.
const STATE_BITS: usize = 4;

// How many states the bits of a state tell apart at most.
const MOST: usize = 8;

// How many states there are.
#[tactic(auto, unfolding(run_world::specs::Seen::env, layout_base::specs::Seen::ground_of, sc_gather::specs::Seen::source_of, sc_world::specs::Programs::source_by))]
fn states(here: &Here) -> usize
    ensures { result ≡ spec.states (seen.env here.now).source }
{
    here.ground.here.machine.states()
}

// How many bits a state takes in the choice.
#[tactic(auto, using(crate::proofs::Naming::some_bits_of, crate::proofs::Naming::few_bits_of), unfolding(run_world::specs::Seen::env))]
fn state_bits(here: &Here) -> u32
    ensures value { result ≡ bits_of_states (spec.states (seen.env here.now).source) }
    ensures some { 0 < result }
    ensures few { result ≤ 3 }
{
    here.ground.state_bits()
}

/// The state that a number names, of so many states: the number itself, or the last of the states.
pub fn named_state(net: &mut Net, states: usize, name: &Word) -> Result<Word, OutOfMemory>
    requires some { 0 < length name.now.bits.items }
    requires few { length name.now.bits.items ≤ 3 }
    requires name { top name.now.bits.items ≤ length net.old }
    ensures grown { Grown net.old net.new }
    ensures ok { IfOk result (λ r. Spells net.new r.bits.items 4 (λ v. state_of_number states (number v name.now.bits.items))) }
{
    let wide = convert(net, name, false, STATE_BITS)?;
    if states >= MOST {
        return Ok(wide);
    }
    let count = constant(net, states as u64, STATE_BITS)?;
    let last = constant(net, (states as u64).saturating_sub(1), STATE_BITS)?;
    let known = less_u(net, &wide, &count)?;
    let state = select(net, known, &wide, &last)?;
    Ok(state)
}

/// The state of a location at entry: any where the choice gives none.
#[tactic(auto, using(crate::proofs::Naming::state_laws))]
pub fn entry_state(here: &Here, net: &mut Net, location: &Location) -> Result<Word, OutOfMemory>
    requires inputs { (seen.env here.now).layout.bits ≤ input_count net.old }
    ensures grown { Grown net.old net.new }
    ensures ok { IfOk result (λ r. IsState (seen.env here.now).source (seen.env here.now).layout
        net.new (laid.location_of location.now) r.bits.items) }
{
    match location.state {
        None => {
            let any = constant(net, ANY, STATE_BITS)?;
            Ok(any)
        }
        Some(at) => {
            let chosen = chosen_number(here, net, at, state_bits(here))?;
            let named = named_state(net, states(here), &chosen)?;
            Ok(named)
        }
    }
}
