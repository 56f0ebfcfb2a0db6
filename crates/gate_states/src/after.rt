// The state of a location after a known call.

ghost use Rattle.std.specs.Prelude.{◌≡◌, ◌<◌, ◌≤◌, IfOk};
ghost use Rattle.bit_net.specs.Circuit.{input_count};
ghost use Rattle.bit_net.specs.Runs.{Grown};
ghost use Rattle.fsm_spec.specs.Table.{bits_of_states};
ghost use Rattle.sc_world.specs.World as spec;
ghost use Rattle.run_world.specs.Seen as seen;
ghost use Rattle.gate_states.specs.States.{IsStateAfter};

use bit_net::{Net, OutOfMemory};
use bit_words::Word;
use gate_entry::{chosen_number, named_state};
use run_world::Here;

/// How many states the machine has.
#[tactic(auto, unfolding(run_world::specs::Seen::env, layout_base::specs::Seen::ground_of, sc_gather::specs::Seen::source_of, sc_world::specs::Programs::source_by))]
pub fn states(here: &Here) -> usize
    ensures { result ≡ spec.states (seen.env here.now).source }
{
    here.ground.here.machine.states()
}

// How many bits a state takes in the choice.
#[tactic(auto, using(crate::proofs::Naming::some_bits, crate::proofs::Naming::few_bits), unfolding(run_world::specs::Seen::env))]
fn state_bits(here: &Here) -> u32
    ensures value { result ≡ bits_of_states (spec.states (seen.env here.now).source) }
    ensures some { 0 < result }
    ensures few { result ≤ 3 }
{
    here.ground.state_bits()
}

/// The state of a location after a call that the choice names, as a word of 4 bits: what the choice says of the location begins
/// with that bit. No layout has 2^32 bits.
pub fn state_after(here: &Here, net: &mut Net, bit: u32) -> Result<Word, OutOfMemory>
    requires inputs { (seen.env here.now).layout.bits ≤ input_count net.old }
    ensures grown { Grown net.old net.new }
    ensures ok { IfOk result (λ r. IsStateAfter (seen.env here.now).source (seen.env here.now).layout net.new bit r.bits.items) }
{
    let Some(at) = bit.checked_add(1) else {
        return Err(OutOfMemory);
    };
    let name = chosen_number(here, net, at, state_bits(here))?;
    let state = named_state(net, states(here), &name)?;
    Ok(state)
}
