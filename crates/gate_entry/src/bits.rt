//! Bits and numbers of the choice, as gates.

ghost use Rattle.std.specs.Prelude.{◌≤◌, IfOk};
ghost use Rattle.bit_net.specs.Circuit.{input_count};
ghost use Rattle.bit_net.specs.Runs.{Grown};
ghost use Rattle.run_world.specs.Seen as seen;
ghost use Rattle.gate_entry.specs.Entry.{IsBit, IsChosenNumber, IsNumber};

use bit_net::{Gate, Net, OutOfMemory};
use bit_words::{Word, is_number};
use run_world::Here;

/// The bit of the choice with that number, which is an input; the constant false beyond the bits of the layout.
#[tactic(auto, using(crate::proofs::Choosing::bit_within, crate::proofs::Choosing::bit_beyond), unfolding(run_world::specs::Seen::env))]
pub fn chosen_bit(here: &Here, net: &Net, k: usize) -> Gate
    requires inputs { (seen.env here.now).layout.bits ≤ input_count net.now }
    ensures { IsBit (seen.env here.now).layout net.now k result.at }
{
    if k < here.places.choice_len() {
        net.input(k)
    } else {
        net.constant(false)
    }
}

/// The number that so many bits of the choice from that one on spell, the high bit first.
pub fn chosen_number(here: &Here, net: &Net, at: u32, width: u32) -> Result<Word, OutOfMemory>
    requires inputs { (seen.env here.now).layout.bits ≤ input_count net.now }
    ensures { IfOk result (λ r. IsNumber (seen.env here.now).layout net.now at width r.bits.items) }
{
    let mut bits = Vec::new(net.alloc());
    for k in 0..width {
        let bit = chosen_bit(here, net, at as usize + k as usize);
        bits.push(bit)?;
    }
    Ok(Word { bits })
}

/// Holds where so many bits of the choice from that one on spell the number.
pub fn chosen_is(
    here: &Here,
    net: &mut Net,
    at: u32,
    width: u32,
    n: u64,
) -> Result<Gate, OutOfMemory>
    requires inputs { (seen.env here.now).layout.bits ≤ input_count net.old }
    ensures grown { Grown net.old net.new }
    ensures ok { IfOk result (λ r. IsChosenNumber (seen.env here.now).layout net.new at width n r.at) }
{
    let word = chosen_number(here, net, at, width)?;
    let same = is_number(net, &word.bits, n)?;
    Ok(same)
}
