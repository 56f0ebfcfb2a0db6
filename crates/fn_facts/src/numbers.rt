//! The entry bits as a number, and the states of locations.

ghost use Rattle.std.specs.Prelude.{◌≡◌, ◌≤◌, ◌<◌, ◌+◌, ◌∷◌, List, true, nat_eq, length, IfOk, OnOk};
ghost use Rattle.bit_net.specs.Runs.{Grown, Gives};
ghost use Rattle.bit_words.specs.Number.{number, top};
ghost use Rattle.fsm_spec.specs.Table as table;
ghost use Rattle.sc_world.specs.Known as known;
ghost use Rattle.sc_world.specs.World as worlds;
ghost use Rattle.sc_world.specs.View.{type};
ghost use Rattle.sum_rows.specs.declared.row.State.TheVariants as names;
ghost use Rattle.run_world.specs.Seen.{env};
ghost use Rattle.fn_facts.specs.Seen as seen;
ghost use Rattle.sc_world.specs.Tree.{Ty};
ghost use Rattle.fn_facts.specs.Showing.{BitsSoFar, IsReady, ShowsNumber, ShowsNumberAtExit};

use crate::around::{Around, count, location_at};
use crate::entry::is_given;
use bit_net::{Gate, Net, OutOfMemory};
use bit_words::{Word, constant, is_number};
use gate_entry::{chosen_number, named_state};
use run_world::Here;
use sc_gather::{is_integer, is_pointer};
use sc_typed::Param;
use sum_rows::State;

// Any state.
const ANY: u64 = 15;

// The number of bits of a state in the store.
const STATE_BITS: usize = 4;

// How many entry bits there are at most.
const MOST_BITS: usize = 3;

// Whether a parameter has a bit: it is an integer or a pointer.
fn has_bit(param: &Param) -> bool
    ensures { result ≡ seen.has_bit (type param.now.ctype) }
{
    is_integer(&param.ctype) || is_pointer(&param.ctype)
}

// The bit of a parameter that has one is read.
fn push_bit(around: &Around, net: &mut Net, bits: &mut Vec<Gate>, k: u32) -> Result<(), OutOfMemory>
    requires ready { IsReady around.now net.old }
    requires few { length bits.old.items < 3 }
    ensures grown { Grown net.old net.new }
    ensures ok { OnOk result ((y : Ty) (ts : List Ty) → seen.has_bit y ≡ true → BitsSoFar around.now net.old k (y ∷ ts) bits.old.items
        → BitsSoFar around.now net.new (k + 1) ts bits.new.items) }
{
    let bit = is_given(around, net, k)?;
    bits.push(bit)?;
    Ok(())
}

// The bit of a parameter is read, if it has one and one is left to read.
fn read_bit(
    around: &Around,
    net: &mut Net,
    bits: &mut Vec<Gate>,
    k: u32,
    param: &Param,
) -> Result<(), OutOfMemory>
    requires ready { IsReady around.now net.old }
    ensures grown { Grown net.old net.new }
    ensures ok { OnOk result ((ts : List Ty) → BitsSoFar around.now net.old k (type param.now.ctype ∷ ts) bits.old.items
        → BitsSoFar around.now net.new (k + 1) ts bits.new.items) }
{
    if bits.len() >= MOST_BITS {
        return Ok(());
    }
    if has_bit(param) {
        push_bit(around, net, bits, k)?;
        return Ok(());
    }
    Ok(())
}

/// The entry bits as a number, the first parameter's highest. No memory has room for 2^32 parameters.
pub fn entry_number(around: &Around, net: &mut Net) -> Result<Word, OutOfMemory>
    requires ready { IsReady around.now net.old }
    ensures grown { Grown net.old net.new }
    ensures ok { IfOk result (λ r. ShowsNumber around.now net.new seen.given r.bits.items) }
{
    let params = around.here.ground.params();
    if params.len() > u32::MAX as usize {
        return Err(OutOfMemory);
    }
    let mut bits = Vec::new(net.alloc());
    let mut k = 0;
    for param in params {
        read_bit(around, net, &mut bits, k, param)?;
        k += 1;
    }
    Ok(Word { bits })
}

// How many states there are.
#[tactic(auto, unfolding(run_world::specs::Seen::env, layout_base::specs::Seen::ground_of, sc_gather::specs::Seen::source_of, sc_world::specs::Programs::source_by))]
fn states(here: &Here) -> usize
    ensures { result ≡ worlds.states (env here.now).source }
{
    here.ground.here.machine.states()
}

// How many bits a state takes in the choice.
#[tactic(auto, using(crate::proofs::States::bits_laws), unfolding(run_world::specs::Seen::env))]
fn state_bits(here: &Here) -> u32
    ensures value { result ≡ table.bits_of_states (worlds.states (env here.now).source) }
    ensures some { 0 < result }
    ensures few { result ≤ 3 }
{
    here.ground.state_bits()
}

/// The state of a location at entry; 15 stands for any.
#[tactic(auto, using(crate::proofs::States::any_shown))]
pub fn state_before(around: &Around, net: &mut Net, at: u32) -> Result<Word, OutOfMemory>
    requires ready { IsReady around.now net.old }
    ensures grown { Grown net.old net.new }
    ensures ok { IfOk result (λ r. ShowsNumber around.now net.new (λ o. seen.state_before o at) r.bits.items) }
{
    match location_at(around, at).state {
        None => constant(net, ANY, STATE_BITS),
        Some(bit) => {
            let here = &around.here;
            let chosen = chosen_number(here, net, bit, state_bits(here))?;
            let named = named_state(net, states(here), &chosen)?;
            Ok(named)
        }
    }
}

/// The state of a location where the run comes to the function's end.
pub fn state_now<'f>(around: &Around<'_, '_, 'f>, net: &Net, at: u32) -> &'f [Gate]
    requires ready { IsReady around.now net.now }
    ensures { ShowsNumberAtExit around.now net.now (λ o. seen.state_now o at) result.now }
{
    around.encoded.store.word_at(count(around) + at as usize)
}

/// Holds where the bits spell this number.
pub fn number_is(net: &mut Net, bits: &[Gate], n: u8) -> Result<Gate, OutOfMemory>
    requires { top bits.now ≤ length net.old }
    ensures grown { Grown net.old net.new }
    ensures ok { IfOk result (λ r. Gives net.new r.at (λ choice v. nat_eq n (number v bits.now))) }
{
    is_number(net, bits, u64::from(n))
}

/// Holds where the bits spell the number of this state of the machine.
pub fn is_state(net: &mut Net, bits: &[Gate], state: State) -> Result<Gate, OutOfMemory>
    requires { top bits.now ≤ length net.old }
    ensures grown { Grown net.old net.new }
    ensures ok { IfOk result (λ r. Gives net.new r.at (λ choice v. known.same_state state (names.At (number v bits.now)))) }
{
    match state {
        State::At(n) => is_number(net, bits, u64::from(n)),
        State::Nil
        | State::Bad
        | State::Held
        | State::Escaped
        | State::Freed
        | State::Null
        | State::Fresh
        | State::Other
        | State::Same => Ok(net.constant(false)),
    }
}
