// What the choice of a run gave at entry.

ghost use Rattle.std.specs.Prelude.{◌≡◌, ◌+◌, ◌*◌, ◌≤◌, ◌<◌, ◌∷◌, List, IfOk};
ghost use Rattle.fsm_spec.specs.Table as table;
ghost use Rattle.sc_world.specs.Layout as layouts;
ghost use Rattle.sc_world.specs.Programs.{types_of};
ghost use Rattle.sc_world.specs.Shows as spec;
ghost use Rattle.sc_world.specs.Tree.{Ty};
ghost use Rattle.sc_world.specs.View.{type};
ghost use Rattle.sc_world.specs.World as worlds;
ghost use Rattle.layout_base.specs.Seen as laid;
ghost use Rattle.run_answers.specs.Seen as seen;

use crate::over::{Over, count, location_at};
use layout_base::Kind;
use run_entry::{bit_at, integer_bits, number_at};
use run_values::location_of;
use sc_base::OutOfMemory;
use sc_gather::{is_integer, is_pointer};
use sc_typed::Param;
use sc_world::Origin;

// Any state.
const ANY: u64 = 15;

// How many entry bits there are at most.
const MOST_BITS: u32 = 3;

// Whether the bits from that one on spell neither 0 nor null, as a location of that kind has them.
#[tactic(auto, unfolding(crate::specs::Seen::over, crate::specs::Seen::is_chosen, run_world::specs::Seen::env))]
fn is_chosen(over: &Over, of: Kind, bit: u32, own: Option<u32>) -> bool
    ensures { result ≡ seen.is_chosen (seen.over over.now) (laid.type_of of.entry) bit own }
{
    match of {
        Kind::Stub | Kind::Void => false,
        Kind::Of(t) => {
            if is_pointer(t) {
                bit_at(over.here.choice, bit as usize) && own.is_some()
            } else if is_integer(t) {
                let bits = integer_bits(&over.here, t);
                number_at(over.here.choice, bit, bits) != 0
            } else {
                false
            }
        }
    }
}

// Whether the cell of a location was neither 0 nor null.
#[tactic(auto, using(crate::proofs::Blanks::blank_steps))]
fn was_true(over: &Over, at: u32) -> bool
    ensures { result ≡ seen.was_true (seen.over over.now) at }
{
    let location = location_at(over, at);
    match location.bit {
        None => false,
        Some(bit) => is_chosen(over, location.kind, bit, location.target),
    }
}

// How many bits a state takes, of so many states.
fn state_bits(states: usize) -> u32
    ensures value { result ≡ table.bits_of_states states }
    ensures bound { result ≤ 64 }
{
    if states <= 2 {
        1
    } else if states <= 4 {
        2
    } else {
        3
    }
}

// The state that a number names, of so many states.
fn named_state(states: usize, number: u64) -> u64
    ensures { result ≡ table.state_of_number states number }
{
    let states = states as u64;
    if number < states {
        number
    } else {
        states.saturating_sub(1)
    }
}

// How many states there are.
#[tactic(auto, unfolding(crate::specs::Seen::over, run_world::specs::Seen::env, layout_base::specs::Seen::ground_of, sc_gather::specs::Seen::source_of, sc_world::specs::Programs::source_by))]
fn states(over: &Over) -> usize
    ensures { result ≡ worlds.states (seen.over over.now).source }
{
    over.here.ground.here.machine.states()
}

// The number that the choice spells from that bit on.
#[tactic(auto, unfolding(crate::specs::Seen::over, run_world::specs::Seen::env))]
fn chosen_number(over: &Over, bit: u32, width: u32) -> u64
    requires { width ≤ 64 }
    ensures { result ≡ worlds.number_at (seen.over over.now).choice bit width }
{
    number_at(over.here.choice, bit, width)
}

/// The number of the state of a location at entry; 15 stands for any.
#[tactic(auto, unfolding(crate::specs::Seen::state_before))]
pub fn state_before(over: &Over, at: u32) -> u64
    ensures { result ≡ seen.state_before (seen.over over.now) at }
{
    match location_at(over, at).state {
        None => ANY,
        Some(bit) => {
            let states = states(over);
            named_state(states, chosen_number(over, bit, state_bits(states)))
        }
    }
}

// The location of a parameter.
#[tactic(auto, unfolding(crate::specs::Seen::over, run_world::specs::Seen::env))]
fn param_location(over: &Over, n: u32) -> u32
    requires { seen.HasFew over.now }
    ensures { result ≡ spec.param_location (seen.over over.now) n }
{
    location_of(&over.here, Origin::Param(n))
}

/// Whether a parameter was neither 0 nor null.
#[tactic(auto, unfolding(crate::specs::Seen::is_given, crate::specs::Seen::was_true))]
pub fn is_given(over: &Over, n: u32) -> bool
    requires { seen.HasFew over.now }
    ensures { result ≡ seen.is_given (seen.over over.now) n }
{
    was_true(over, param_location(over, n))
}

/// What a parameter points to.
#[tactic(auto, unfolding(crate::specs::Seen::param_object))]
pub fn param_object(over: &Over, n: u32) -> u32
    requires { seen.HasFew over.now }
    ensures { result ≡ seen.param_object (seen.over over.now) n }
{
    match location_at(over, param_location(over, n)).target {
        None => 0,
        Some(at) => at,
    }
}

// The parameters of the function.
#[tactic(auto, unfolding(crate::specs::Seen::over, run_world::specs::Seen::env))]
fn params<'p>(over: &Over<'p, '_, '_>) -> &'p [Param]
    ensures { types_of result.now ≡ (seen.over over.now).source.params }
{
    over.here.ground.params()
}

// Whether a parameter has a bit: it is an integer or a pointer.
fn has_bit(param: &Param) -> bool
    ensures { result ≡ seen.has_bit (type param.now.ctype) }
{
    is_integer(&param.ctype) || is_pointer(&param.ctype)
}

// The bits that were read, as a number, and how many are left to read.
#[derive(Clone, Copy, Debug, PartialEq, Eq)]
struct Bits {
    number: u32,
    left: u32,
}

// A number with one more binary digit.
fn with_digit(number: u32, bit: bool) -> u32
    requires { number < 4 }
    ensures value { result ≡ 2 * number + worlds.digit bit }
    ensures bound { result < 2 * (number + 1) }
{
    if bit { 2 * number + 1 } else { 2 * number }
}

// The bit of a parameter is read, if it has one and one is left to read.
#[tactic(auto, using(crate::proofs::Bits::bit_steps))]
fn read_bit(over: &Over, bits: Bits, k: u32, param: &Param) -> Bits
    requires few { seen.HasFew over.now }
    requires left { bits.left ≤ 3 }
    requires number { bits.number < seen.size_of bits.left }
    ensures bits { (ts : List Ty) → seen.bits_from (seen.over over.now) result.number result.left (k + 1) ts
        ≡ seen.bits_from (seen.over over.now) bits.number bits.left k (type param.now.ctype ∷ ts) }
    ensures left { result.left ≤ 3 }
    ensures number { result.number < seen.size_of result.left }
{
    if bits.left == 0 || !has_bit(param) {
        return bits;
    }
    Bits {
        number: with_digit(bits.number, is_given(over, k)),
        left: bits.left - 1,
    }
}

/// The entry bits as a number, the first parameter's highest. No memory has room for 2^32 parameters.
#[tactic(auto, using(crate::proofs::Bits::bit_steps))]
pub fn given(over: &Over) -> Result<u32, OutOfMemory>
    requires { seen.HasFew over.now }
    ensures { IfOk result (λ n. n ≡ seen.given (seen.over over.now)) }
{
    let params = params(over);
    if params.len() > u32::MAX as usize {
        return Err(OutOfMemory);
    }
    let mut bits = Bits {
        number: 0,
        left: MOST_BITS,
    };
    let mut k = 0;
    for param in params {
        bits = read_bit(over, bits, k, param);
        k += 1;
    }
    Ok(bits.number)
}

// What a location is reached from.
fn origin_at(over: &Over, at: u32) -> Origin
    ensures { result ≡ (layouts.location (seen.over over.now).layout at).origin }
{
    location_at(over, at).origin
}

/// Whether no pointer on the path of a location was null.
#[tactic(auto, using(crate::proofs::Upward::upward_steps))]
pub fn is_met(over: &Over, at: u32) -> bool
    ensures { result ≡ seen.is_met (seen.over over.now) at }
{
    let mut up = at;
    for _ in 0..count(over) {
        match origin_at(over, up) {
            Origin::Target(cell) => {
                if !was_true(over, cell) {
                    return false;
                }
                up = cell;
            }
            Origin::Part(whole, _) => up = whole,
            Origin::Param(_)
            | Origin::Global(_)
            | Origin::Local(_)
            | Origin::Literal(_)
            | Origin::Function(_)
            | Origin::Call(_) => return true,
        }
    }
    true
}
