// The state of a location before a known call changes it.

ghost use Rattle.std.specs.Prelude.{◌≡◌, ℕ, ◌+◌, ◌-◌, ◌<◌, ◌≤◌, if◌then◌else◌, length, IfOk};
ghost use Rattle.bit_net.specs.Runs.{Grown};
ghost use Rattle.bit_words.specs.Number.{number, top};
ghost use Rattle.bit_words.specs.Spells.{Spells};
ghost use Rattle.gl_sets.specs.Guards.{guards_top};
ghost use Rattle.gl_store.specs.Meets.{locations_top};
ghost use Rattle.run_world.specs.Seen as seen;
ghost use Rattle.gate_states.specs.States.{HasStateWhere, HasStates, IsStateBefore};

use bit_net::{Gate, Net, OutOfMemory};
use bit_words::{Word, constant, select};
use gl_sets::{Pair, Set};
use gl_store::Store;
use run_world::Here;

/// The place of the state of a location in the store.
#[tactic(auto, unfolding(run_world::specs::Seen::env, layout_base::specs::Seen::layout_of))]
pub fn state_cell(here: &Here, at: u32) -> usize
    ensures { result ≡ length (seen.env here.now).layout.locations + at }
{
    here.places.locations.as_slice().len() + at as usize
}

// The word with the number that the bits spell, of at least so many bits.
fn widened(net: &Net, bits: &[Gate], width: usize) -> Result<Word, OutOfMemory>
    requires { top bits.now ≤ length net.now }
    ensures { IfOk result (λ r. Spells net.now r.bits.items (width - length bits.now + length bits.now) (λ v. number v bits.now)) }
{
    let mut wide = constant(net, 0, width.saturating_sub(bits.len()))?;
    wide.bits.extend_from_slice(bits)?;
    Ok(wide)
}

// The word with the number of `a` where `c` holds, else with that of `b`.
fn chosen(net: &mut Net, c: Gate, a: &[Gate], b: &[Gate]) -> Result<Word, OutOfMemory>
    requires c { c.at < length net.old }
    requires a { top a.now ≤ length net.old }
    requires b { top b.now ≤ length net.old }
    ensures grown { Grown net.old net.new }
    ensures ok { IfOk result (λ r. Spells net.new r.bits.items (length a.now - length b.now + length b.now)
        (λ v. if v c.at then number v a.now else number v b.now)) }
{
    let long = widened(net, a, b.len())?;
    let other = widened(net, b, a.len())?;
    let r = select(net, c, &long, &other)?;
    Ok(r)
}

// The state of some location of a set; no bits where it has none.
fn first_state(here: &Here, net: &Net, store: &Store, pairs: &[Pair]) -> Result<Word, OutOfMemory>
    requires store { locations_top store.now.locations.items ≤ length net.now }
    ensures { IfOk result (λ r. top r.bits.items ≤ length net.now) }
{
    for pair in pairs {
        if pair.target != 0 {
            let word = widened(net, store.word_at(state_cell(here, pair.target - 1)), 0)?;
            return Ok(word);
        }
    }
    let none = constant(net, 0, 0)?;
    Ok(none)
}

// The state of the location of a pair where its guard holds, else the state that there is.
#[tactic(auto, using(crate::proofs::Reading::null_where))]
fn state_where(
    here: &Here,
    net: &mut Net,
    store: &Store,
    pair: Pair,
    state: &Word,
) -> Result<Word, OutOfMemory>
    requires store { locations_top store.now.locations.items ≤ length net.old }
    requires guard { pair.guard.at < length net.old }
    requires state { top state.now.bits.items ≤ length net.old }
    ensures grown { Grown net.old net.new }
    ensures ok { IfOk result (λ r. HasStateWhere (seen.env here.now).layout net.new store.now.locations.items
        pair state.now.bits.items r.bits.items) }
{
    if pair.target == 0 {
        let same = state.try_clone(net)?;
        return Ok(same);
    }
    let bits = store.word_at(state_cell(here, pair.target - 1));
    let r = chosen(net, pair.guard, bits, &state.bits)?;
    Ok(r)
}

// The state of the location of the pair whose guard holds.
fn state_of(here: &Here, net: &mut Net, store: &Store, pairs: &[Pair]) -> Result<Word, OutOfMemory>
    requires store { locations_top store.now.locations.items ≤ length net.old }
    requires pairs { guards_top pairs.now ≤ length net.old }
    ensures grown { Grown net.old net.new }
    ensures ok { IfOk result (λ r. HasStates (seen.env here.now).layout net.new store.now.locations.items pairs.now r.bits.items) }
{
    let mut state = first_state(here, net, store, pairs)?;
    for pair in pairs {
        let next = state_where(here, net, store, *pair, &state)?;
        state = next;
    }
    Ok(state)
}

/// The state of the location to which a set points, as a word; where the set points to no location any word. A set with one location
/// takes no gate.
pub fn state_before(
    here: &Here,
    net: &mut Net,
    store: &Store,
    at: &Set,
) -> Result<Word, OutOfMemory>
    requires store { locations_top store.now.locations.items ≤ length net.old }
    requires at { guards_top at.now.pairs.items ≤ length net.old }
    ensures grown { Grown net.old net.new }
    ensures ok { IfOk result (λ r. IsStateBefore (seen.env here.now).layout net.new store.now.locations.items
        at.now.pairs.items r.bits.items) }
{
    let state = state_of(here, net, store, at.pairs.as_slice())?;
    Ok(state)
}
