//! What operations and tries take and give.

ghost use Rattle.std.specs.Prelude.{◌≡◌, ℕ, ◌+◌, ◌<◌, ◌≤◌, length, IfOk};
ghost use Rattle.gl_store.specs.Meets.{val_top};
ghost use Rattle.sc_world.specs.View.{type};
ghost use Rattle.run_world.specs.Seen as seen;
ghost use Rattle.gate_acts.specs.Acts.{IsPointerOf, IsZero};

use bit_net::{Net, OutOfMemory};
use bit_words::constant;
use gl_sets::Set;
use gl_store::Val;
use run_entry::integer_bits;
use run_world::Here;
use sc_gather::is_integer;
use sc_tree::ctype::CType;

/// The pointer that a value is; null where it is no pointer.
pub fn pointer_of(net: &Net, val: &Val) -> Result<Set, OutOfMemory>
    requires { val_top val.now ≤ length net.now }
    ensures { IfOk result (λ r. IsPointerOf net.now val.now r.pairs.items) }
{
    match val {
        Val::Set(set) => {
            let same = set.try_clone(net)?;
            Ok(same)
        }
        Val::Word(_) => Ok(Set::one(net, 0)),
        Val::Unit => Ok(Set::one(net, 0)),
    }
}

// What an operation gives: 0 of an integer type, nothing of another one.
pub fn zero_of(here: &Here, net: &Net, t: &CType) -> Result<Val, OutOfMemory>
    ensures { IfOk result (λ r. IsZero (seen.env here.now).source net.now (type t.now) r) }
{
    if is_integer(t) {
        let word = constant(net, 0, integer_bits(here, t) as usize)?;
        Ok(Val::Word(word))
    } else {
        Ok(Val::Unit)
    }
}

/// The place of the state of a location in the store.
#[tactic(auto, unfolding(run_world::specs::Seen::env, layout_base::specs::Seen::layout_of))]
pub fn state_cell(here: &Here, at: u32) -> usize
    ensures { result ≡ length (seen.env here.now).layout.locations + at }
{
    here.places.locations.as_slice().len() + at as usize
}
