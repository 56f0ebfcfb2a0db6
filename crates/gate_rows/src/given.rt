// What a known call gives, by the choice.

ghost use Rattle.std.specs.Prelude.{◌≡◌, ℕ, ◌≤◌, true, length, IfOk};
ghost use Rattle.bit_net.specs.Circuit.{input_count};
ghost use Rattle.bit_net.specs.Runs.{Grown};
ghost use Rattle.sc_world.specs.Tree.{is_integer, is_pointer};
ghost use Rattle.sc_world.specs.View.{type};
ghost use Rattle.layout_base.specs.Seen as laid;
ghost use Rattle.run_world.specs.Seen as seen;
ghost use Rattle.gate_rows.specs.Given.{IsGiven, IsPointerTo};

use crate::sought::Outcome;
use bit_net::{Net, OutOfMemory};
use bit_words::{Word, is_number, is_zero};
use gate_objects::chosen_number;
use gl_sets::{Set, join};
use gl_store::Val;
use layout_base::Occurrence;
use run_entry::integer_bits;
use run_world::Here;
use sc_gather::{is_integer, is_pointer};
use sc_tree::ctype::CType;

/// What a known call gives, as gates.
#[derive(Drop)]
pub struct Given {
    pub val: Val,
    /// The result in the rows.
    pub outcome: Outcome,
    /// Of a pointer, the bits of the choice that say what it is.
    pub kind: Option<Word>,
}

// The pointer to an object; null where there is none. No memory has room for 2^32 locations.
#[tactic(auto, using(crate::proofs::Giving::to_none, crate::proofs::Giving::to_some))]
fn pointer_to(net: &Net, object: Option<u32>) -> Result<Set, OutOfMemory>
    ensures { IfOk result (λ r. IsPointerTo net.now object r.pairs.items) }
{
    match object {
        None => Ok(Set::one(net, 0)),
        Some(at) => {
            let Some(target) = at.checked_add(1) else {
                return Err(OutOfMemory);
            };
            Ok(Set::one(net, target))
        }
    }
}

// The number that the choice gives.
fn given_number(
    here: &Here,
    net: &mut Net,
    occurrence: Occurrence,
    t: &CType,
) -> Result<Given, OutOfMemory>
    requires integer { is_integer (type t.now) ≡ true }
    requires inputs { (seen.env here.now).layout.bits ≤ input_count net.old }
    ensures grown { Grown net.old net.new }
    ensures ok { IfOk result (λ r. IsGiven (seen.env here.now).source (seen.env here.now).layout net.new
        (laid.occurrence_of occurrence) (type t.now) r) }
{
    let word = chosen_number(here, net, occurrence.bit, integer_bits(here, t))?;
    let zero = is_zero(net, &word)?;
    Ok(Given {
        val: Val::Word(word),
        outcome: Outcome::Zero(zero),
        kind: None,
    })
}

// The pointer that the choice gives.
fn given_pointer(
    here: &Here,
    net: &mut Net,
    occurrence: Occurrence,
    t: &CType,
) -> Result<Given, OutOfMemory>
    requires pointer { is_pointer (type t.now) ≡ true }
    requires inputs { (seen.env here.now).layout.bits ≤ input_count net.old }
    ensures grown { Grown net.old net.new }
    ensures ok { IfOk result (λ r. IsGiven (seen.env here.now).source (seen.env here.now).layout net.new
        (laid.occurrence_of occurrence) (type t.now) r) }
{
    let kind = chosen_number(here, net, occurrence.bit, 2)?;
    let null = is_number(net, &kind.bits, 0)?;
    let object = pointer_to(net, occurrence.object)?;
    let none = Set::one(net, 0);
    let made = join(net, null, &none, &object)?;
    Ok(Given {
        val: Val::Set(made),
        outcome: Outcome::Zero(null),
        kind: Some(kind),
    })
}

/// What a known call gives by the choice: a number of the width of its type; null, a fresh pointer or another one; or nothing.
#[tactic(auto, using(crate::proofs::Giving::nothing_given))]
pub fn given_by(
    here: &Here,
    net: &mut Net,
    occurrence: Occurrence,
    t: &CType,
) -> Result<Given, OutOfMemory>
    requires inputs { (seen.env here.now).layout.bits ≤ input_count net.old }
    ensures grown { Grown net.old net.new }
    ensures ok { IfOk result (λ r. IsGiven (seen.env here.now).source (seen.env here.now).layout net.new
        (laid.occurrence_of occurrence) (type t.now) r) }
{
    if is_integer(t) {
        given_number(here, net, occurrence, t)
    } else if is_pointer(t) {
        given_pointer(here, net, occurrence, t)
    } else {
        Ok(Given {
            val: Val::Unit,
            outcome: Outcome::Nothing,
            kind: None,
        })
    }
}
