//! What calls give by the choice: an allocation, and a call of which nothing is known.

ghost use Rattle.std.specs.Prelude.{◌≡◌, ℕ, ◌≤◌, true, false, length, IfOk};
ghost use Rattle.bit_net.specs.Circuit.{input_count};
ghost use Rattle.bit_net.specs.Runs.{Grown};
ghost use Rattle.gl_store.specs.Meets.{locations_top};
ghost use Rattle.gate_runs.specs.Stands.{AreEnds};
ghost use Rattle.sc_world.specs.Tree.{is_integer, is_pointer};
ghost use Rattle.sc_world.specs.View.{type};
ghost use Rattle.layout_base.specs.Seen as laid;
ghost use Rattle.run_world.specs.Seen as seen;
ghost use Rattle.gate_acts.specs.Acts.{IsPointer};
ghost use Rattle.gate_objects.specs.Escapes.{AreBelow};
ghost use Rattle.gate_objects.specs.Given.{DoesAllocate, DoesGive, DoesUnknown};

use crate::escapes::{escape_all, escape_target};
use crate::marks::mark_target;
use bit_net::{Net, OutOfMemory};
use gate_acts::{chosen_bit, chosen_number};
use gate_runs::Ends;
use gl_sets::{Set, join};
use gl_store::{Flag, Store, Val};
use layout_base::Occurrence;
use run_entry::integer_bits;
use run_world::Here;
use sc_gather::{is_integer, is_pointer};
use sc_tree::ctype::CType;

// The pointer that a bit of the choice gives: to the object where the bit is set, else null. No memory has room for 2^32 locations.
#[tactic(auto, using(crate::proofs::Giving::object_none))]
fn chosen_object(
    here: &Here,
    net: &mut Net,
    bit: u32,
    object: Option<u32>,
) -> Result<Set, OutOfMemory>
    requires inputs { (seen.env here.now).layout.bits ≤ input_count net.old }
    ensures grown { Grown net.old net.new }
    ensures ok { IfOk result (λ r. IsPointer (seen.env here.now).layout net.new bit object r.pairs.items) }
{
    let null = Set::one(net, 0);
    match object {
        None => Ok(null),
        Some(at) => {
            let Some(target) = at.checked_add(1) else {
                return Err(OutOfMemory);
            };
            let there = Set::one(net, target);
            let chosen = chosen_bit(here, net, bit as usize);
            let made = join(net, chosen, &there, &null)?;
            Ok(made)
        }
    }
}

/// Allocation: the object of the call, which is marked where the run goes on, or null, by the choice. After a refusal of memory the store
/// may be marked in part, and is not to be used again.
pub fn allocate(
    here: &Here,
    net: &mut Net,
    stored: &mut Store,
    ends: &Ends,
    occurrence: Occurrence,
) -> Result<Val, OutOfMemory>
    requires inputs { (seen.env here.now).layout.bits ≤ input_count net.old }
    requires store { locations_top stored.old.locations.items ≤ length net.old }
    requires ends { AreEnds net.old ends.now }
    ensures grown { Grown net.old net.new }
    ensures ok { IfOk result (λ r. DoesAllocate (seen.env here.now).layout net.new ends.now (laid.occurrence_of occurrence)
        stored.old.locations.items stored.new.locations.items r) }
{
    let object = chosen_object(here, net, occurrence.bit, occurrence.object)?;
    mark_target(net, stored, ends, Flag::Allocated, &object)?;
    Ok(Val::Set(object))
}

// The number that the choice gives.
fn given_number(
    here: &Here,
    net: &mut Net,
    stored: &Store,
    ends: &Ends,
    occurrence: Occurrence,
    t: &CType,
) -> Result<Val, OutOfMemory>
    requires integer { is_integer (type t.now) ≡ true }
    requires inputs { (seen.env here.now).layout.bits ≤ input_count net.old }
    requires store { locations_top stored.now.locations.items ≤ length net.old }
    ensures grown { Grown net.old net.new }
    ensures ok { IfOk result (λ r. DoesGive (seen.env here.now).source (seen.env here.now).layout net.new ends.now
        (laid.occurrence_of occurrence) (type t.now) stored.now.locations.items stored.now.locations.items r) }
{
    let word = chosen_number(here, net, occurrence.bit, integer_bits(here, t))?;
    Ok(Val::Word(word))
}

// The pointer that the choice gives, whose object escapes.
fn given_pointer(
    here: &Here,
    net: &mut Net,
    stored: &mut Store,
    ends: &Ends,
    occurrence: Occurrence,
    t: &CType,
) -> Result<Val, OutOfMemory>
    requires pointer { is_pointer (type t.now) ≡ true }
    requires inputs { (seen.env here.now).layout.bits ≤ input_count net.old }
    requires store { locations_top stored.old.locations.items ≤ length net.old }
    requires ends { AreEnds net.old ends.now }
    ensures grown { Grown net.old net.new }
    ensures ok { IfOk result (λ r. DoesGive (seen.env here.now).source (seen.env here.now).layout net.new ends.now
        (laid.occurrence_of occurrence) (type t.now) stored.old.locations.items stored.new.locations.items r) }
{
    let object = chosen_object(here, net, occurrence.bit, occurrence.object)?;
    escape_target(here, net, stored, ends, &object)?;
    Ok(Val::Set(object))
}

// What a call gives of which nothing is known.
#[tactic(auto, using(crate::proofs::Giving::given_none))]
fn given(
    here: &Here,
    net: &mut Net,
    stored: &mut Store,
    ends: &Ends,
    occurrence: Occurrence,
    t: &CType,
) -> Result<Val, OutOfMemory>
    requires inputs { (seen.env here.now).layout.bits ≤ input_count net.old }
    requires store { locations_top stored.old.locations.items ≤ length net.old }
    requires ends { AreEnds net.old ends.now }
    ensures grown { Grown net.old net.new }
    ensures ok { IfOk result (λ r. DoesGive (seen.env here.now).source (seen.env here.now).layout net.new ends.now
        (laid.occurrence_of occurrence) (type t.now) stored.old.locations.items stored.new.locations.items r) }
{
    if is_integer(t) {
        given_number(here, net, stored, ends, occurrence, t)
    } else if is_pointer(t) {
        given_pointer(here, net, stored, ends, occurrence, t)
    } else {
        Ok(Val::Unit)
    }
}

/// A call of which nothing is known: the objects of its arguments escape where the run goes on, and the choice says what it gives: a number
/// of the width of its type; an object, which escapes too, or null; or nothing. After a refusal of memory the store may be marked in part,
/// and is not to be used again.
pub fn unknown(
    here: &Here,
    net: &mut Net,
    stored: &mut Store,
    ends: &Ends,
    occurrence: Occurrence,
    t: &CType,
    vals: &[Val],
) -> Result<Val, OutOfMemory>
    requires inputs { (seen.env here.now).layout.bits ≤ input_count net.old }
    requires store { locations_top stored.old.locations.items ≤ length net.old }
    requires ends { AreEnds net.old ends.now }
    requires vals { AreBelow net.old vals.now }
    ensures grown { Grown net.old net.new }
    ensures ok { IfOk result (λ r. DoesUnknown (seen.env here.now).source (seen.env here.now).layout net.new ends.now
        (laid.occurrence_of occurrence) (type t.now) vals.now stored.old.locations.items stored.new.locations.items r) }
{
    escape_all(here, net, stored, ends, vals)?;
    let r = given(here, net, stored, ends, occurrence, t)?;
    Ok(r)
}
