// What the gates of a function tell of the run on one choice.

use bit_net::Gate;
use flow_ends::{Encoded, Fates};
use gl_sets::Set;
use gl_store::{Flags, Location, Val};
use run_world::{Marks, Slot, Value};
use sc_interp::Outcome;

// The value of a gate; none of what is no gate of the net.
fn holds(values: &[bool], gate: Gate) -> Option<bool> {
    values.get(gate.at).copied()
}

// The number that a word spells, the high bit first.
fn number_of(values: &[bool], bits: &[Gate]) -> Option<Value> {
    let mut number = 0u64;
    for bit in bits {
        number = number
            .wrapping_mul(2)
            .wrapping_add(u64::from(holds(values, *bit)?));
    }
    Some(Value::Number(u32::try_from(bits.len()).ok()?, number))
}

// The one target whose guard holds; none where there is no such target, or another one.
fn pointer_of(values: &[bool], set: &Set) -> Option<Value> {
    let mut found = None;
    for pair in set.pairs.as_slice() {
        if holds(values, pair.guard)? {
            if found.is_some() {
                return None;
            }
            found = Some(Value::Pointer(pair.target.checked_sub(1)));
        }
    }
    found
}

/// The value that the gates of a cell have.
pub fn value_of(values: &[bool], val: &Val) -> Option<Value> {
    match val {
        Val::Word(word) => number_of(values, word.bits.as_slice()),
        Val::Set(set) => pointer_of(values, set),
        Val::Unit => Some(Value::Nothing),
    }
}

fn marks_of(values: &[bool], flags: &Flags) -> Option<Marks> {
    Some(Marks {
        touched: holds(values, flags.touched)?,
        written: holds(values, flags.written)?,
        allocated: holds(values, flags.allocated)?,
        freed: holds(values, flags.freed)?,
        escaped: holds(values, flags.escaped)?,
    })
}

fn slot_of(values: &[bool], location: &Location) -> Option<Slot> {
    Some(Slot {
        value: value_of(values, &location.val)?,
        marks: marks_of(values, &location.flags)?,
    })
}

// Whether the gates have the store of a run: cells, states behind them, and what happened to each.
fn are_slots(values: &[bool], locations: &[Location], slots: &[Slot]) -> bool {
    if locations.len() != slots.len() {
        return false;
    }
    for (location, slot) in locations.iter().zip(slots) {
        if slot_of(values, location) != Some(*slot) {
            return false;
        }
    }
    true
}

/// How many of these gates hold, and the last of them.
pub fn which_hold(values: &[bool], gates: &[Gate]) -> Option<(usize, usize)> {
    let mut count = 0usize;
    let mut last = 0usize;
    for k in 0..gates.len() {
        if holds(values, gates[k])? {
            count = count.saturating_add(1);
            last = k;
        }
    }
    Some((count, last))
}

// Whether the gates tell of a location that a step ended the run, which had touched it then.
fn is_touched(values: &[bool], fates: &Fates, touched: Gate) -> Option<bool> {
    Some(holds(values, fates.stopped)? && holds(values, touched)?)
}

// Whether the gates tell which locations a run has touched that a step ended.
fn are_touched(values: &[bool], fates: &Fates, slots: &[Slot]) -> bool {
    for (gate, slot) in fates.touched.as_slice().iter().zip(slots) {
        if is_touched(values, fates, *gate) != Some(slot.marks.touched) {
            return false;
        }
    }
    true
}

// Whether no run ended before the function does, nor at a location.
fn none_ended(values: &[bool], fates: &Fates) -> bool {
    holds(values, fates.over) == Some(false)
        && holds(values, fates.stopped) == Some(false)
        && which_hold(values, fates.bads.as_slice()) == Some((0, 0))
}

// Whether the run ended by an error at that location and at no other.
fn erred_at(values: &[bool], fates: &Fates, at: u32, slots: &[Slot]) -> bool {
    holds(values, fates.over) == Some(true)
        && which_hold(values, fates.bads.as_slice()) == Some((1, at as usize))
        && are_touched(values, fates, slots)
}

// Whether the run was set aside.
fn was_set_aside(values: &[bool], fates: &Fates) -> bool {
    holds(values, fates.over) == Some(true)
        && which_hold(values, fates.bads.as_slice()) == Some((0, 0))
}

/// Whether the gates tell how a run ended; and where it came to the function's end, what it gave and its store.
pub fn tells(values: &[bool], encoded: &Encoded, outcome: Outcome, slots: &[Slot]) -> bool {
    match outcome {
        Outcome::Exit(given) => {
            none_ended(values, &encoded.fates)
                && value_of(values, &encoded.result) == Some(given)
                && are_slots(values, encoded.store.locations.as_slice(), slots)
        }
        Outcome::Error(at) | Outcome::Inner(at) => erred_at(values, &encoded.fates, at, slots),
        Outcome::Aside(_) => was_set_aside(values, &encoded.fates),
    }
}
