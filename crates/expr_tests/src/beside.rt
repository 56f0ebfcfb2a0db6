// The gates of a body beside the runs of it.

ghost use Rattle.std.specs.Prelude.{◌≡◌, length, IfSome};
ghost use Rattle.bit_net.specs.Circuit.{input_count};
ghost use Rattle.layout_base.specs.Seen as laid;

use crate::body::{Gates, Made, gates_of};
use crate::generate::Numbers;
use crate::setting::{checked, context, laid_out, machine, nothing, reserved};
use bit_net::Gate;
use choice_search::step;
use gl_sets::Set;
use gl_store::{Flags, Location, Val};
use layout_base::{Ground, Places};
use layout_lookup::Lookup;
use run_world::{Here, Marks, Slot, Value};
use sc_interp::{Machine, Outcome};
use sc_tree::ctype::Widths;
use sc_typed::Program;
use sc_world::Reason;
use std::alloc::Global;

/// With at most so many bits a function is tried on all of its choices.
const MOST_BITS: usize = 12;

/// Else on so many.
const SOME_CHOICES: u64 = 256;

/// The reasons for which a run is set aside, in the order of their gates.
const REASONS: [Reason; 11] = [
    Reason::Null,
    Reason::Reach,
    Reason::Freed,
    Reason::Type,
    Reason::Index,
    Reason::Divide,
    Reason::Shift,
    Reason::Depth,
    Reason::Alias,
    Reason::NoRow,
    Reason::NoReturn,
];

/// What came of a function.
#[derive(Clone, Copy)]
pub struct Tally {
    /// On how many choices it was tried.
    pub choices: u64,
    /// On how many of them it comes to its end.
    pub exits: u64,
    /// How many gates were made for its expressions.
    pub gates: usize,
    /// How its run ends on the last choice.
    pub last: Option<Outcome>,
    /// How many targets the pointer has that its last expression gives; none where it gives another value.
    pub targets: usize,
}

// The value of a gate; none of what is no gate of the net.
fn holds(values: &[bool], gate: Gate) -> Option<bool> {
    values.get(gate.at).copied()
}

// The number that a word spells, the high bit first.
fn number_of(values: &[bool], bits: &[Gate]) -> Option<Value> {
    let mut number = 0u64;
    for bit in bits {
        number = number
            .wrapping_mul(2)
            .wrapping_add(u64::from(holds(values, *bit)?));
    }
    Some(Value::Number(u32::try_from(bits.len()).ok()?, number))
}

// The one target whose guard holds; none where there is no such target, or another one.
fn pointer_of(values: &[bool], set: &Set) -> Option<Value> {
    let mut found = None;
    for pair in set.pairs.as_slice() {
        if holds(values, pair.guard)? {
            if found.is_some() {
                return None;
            }
            found = Some(Value::Pointer(pair.target.checked_sub(1)));
        }
    }
    found
}

fn value_of(values: &[bool], val: &Val) -> Option<Value> {
    match val {
        Val::Word(word) => number_of(values, word.bits.as_slice()),
        Val::Set(set) => pointer_of(values, set),
        Val::Unit => Some(Value::Nothing),
    }
}

fn marks_of(values: &[bool], flags: &Flags) -> Option<Marks> {
    Some(Marks {
        touched: holds(values, flags.touched)?,
        written: holds(values, flags.written)?,
        allocated: holds(values, flags.allocated)?,
        freed: holds(values, flags.freed)?,
        escaped: holds(values, flags.escaped)?,
    })
}

fn slot_of(values: &[bool], location: &Location) -> Option<Slot> {
    Some(Slot {
        value: value_of(values, &location.val)?,
        marks: marks_of(values, &location.flags)?,
    })
}

// Whether the gates have the store of a run.
fn are_slots(values: &[bool], locations: &[Location], slots: &[Slot]) -> bool {
    if locations.len() != slots.len() {
        return false;
    }
    for (location, slot) in locations.iter().zip(slots) {
        if slot_of(values, location) != Some(*slot) {
            return false;
        }
    }
    true
}

// The reasons that an expression tells: how many, and the last of them.
fn told(values: &[bool], asides: &[Gate]) -> Option<(usize, Option<Reason>)> {
    let mut count = 0usize;
    let mut last = None;
    for k in 0..asides.len() {
        if holds(values, asides[k])? {
            count = count.saturating_add(1);
            last = Some(*REASONS.get(k)?);
        }
    }
    Some((count, last))
}

// How a run ends by the values of the gates. None where no run ends so: with two reasons, with none where it does not go on,
// or with one behind its end.
fn outcome_of(values: &[bool], made: &[Made]) -> Option<Outcome> {
    let mut ended = None;
    let mut value = Value::Nothing;
    for Made { evaled: one, .. } in made {
        let live = holds(values, one.live)?;
        match (ended, told(values, one.asides.as_slice())?, live) {
            (None, (0, None), true) => value = value_of(values, &one.val)?,
            (None, (1, Some(reason)), false) => ended = Some(reason),
            (Some(_), (0, None), false) => {}
            _ => return None,
        }
    }
    match ended {
        None => Some(Outcome::Exit(value)),
        Some(reason) => Some(Outcome::Aside(reason)),
    }
}

// Whether the gates tell how a run ended, and its store.
fn tells(values: &[bool], gates: &Gates, slots: &[Slot], outcome: Outcome) -> bool {
    outcome_of(values, gates.made.as_slice()) == Some(outcome)
        && are_slots(values, gates.stored.locations.as_slice(), slots)
}

// How the run on a choice ends; none where the gates do not tell it, or for want of memory.
fn agrees(alloc: Global, runs: &mut Machine, gates: &Gates, choice: &[bool]) -> Option<Outcome>
    requires inputs { length choice.now ≡ input_count gates.now.net }
{
    let Ok(mut values) = vec![in alloc; false; gates.net.len()] else {
        return None;
    };
    gates.net.values_into(choice, &mut values);
    let outcome = runs.run(choice);
    if !tells(
        values.as_slice(),
        gates,
        runs.world.slots.as_slice(),
        outcome,
    ) {
        return None;
    }
    Some(outcome)
}

// The next choice: all in turn where there are few, else any.
fn go_on(choice: &mut Vec<bool>, numbers: &mut Numbers)
    ensures { length choice.new.items ≡ length choice.old.items }
{
    if choice.len() <= MOST_BITS {
        step(choice);
    } else {
        for bit in choice.as_mut_slice() {
            *bit = numbers.below(2) == 0;
        }
    }
}

// On how many choices a function with so many bits is tried.
fn choices(bits: usize) -> u64 {
    if bits <= MOST_BITS {
        1u64 << bits
    } else {
        SOME_CHOICES
    }
}

// How many gates were made for the expressions.
fn count(made: &[Made]) -> usize {
    let mut count = 0usize;
    for one in made {
        count = count.saturating_add(one.gates);
    }
    count
}

// How many targets the pointer has that the last expression gives.
fn targets(made: &[Made]) -> usize {
    match made.last() {
        Some(Made { evaled, .. }) => match &evaled.val {
            Val::Set(set) => set.pairs.len(),
            Val::Word(_) | Val::Unit => 0,
        },
        None => 0,
    }
}

fn is_exit(outcome: Outcome) -> bool {
    matches!(outcome, Outcome::Exit(_))
}

// The same on all choices, or on some where there are many.
fn all_agree(alloc: Global, runs: &mut Machine, gates: &Gates, bits: usize) -> Option<Tally>
    requires inputs { bits ≡ input_count gates.now.net }
{
    let Ok(mut choice) = vec![in alloc; false; bits] else {
        return None;
    };
    let mut numbers = Numbers { state: 1 };
    let mut exits = 0u64;
    let mut last = None;
    for _choice in 0..choices(bits) {
        let outcome = agrees(alloc, runs, gates, choice.as_slice())?;
        exits = exits.saturating_add(u64::from(is_exit(outcome)));
        last = Some(outcome);
        go_on(&mut choice, &mut numbers);
    }
    Some(Tally {
        choices: choices(bits),
        exits,
        gates: count(gates.made.as_slice()),
        last,
        targets: targets(gates.made.as_slice()),
    })
}

// The gates of the body of a function.
#[tactic(auto, unfolding(run_world::specs::Seen::env))]
fn gates_for<'p, 'm, 'f>(
    alloc: Global,
    ground: Ground<'p, 'm, 'f>,
    places: &'f Places<'p>,
) -> Option<Gates>
    ensures { IfSome result (λ g. input_count g.net ≡ (laid.layout_of places.now).bits) }
{
    if places.count() > u32::MAX as usize {
        return None;
    }
    let body = ground.here.body()?;
    let Ok(layout) = Lookup::of(alloc, places) else {
        return None;
    };
    let here = Here {
        ground,
        places,
        choice: &[],
        turn: 0,
    };
    match gates_of(alloc, &here, &layout, body) {
        Ok(gates) => gates,
        Err(_) => None,
    }
}

// On each choice gates and runs of a function agree.
fn all_beside(alloc: Global, runs: &mut Machine) -> Option<Tally> {
    let places = runs.places;
    let gates = gates_for(alloc, runs.given, places)?;
    all_agree(alloc, runs, &gates, places.choice_len())
}

// The same of the first function of a program.
fn first_beside(alloc: Global, program: &Program) -> Option<Tally> {
    let Ok(table) = machine(alloc) else {
        return None;
    };
    let here = context(program, &table);
    let Ok(laid) = laid_out(alloc, program) else {
        return None;
    };
    let found = nothing(alloc);
    match reserved(alloc, &here, &found, &laid) {
        Ok(mut runs) => all_beside(alloc, &mut runs),
        Err(_) => None,
    }
}

/// On each choice of the first function of a text, or on some where it has many, its gates and its run agree; none where they
/// do not, where it has no gates, and where there is no such function.
pub fn beside(alloc: Global, text: &str, widths: Widths) -> Option<Tally> {
    let program = checked(alloc, text.as_bytes(), widths)?;
    first_beside(alloc, &program)
}
