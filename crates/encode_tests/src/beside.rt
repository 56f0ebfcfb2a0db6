// The gates of a function beside the runs of it.

ghost use Rattle.std.specs.Prelude.{◌≡◌, length, IfSome};
ghost use Rattle.bit_net.specs.Circuit.{input_count};
ghost use Rattle.fsm_spec.specs.Table.{IsWhole};
ghost use Rattle.layout_base.specs.Seen as laid;
ghost use Rattle.run_laws.specs.Proper.{IsClosed};

use crate::told::tells;
use choice_search::step;
use fn_gates::{InGates, in_gates};
use fn_trying::Trying;
use fn_verdict::verdict;
use layout_base::{Ground, Places};
use location_texts::Texts;
use sc_gather::{Context, gather};
use sc_interp::{Machine, Outcome};
use std::alloc::Global;
use sum_rows::Verdict;

/// No function here has more bits.
const MOST_BITS: usize = 10;

/// What came of the runs of functions.
#[derive(Clone, Copy, Debug, PartialEq, Eq)]
pub struct Tally {
    pub choices: u64,
    /// How many of them come to the function's end.
    pub exits: u64,
    /// How many end by an error at a location.
    pub errors: u64,
}

impl Tally {
    pub fn none() -> Tally {
        Tally {
            choices: 0,
            exits: 0,
            errors: 0,
        }
    }

    pub fn with(self, other: Tally) -> Tally {
        Tally {
            choices: self.choices.saturating_add(other.choices),
            exits: self.exits.saturating_add(other.exits),
            errors: self.errors.saturating_add(other.errors),
        }
    }
}

/// What was found of a function on whose runs its gates agree.
#[derive(Drop)]
pub struct Compared {
    pub tally: Tally,
    /// By trying every choice.
    pub verdict: Verdict,
}

// One run.
fn one(outcome: Outcome) -> Tally {
    Tally {
        choices: 1,
        exits: u64::from(matches!(outcome, Outcome::Exit(_))),
        errors: u64::from(matches!(outcome, Outcome::Error(_) | Outcome::Inner(_))),
    }
}

// How the run on a choice ends; none where the gates do not tell it, or for want of memory.
fn agrees(alloc: Global, runs: &mut Machine, gates: &InGates, choice: &[bool]) -> Option<Outcome>
    requires inputs { length choice.now ≡ input_count gates.now.net }
{
    let Ok(mut values) = vec![in alloc; false; gates.net.len()] else {
        return None;
    };
    gates.net.values_into(choice, &mut values);
    let outcome = runs.run(choice);
    let slots = runs.world.slots.as_slice();
    if tells(values.as_slice(), &gates.encoded, outcome, slots) {
        Some(outcome)
    } else {
        None
    }
}

// The same on every choice.
fn all_agree(alloc: Global, runs: &mut Machine, gates: &InGates, bits: usize) -> Option<Tally>
    requires inputs { bits ≡ input_count gates.now.net }
{
    if bits > MOST_BITS {
        return None;
    }
    let Ok(mut choice) = vec![in alloc; false; bits] else {
        return None;
    };
    let mut tally = Tally::none();
    for _choice in 0..1u64 << bits {
        tally = tally.with(one(agrees(alloc, runs, gates, choice.as_slice())?));
        step(&mut choice);
    }
    Some(tally)
}

/// The gates of the function at hand; none where something of it has none.
#[tactic(auto, unfolding(layout_base::specs::Seen::ground_of))]
pub fn gates_of<'p, 'm, 'f>(
    alloc: Global,
    given: Ground<'p, 'm, 'f>,
    places: &'f Places<'p>,
) -> Option<InGates>
    requires whole { IsWhole (laid.ground_of given).source.machine }
    ensures { IfSome result (λ g. input_count g.net ≡ (laid.layout_of places.now).bits) }
{
    match in_gates(alloc, given, places) {
        Ok(Some(made)) => Some(made),
        Ok(None) | Err(_) => None,
    }
}

// These gates and the runs of the function at hand agree on every choice.
fn gates_agree<'p, 'm, 'f>(
    alloc: Global,
    given: Ground<'p, 'm, 'f>,
    places: &'f Places<'p>,
    gates: &InGates,
) -> Option<Tally>
    requires inputs { input_count gates.now.net ≡ (laid.layout_of places.now).bits }
    requires whole { IsWhole (laid.ground_of given).source.machine }
    requires closed { IsClosed (laid.layout_of places.now) }
{
    match Machine::reserve(alloc, given, places) {
        Ok(mut runs) => all_agree(alloc, &mut runs, gates, places.choice_len()),
        Err(_) => None,
    }
}

// Gates and runs of the function at hand agree on every choice.
fn runs_agree<'p, 'm, 'f>(
    alloc: Global,
    given: Ground<'p, 'm, 'f>,
    places: &'f Places<'p>,
) -> Option<Tally>
    requires whole { IsWhole (laid.ground_of given).source.machine }
    requires closed { IsClosed (laid.layout_of places.now) }
{
    let gates = gates_of(alloc, given, places)?;
    gates_agree(alloc, given, places, &gates)
}

// The verdict of the function at hand, by trying every choice.
fn tried<'p, 'm, 'f>(
    alloc: Global,
    given: Ground<'p, 'm, 'f>,
    places: &'f Places<'p>,
) -> Option<Verdict>
    requires whole { IsWhole (laid.ground_of given).source.machine }
    requires closed { IsClosed (laid.layout_of places.now) }
{
    let texts = Texts {
        program: given.here.program,
        function: given.here.function()?,
        places,
    };
    match Trying::new(alloc, given, texts) {
        Ok(mut asks) => verdict(alloc, given.here, &texts, &mut asks).ok(),
        Err(_) => None,
    }
}

// The same of what the run and the gates stand on, with the verdict.
fn both_agree<'p, 'm, 'f>(
    alloc: Global,
    given: Ground<'p, 'm, 'f>,
    places: &'f Places<'p>,
) -> Option<Compared>
    requires whole { IsWhole (laid.ground_of given).source.machine }
    requires closed { IsClosed (laid.layout_of places.now) }
{
    let tally = runs_agree(alloc, given, places)?;
    let verdict = tried(alloc, given, places)?;
    Some(Compared { tally, verdict })
}

/// Gates and runs of the function at hand, which has this layout, agree on every choice. None where they do not, where it has no
/// gates, and where it has more bits than any here.
#[tactic(auto, unfolding(layout_base::specs::Seen::ground_of, sc_gather::specs::Seen::source_of, sc_world::specs::Programs::source_by))]
pub fn beside<'p>(alloc: Global, here: &Context<'p, '_>, places: &Places<'p>) -> Option<Compared>
    requires whole { IsWhole here.now.machine.now }
    requires closed { IsClosed (laid.layout_of places.now) }
{
    let Ok(found) = gather(alloc, here) else {
        return None;
    };
    let given = Ground {
        here,
        found: &found,
    };
    both_agree(alloc, given, places)
}
