//! Worked rows: what the gates of a function tell of one run, and how many rows a verdict has.

ghost use Rattle.std.specs.Prelude.{◌≡◌, length};
ghost use Rattle.bit_net.specs.Circuit.{input_count};
ghost use Rattle.fn_analysis.specs.Analysis.{HasWholeMachine};
ghost use Rattle.fsm_spec.specs.Table.{IsWhole};
ghost use Rattle.layout_base.specs.Seen as laid;

use crate::beside::gates_of;
use crate::setting::{laid_out, machine, program};
use crate::told::{value_of, which_hold};
use flow_ends::Encoded;
use fn_analysis::analyse;
use fn_gates::InGates;
use fsm_spec::MachineSpec;
use layout_base::{Ground, Places};
use run_world::Value;
use sc_gather::{Context, gather};
use sc_typed::Program;
use std::alloc::Global;
use sum_rows::{ItemRows, Verdict};

/// What the gates of a function tell of the run on one choice.
#[derive(Clone, Copy, Debug, PartialEq, Eq)]
struct Told {
    // Whether the run comes to the function's end.
    exits: bool,
    // At how many locations it ends by an error, and the last of them.
    errors: (usize, usize),
    result: Value,
    // The state of the location that is asked for.
    state: Value,
}

// What the gates with these values tell; `cell` is that of the state.
fn told_by(values: &[bool], encoded: &Encoded, cell: usize) -> Option<Told> {
    let state = encoded.store.locations.as_slice().get(cell)?;
    let over = *values.get(encoded.fates.over.at)?;
    Some(Told {
        exits: !over,
        errors: which_hold(values, encoded.fates.bads.as_slice())?,
        result: value_of(values, &encoded.result)?,
        state: value_of(values, &state.val)?,
    })
}

fn told_on(alloc: Global, gates: &InGates, choice: &[bool], cell: usize) -> Option<Told>
    requires inputs { length choice.now ≡ input_count gates.now.net }
{
    let Ok(mut values) = vec![in alloc; false; gates.net.len()] else {
        return None;
    };
    gates.net.values_into(choice, &mut values);
    told_by(values.as_slice(), &gates.encoded, cell)
}

// The same of the function with this layout, with the state of the location with that number.
fn told_with<'p, 'm, 'f>(
    alloc: Global,
    given: Ground<'p, 'm, 'f>,
    places: &'f Places<'p>,
    choice: &[bool],
    location: usize,
) -> Option<Told>
    requires { IsWhole (laid.ground_of given).source.machine }
{
    let gates = gates_of(alloc, given, places)?;
    if choice.len() != places.choice_len() {
        return None;
    }
    let cell = places.count().saturating_add(location);
    told_on(alloc, &gates, choice, cell)
}

#[tactic(auto, unfolding(layout_base::specs::Seen::ground_of, sc_gather::specs::Seen::source_of, sc_world::specs::Programs::source_by))]
fn told_by_places<'p>(
    alloc: Global,
    here: &Context<'p, '_>,
    places: &Places<'p>,
    choice: &[bool],
    location: usize,
) -> Option<Told>
    requires { IsWhole here.now.machine.now }
{
    let Ok(found) = gather(alloc, here) else {
        return None;
    };
    let given = Ground {
        here,
        found: &found,
    };
    told_with(alloc, given, places, choice, location)
}

// The same of the function at hand.
fn told_of(alloc: Global, here: &Context, choice: &[bool], location: usize) -> Option<Told>
    requires { IsWhole here.now.machine.now }
{
    let places = laid_out(alloc, here)?;
    told_by_places(alloc, here, &places, choice, location)
}

// The same of the first function of a program.
fn told_in(
    alloc: Global,
    program: &Program,
    machine: &MachineSpec,
    choice: &[bool],
    location: usize,
) -> Option<Told>
    requires { IsWhole machine.now }
{
    let here = Context {
        program,
        machine,
        tries: true,
        function: 0,
        kept: &[],
        verdicts: &[],
        depth: 2,
        reach: 2,
    };
    told_of(alloc, &here, choice, location)
}

fn told_of_text(
    alloc: Global,
    text: &str,
    machine: &MachineSpec,
    choice: &[bool],
    location: usize,
) -> Option<Told>
    requires { IsWhole machine.now }
{
    let program = program(alloc, text, "")?;
    told_in(alloc, &program, machine, choice, location)
}

// The same of the first function of a text.
fn told_first(alloc: Global, text: &str, choice: &[bool], location: usize) -> Option<Told> {
    let machine = machine(alloc, "")?;
    told_of_text(alloc, text, &machine, choice, location)
}

const TWICE: &str =
    "typedef struct{int v;}spinlock_t;void f(_Bool c,spinlock_t*l){spin_lock(l);if(c)spin_lock(l);}";

// The condition holds, and the lock is there and not taken: it is taken twice.
fn it_is_taken_twice(alloc: Global) -> bool {
    match told_first(alloc, TWICE, &[true, true, false], 2) {
        Some(told) => !told.exits && told.errors == (1, 2),
        None => false,
    }
}

const TRIES: &str = "typedef struct{int v;}spinlock_t;int f(spinlock_t*l){return spin_trylock(l);}";

// The lock is there and not taken, and the try succeeds: it gives 1, and the lock is taken.
fn a_try_takes_it(alloc: Global) -> bool {
    let due = Told {
        exits: true,
        errors: (0, 0),
        result: Value::Number(32, 1),
        state: Value::Number(4, 1),
    };
    told_first(alloc, TRIES, &[true, false, true], 1) == Some(due)
}

const NEXT: &str = "int f(unsigned char x){return x+1;}";

const PLACE: &str = "unsigned char*f(unsigned char x){return&x;}";

// What a function of a byte gives where that is 255.
fn gives(alloc: Global, text: &str) -> Option<Value> {
    match told_first(alloc, text, &[true; 8], 0) {
        Some(told) => Some(told.result),
        None => None,
    }
}

// 255 of one byte and 1 are 256, and the place of a parameter is its location alone.
fn a_sum_and_a_place(alloc: Global) -> bool {
    gives(alloc, NEXT) == Some(Value::Number(32, 256))
        && gives(alloc, PLACE) == Some(Value::Pointer(Some(0)))
}

// How many rows a summary has, and of how many items.
fn rows_of(verdict: &Verdict) -> Option<(usize, usize)> {
    match verdict {
        Verdict::Skipped(_) => None,
        Verdict::Done(summary, _) => Some(count(summary.items.as_slice())),
    }
}

fn count(items: &[ItemRows]) -> (usize, usize) {
    let mut rows = 0usize;
    for item in items {
        rows = rows.saturating_add(item.rows.len());
    }
    (rows, items.len())
}

const ONCE: &str = "typedef struct{int v;}spinlock_t;void f(_Bool c,spinlock_t*l){spin_lock(l);}";

// Two rows of the end, and four of the lock.
fn has_six_rows(alloc: Global, program: &Program) -> bool
    requires { HasWholeMachine program.now }
{
    match analyse(alloc, program, 0, &[], &[], 2, 2) {
        Ok(verdict) => rows_of(&verdict) == Some((6, 2)),
        Err(_) => false,
    }
}

fn it_has_six_rows(alloc: Global) -> bool {
    match program(alloc, ONCE, "") {
        Some(program) => has_six_rows(alloc, &program),
        None => false,
    }
}

#[test]
fn worked_rows(rt: HostRuntime) {
    assert!(rt; it_is_taken_twice(rt.alloc()));
    assert!(rt; a_try_takes_it(rt.alloc()));
    assert!(rt; a_sum_and_a_place(rt.alloc()));
    assert!(rt; it_has_six_rows(rt.alloc()));
}
