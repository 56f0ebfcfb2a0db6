// Rows that are sought.

ghost use Rattle.std.specs.Prelude.{◌≡◌, ℕ, ◌<◌, ◌≤◌, Bool, not, ◌&&◌, ◌||◌, nat_eq, length, Some, IfOk};
ghost use Rattle.std.specs.List.{list_any};
ghost use Rattle.bit_net.specs.Runs.{Gives as GateGives, Grown};
ghost use Rattle.bit_words.specs.Number.{number, top};
ghost use Rattle.sum_rows.specs.declared.row.State.TheVariants as states;
ghost use Rattle.sc_world.specs.Known as known;
ghost use Rattle.gate_rows.specs.Sought as spec;
ghost use Rattle.gate_rows.specs.Sought.{IsOutcomeBelow, IsSideBelow, IsSoughtBelow};

use bit_net::{Gate, Net, OutOfMemory};
use bit_words::is_number;
use sum_rows::{Gives, Row, State};

// Any state.
const ANY: u64 = 15;

/// A state that is sought.
#[derive(Clone, Copy)]
pub enum Side<'a> {
    /// That state.
    Named(State),
    /// The state of the machine whose number the bits spell.
    Numbered(&'a [Gate]),
    /// The same; where they spell any state, each state of a machine that has so many.
    From(&'a [Gate], u32),
    /// What the bits say of a parameter's object: held, escaped, freed; nothing else.
    Param(&'a [Gate]),
    /// What they say of a pointer that is given: null, fresh, another one; nothing else.
    Pointer(&'a [Gate]),
    /// What they say of a pointer that a parameter points to: null, fresh, another one; else it is the same.
    Out(&'a [Gate]),
}

/// A result that is sought.
#[derive(Clone, Copy)]
pub enum Outcome {
    /// None.
    Nothing,
    /// 0 where the gate holds, and not 0 where not.
    Zero(Gate),
}

/// A row that is sought.
#[derive(Clone, Copy)]
pub struct Sought<'a> {
    /// The entry bits.
    pub given: &'a [Gate],
    pub before: Side<'a>,
    pub result: Outcome,
    pub after: Side<'a>,
}

fn same_state(a: State, b: State) -> bool
    ensures { result ≡ known.same_state a b }
{
    match (a, b) {
        (State::Nil, State::Nil)
        | (State::Bad, State::Bad)
        | (State::Held, State::Held)
        | (State::Escaped, State::Escaped)
        | (State::Freed, State::Freed)
        | (State::Null, State::Null)
        | (State::Fresh, State::Fresh)
        | (State::Other, State::Other)
        | (State::Same, State::Same) => true,
        (State::At(m), State::At(n)) => m == n,
        _ => false,
    }
}

// The number by which a choice names the state of a parameter's object.
fn param_number(state: State) -> Option<u64>
    ensures { result ≡ spec.param_number state }
{
    match state {
        State::Held => Some(0),
        State::Escaped => Some(1),
        State::Freed => Some(2),
        State::Nil
        | State::At(_)
        | State::Bad
        | State::Null
        | State::Fresh
        | State::Other
        | State::Same => None,
    }
}

// The number by which a choice names a pointer.
fn pointer_number(state: State) -> Option<u64>
    ensures { result ≡ spec.pointer_number state }
{
    match state {
        State::Null => Some(0),
        State::Fresh => Some(1),
        State::Other => Some(2),
        State::Nil
        | State::At(_)
        | State::Bad
        | State::Held
        | State::Escaped
        | State::Freed
        | State::Same => None,
    }
}

// The number of a state of the machine.
fn state_number(state: State) -> Option<u64>
    ensures { result ≡ spec.state_number state }
{
    match state {
        State::At(m) => Some(u64::from(m)),
        State::Nil
        | State::Bad
        | State::Held
        | State::Escaped
        | State::Freed
        | State::Null
        | State::Fresh
        | State::Other
        | State::Same => None,
    }
}

fn is_same(state: State) -> bool
    ensures { result ≡ spec.is_same state }
{
    matches!(state, State::Same)
}

// Holds where the bits spell the number, if there is one.
fn spelt(net: &mut Net, bits: &[Gate], wanted: Option<u64>) -> Result<Gate, OutOfMemory>
    requires bits { top bits.now ≤ length net.old }
    ensures grown { Grown net.old net.new }
    ensures ok { IfOk result (λ r. GateGives net.new r.at (λ choice v. spec.is_spelt (number v bits.now) wanted)) }
{
    match wanted {
        None => Ok(net.constant(false)),
        Some(n) => {
            let r = is_number(net, bits, n)?;
            Ok(r)
        }
    }
}

// Holds where a row from the state with the number m counts, by the state that the bits spell.
#[tactic(auto, using(crate::proofs::Seeking::low_gate, crate::proofs::Seeking::any_gate, crate::proofs::Seeking::high_gate))]
fn from_state(net: &mut Net, bits: &[Gate], count: u32, m: u64) -> Result<Gate, OutOfMemory>
    requires bits { top bits.now ≤ length net.old }
    ensures grown { Grown net.old net.new }
    ensures ok { IfOk result (λ r. GateGives net.new r.at (λ choice v. spec.is_from count (number v bits.now) (Some m))) }
{
    if m < u64::from(count) {
        let any = is_number(net, bits, ANY)?;
        let here = is_number(net, bits, m)?;
        let r = net.or(any, here)?;
        Ok(r)
    } else if m == ANY {
        Ok(net.constant(false))
    } else {
        let r = is_number(net, bits, m)?;
        Ok(r)
    }
}

// The same of a state of a row, which may be none of the machine.
fn from(net: &mut Net, bits: &[Gate], count: u32, state: State) -> Result<Gate, OutOfMemory>
    requires bits { top bits.now ≤ length net.old }
    ensures grown { Grown net.old net.new }
    ensures ok { IfOk result (λ r. GateGives net.new r.at (λ choice v. spec.is_from count (number v bits.now) (spec.state_number state))) }
{
    match state_number(state) {
        None => Ok(net.constant(false)),
        Some(m) => {
            let r = from_state(net, bits, count, m)?;
            Ok(r)
        }
    }
}

// Holds where the bits name no pointer, so that the cell is the same.
fn stays(net: &mut Net, bits: &[Gate]) -> Result<Gate, OutOfMemory>
    requires bits { top bits.now ≤ length net.old }
    ensures grown { Grown net.old net.new }
    ensures ok { IfOk result (λ r. GateGives net.new r.at (λ choice v. spec.names_none (number v bits.now))) }
{
    let null = is_number(net, bits, 0)?;
    let fresh = is_number(net, bits, 1)?;
    let other = is_number(net, bits, 2)?;
    let object = net.or(fresh, other)?;
    let some = net.or(null, object)?;
    let r = net.not(some)?;
    Ok(r)
}

fn out(net: &mut Net, bits: &[Gate], state: State) -> Result<Gate, OutOfMemory>
    requires bits { top bits.now ≤ length net.old }
    ensures grown { Grown net.old net.new }
    ensures ok { IfOk result (λ r. GateGives net.new r.at (λ choice v. spec.is_out (number v bits.now) state)) }
{
    if is_same(state) {
        let r = stays(net, bits)?;
        Ok(r)
    } else {
        let r = spelt(net, bits, pointer_number(state))?;
        Ok(r)
    }
}

// Holds where the state is the one that is sought.
fn is_side(net: &mut Net, side: Side, state: State) -> Result<Gate, OutOfMemory>
    requires side { IsSideBelow net.old side }
    ensures grown { Grown net.old net.new }
    ensures ok { IfOk result (λ r. GateGives net.new r.at (λ choice v. spec.is_side v side.entry state)) }
{
    match side {
        Side::Named(s) => Ok(net.constant(same_state(s, state))),
        Side::Numbered(bits) => {
            let r = spelt(net, bits, state_number(state))?;
            Ok(r)
        }
        Side::From(bits, count) => {
            let r = from(net, bits, count, state)?;
            Ok(r)
        }
        Side::Param(bits) => {
            let r = spelt(net, bits, param_number(state))?;
            Ok(r)
        }
        Side::Pointer(bits) => {
            let r = spelt(net, bits, pointer_number(state))?;
            Ok(r)
        }
        Side::Out(bits) => {
            let r = out(net, bits, state)?;
            Ok(r)
        }
    }
}

// Holds where the result is the one that is sought.
fn is_outcome(net: &mut Net, outcome: Outcome, gives: Gives) -> Result<Gate, OutOfMemory>
    requires outcome { IsOutcomeBelow net.old outcome }
    ensures grown { Grown net.old net.new }
    ensures ok { IfOk result (λ r. GateGives net.new r.at (λ choice v. spec.is_outcome v outcome gives)) }
{
    match outcome {
        Outcome::Nothing => Ok(net.constant(matches!(gives, Gives::Nothing))),
        Outcome::Zero(zero) => match gives {
            Gives::Nothing => Ok(net.constant(false)),
            Gives::Zero => Ok(zero),
            Gives::NotZero => {
                let r = net.not(zero)?;
                Ok(r)
            }
        },
    }
}

// Holds where the row is the one that is sought.
fn is_row(net: &mut Net, sought: &Sought, row: Row) -> Result<Gate, OutOfMemory>
    requires sought { IsSoughtBelow net.old sought.now }
    ensures grown { Grown net.old net.new }
    ensures ok { IfOk result (λ r. GateGives net.new r.at (λ choice v. spec.is_sought v sought.now row)) }
{
    let given = is_number(net, sought.given, row.given as u64)?;
    let before = is_side(net, sought.before, row.before)?;
    let gives = is_outcome(net, sought.result, row.result)?;
    let after = is_side(net, sought.after, row.after)?;
    let end = net.and(gives, after)?;
    let states = net.and(before, end)?;
    let r = net.and(given, states)?;
    Ok(r)
}

/// Holds where a row that is sought stands among these.
pub fn has_row(net: &mut Net, sought: &Sought, rows: &[Row]) -> Result<Gate, OutOfMemory>
    requires sought { IsSoughtBelow net.old sought.now }
    ensures grown { Grown net.old net.new }
    ensures ok { IfOk result (λ r. GateGives net.new r.at (λ choice v. list_any (spec.is_sought v sought.now) rows.now)) }
{
    let mut some = net.constant(false);
    for row in rows {
        let here = is_row(net, sought, *row)?;
        let more = net.or(some, here)?;
        some = more;
    }
    Ok(some)
}
