// Rows, as a known call seeks them.

ghost use Rattle.std.specs.Prelude.{◌≡◌, ◌≤◌, map};
ghost use Rattle.sum_rows.specs.declared.row.State.TheVariants as names;
ghost use Rattle.sc_world.specs.World.{digit, is_true};
ghost use Rattle.sc_world.specs.Known as spec;
ghost use Rattle.run_world.specs.Seen as world;
ghost use Rattle.run_known.specs.Seen as seen;

use run_world::Value;
use sum_rows::{Gives, Row, State};

/// A state that is sought.
#[derive(Clone, Copy, Debug, PartialEq, Eq)]
pub enum Side {
    /// The state of the machine with that number.
    Numbered(u64),
    Named(State),
}

/// A row that is sought.
#[derive(Clone, Copy, Debug, PartialEq, Eq)]
pub struct Sought {
    /// The entry bits.
    pub given: u8,
    pub before: Side,
    pub result: Gives,
    pub after: Side,
}

fn same_state(a: State, b: State) -> bool
    ensures { result ≡ spec.same_state a b }
{
    match (a, b) {
        (State::Nil, State::Nil)
        | (State::Bad, State::Bad)
        | (State::Held, State::Held)
        | (State::Escaped, State::Escaped)
        | (State::Freed, State::Freed)
        | (State::Null, State::Null)
        | (State::Fresh, State::Fresh)
        | (State::Other, State::Other)
        | (State::Same, State::Same) => true,
        (State::At(m), State::At(n)) => m == n,
        _ => false,
    }
}

fn is_numbered(n: u64, state: State) -> bool
    ensures { result ≡ spec.same_state (names.At n) state }
{
    match state {
        State::At(m) => n == u64::from(m),
        State::Nil
        | State::Bad
        | State::Held
        | State::Escaped
        | State::Freed
        | State::Null
        | State::Fresh
        | State::Other
        | State::Same => false,
    }
}

fn is_side(side: Side, state: State) -> bool
    ensures { result ≡ spec.same_state (seen.sought side) state }
{
    match side {
        Side::Numbered(n) => is_numbered(n, state),
        Side::Named(s) => same_state(s, state),
    }
}

fn same_gives(a: Gives, b: Gives) -> bool
    ensures { result ≡ spec.same_gives a b }
{
    match (a, b) {
        (Gives::Nothing, Gives::Nothing)
        | (Gives::Zero, Gives::Zero)
        | (Gives::NotZero, Gives::NotZero) => true,
        _ => false,
    }
}

fn is_row(sought: Sought, row: Row) -> bool
    ensures { result ≡ spec.same_row (spec.row sought.given (seen.sought sought.before) sought.result
        (seen.sought sought.after)) row }
{
    sought.given == row.given
        && (is_side(sought.before, row.before)
            && (same_gives(sought.result, row.result) && is_side(sought.after, row.after)))
}

/// Whether the row stands among these.
pub fn stands(sought: Sought, rows: &[Row]) -> bool
    ensures { result ≡ spec.stands (spec.row sought.given (seen.sought sought.before) sought.result
        (seen.sought sought.after)) rows.now }
{
    for row in rows {
        if is_row(sought, *row) {
            return true;
        }
    }
    false
}

// 1 of what is not 0 and not null, else 0.
fn digit(value: Value) -> u8
    ensures value { result ≡ digit (is_true (world.cell value)) }
    ensures most { result ≤ 1 }
{
    if value.is_true() { 1 } else { 0 }
}

/// The entry bits: which of the first three arguments are not 0 and not null, the first one highest.
pub fn given_number(arguments: &[Value]) -> u8
    ensures value { result ≡ spec.given_number (map world.cell arguments.now) }
{
    match arguments {
        [] => 0,
        [a] => digit(*a),
        [a, b] => 2 * digit(*a) + digit(*b),
        [a, b, c, ..] => 2 * (2 * digit(*a) + digit(*b)) + digit(*c),
    }
}
