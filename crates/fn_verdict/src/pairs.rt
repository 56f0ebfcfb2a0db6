// Pairs of rows that differ in the state afterwards alone.

ghost use Rattle.std.specs.Prelude.{◌≡◌, ◌++◌, IfOk, OnOk, map, drop};
ghost use Rattle.std.specs.List.{flat_map};
ghost use Rattle.fn_verdict.specs.Pairs as spec;

use fn_rows::Parts;
use sc_base::OutOfMemory;
use std::alloc::Global;
use sum_rows::{Gives, Row, State};

/// Two rows that differ in the state afterwards alone.
#[derive(Clone, Copy)]
pub(crate) struct Pair {
    pub(crate) given: u8,
    pub(crate) before: State,
    pub(crate) gives: Gives,
    pub(crate) one: State,
    pub(crate) other: State,
}

impl Pair {
    pub(crate) fn first_row(self) -> Row
        ensures { result ≡ spec.first_row self }
    {
        Row {
            given: self.given,
            before: self.before,
            result: self.gives,
            after: self.one,
        }
    }

    pub(crate) fn second_row(self) -> Row
        ensures { result ≡ spec.second_row self }
    {
        Row {
            given: self.given,
            before: self.before,
            result: self.gives,
            after: self.other,
        }
    }
}

// Puts the pairs of a state and each of those behind it.
fn put_others(
    found: &mut Vec<Pair>,
    given: u8,
    before: State,
    gives: Gives,
    one: State,
    others: &[State],
) -> Result<(), OutOfMemory>
    ensures { OnOk result (found.new.items ≡ found.old.items ++ map (spec.pair given before gives one) others.now) }
{
    for other in others {
        found.push(Pair {
            given,
            before,
            gives,
            one,
            other: *other,
        })?;
    }
    Ok(())
}

// Puts the pairs of these states.
fn put_ones(
    found: &mut Vec<Pair>,
    given: u8,
    before: State,
    gives: Gives,
    states: &[State],
) -> Result<(), OutOfMemory>
    ensures { OnOk result (found.new.items ≡ found.old.items ++ spec.pairs_of given before gives states.now) }
{
    for k in 0..states.len() {
        put_others(found, given, before, gives, states[k], &states[k + 1..])?;
    }
    Ok(())
}

// Puts the pairs with these results.
fn put_results(
    found: &mut Vec<Pair>,
    given: u8,
    before: State,
    results: &[Gives],
    states: &[State],
) -> Result<(), OutOfMemory>
    ensures { OnOk result (found.new.items
        ≡ found.old.items ++ flat_map (λ r. spec.pairs_of given before r states.now) results.now) }
{
    for gives in results {
        put_ones(found, given, before, *gives, states)?;
    }
    Ok(())
}

// Puts the pairs with these states before.
fn put_befores(
    found: &mut Vec<Pair>,
    given: u8,
    befores: &[State],
    results: &[Gives],
    states: &[State],
) -> Result<(), OutOfMemory>
    ensures { OnOk result (found.new.items
        ≡ found.old.items ++ flat_map (λ b. flat_map (λ r. spec.pairs_of given b r states.now) results.now) befores.now) }
{
    for before in befores {
        put_results(found, given, *before, results, states)?;
    }
    Ok(())
}

/// All pairs, in the order of rows.
pub(crate) fn pairs(alloc: Global, parts: &Parts) -> Result<Vec<Pair>, OutOfMemory>
    ensures { IfOk result (λ ps. ps.items ≡ spec.pairs parts.now.givens.now parts.now.states.items parts.now.results.now) }
{
    let states = parts.states.as_slice();
    let mut found = Vec::new(alloc);
    for given in parts.givens {
        put_befores(&mut found, *given, states, parts.results, states)?;
    }
    Ok(found)
}
