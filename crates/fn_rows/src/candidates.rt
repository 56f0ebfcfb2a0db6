// Rows that there might be, in the order in which rows are printed.

ghost use Rattle.std.specs.Prelude.{◌≡◌, ◌++◌, [], ◌∷◌, IfOk, OnOk, map};
ghost use Rattle.std.specs.List.{flat_map};
ghost use Rattle.sc_world.specs.Known as known;
ghost use Rattle.sum_rows.specs.declared.row.State.TheVariants as state;
ghost use Rattle.sc_world.specs.Verdict as spec;
ghost use Rattle.sc_gather.specs.Seen as seen;
ghost use Rattle.fn_rows.specs.Parts.{AreParts};

use crate::parts::{Parts, gives_pointer};
use sc_base::OutOfMemory;
use sc_gather::Context;
use std::alloc::Global;
use sum_rows::{Gives, Row, State};

// Puts the rows with these states afterwards.
fn put_afters(
    rows: &mut Vec<Row>,
    given: u8,
    before: State,
    gives: Gives,
    afters: &[State],
) -> Result<(), OutOfMemory>
    ensures { OnOk result (rows.new.items ≡ rows.old.items ++ map (λ a. known.row given before gives a) afters.now) }
{
    for after in afters {
        rows.push(Row {
            given,
            before,
            result: gives,
            after: *after,
        })?;
    }
    Ok(())
}

// Puts the rows with these results.
fn put_results(
    rows: &mut Vec<Row>,
    given: u8,
    before: State,
    results: &[Gives],
    afters: &[State],
) -> Result<(), OutOfMemory>
    ensures { OnOk result (rows.new.items
        ≡ rows.old.items ++ flat_map (λ r. map (λ a. known.row given before r a) afters.now) results.now) }
{
    for gives in results {
        put_afters(rows, given, before, *gives, afters)?;
    }
    Ok(())
}

// Puts the rows with these states before.
fn put_befores(
    rows: &mut Vec<Row>,
    given: u8,
    befores: &[State],
    results: &[Gives],
    afters: &[State],
) -> Result<(), OutOfMemory>
    ensures { OnOk result (rows.new.items
        ≡ rows.old.items ++ flat_map (λ b. flat_map (λ r. map (λ a. known.row given b r a) afters.now) results.now) befores.now) }
{
    for before in befores {
        put_results(rows, given, *before, results, afters)?;
    }
    Ok(())
}

// The rows with these entry bits, states and results.
fn candidates(
    alloc: Global,
    givens: &[u8],
    befores: &[State],
    results: &[Gives],
    afters: &[State],
) -> Result<Vec<Row>, OutOfMemory>
    ensures { IfOk result (λ rows. rows.items ≡ spec.candidates givens.now befores.now results.now afters.now) }
{
    let mut rows = Vec::new(alloc);
    for given in givens {
        put_befores(&mut rows, *given, befores, results, afters)?;
    }
    Ok(rows)
}

fn exit_kinds(here: &Context) -> &'static [State]
    ensures { result.now ≡ spec.exit_kinds (seen.source_of here.now) }
{
    if gives_pointer(here) {
        &[State::Null, State::Fresh, State::Other]
    } else {
        &[State::Nil]
    }
}

/// The rows that the end might have.
pub(crate) fn exit_candidates(
    alloc: Global,
    here: &Context,
    parts: &Parts,
) -> Result<Vec<Row>, OutOfMemory>
    requires parts { AreParts (seen.source_of here.now) parts.now }
    ensures { IfOk result (λ rows. rows.items ≡ spec.exit_candidates (seen.source_of here.now)) }
{
    let rows = candidates(
        alloc,
        parts.givens,
        &[State::Nil],
        parts.results,
        exit_kinds(here),
    )?;
    Ok(rows)
}

// The states, and an error behind them.
fn with_bad(alloc: Global, states: &[State]) -> Result<Vec<State>, OutOfMemory>
    ensures { IfOk result (λ ss. ss.items ≡ states.now ++ state.Bad ∷ []) }
{
    let mut afters = Vec::from_slice(alloc, states)?;
    afters.push(State::Bad)?;
    Ok(afters)
}

/// The rows that a location might have: of each state, and of an error.
#[tactic(auto, using(crate::proofs::Rows::locks_are))]
pub(crate) fn lock_candidates(
    alloc: Global,
    here: &Context,
    parts: &Parts,
) -> Result<Vec<Row>, OutOfMemory>
    requires parts { AreParts (seen.source_of here.now) parts.now }
    ensures { IfOk result (λ rows. rows.items ≡ spec.lock_candidates (seen.source_of here.now)) }
{
    let afters = with_bad(alloc, parts.states.as_slice())?;
    let rows = candidates(
        alloc,
        parts.givens,
        parts.states.as_slice(),
        &[Gives::Nothing, Gives::Zero, Gives::NotZero],
        afters.as_slice(),
    )?;
    Ok(rows)
}

/// The rows that what a parameter points to might have.
pub(crate) fn param_candidates(
    alloc: Global,
    here: &Context,
    parts: &Parts,
) -> Result<Vec<Row>, OutOfMemory>
    requires parts { AreParts (seen.source_of here.now) parts.now }
    ensures { IfOk result (λ rows. rows.items ≡ spec.param_candidates (seen.source_of here.now)) }
{
    let rows = candidates(
        alloc,
        parts.givens,
        &[State::Nil],
        parts.results,
        &[State::Held, State::Escaped, State::Freed],
    )?;
    Ok(rows)
}

/// The rows that the pointer that a parameter points to might have.
pub(crate) fn out_candidates(
    alloc: Global,
    here: &Context,
    parts: &Parts,
) -> Result<Vec<Row>, OutOfMemory>
    requires parts { AreParts (seen.source_of here.now) parts.now }
    ensures { IfOk result (λ rows. rows.items ≡ spec.out_candidates (seen.source_of here.now)) }
{
    let rows = candidates(
        alloc,
        parts.givens,
        &[State::Nil],
        parts.results,
        &[State::Null, State::Fresh, State::Other, State::Same],
    )?;
    Ok(rows)
}
