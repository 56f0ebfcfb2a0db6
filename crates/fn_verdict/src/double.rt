// Reports of locations at which an operation may err from every state.

ghost use Rattle.std.specs.Prelude.{◌≡◌, ◌++◌, IfOk, OnOk, map};
ghost use Rattle.std.specs.List.{find, flat_map};
ghost use Rattle.sc_world.specs.Shows as shows;
ghost use Rattle.sc_world.specs.Verdict as spec;
ghost use Rattle.sc_gather.specs.Seen as seen;
ghost use Rattle.location_texts.specs.Seen as named;
ghost use Rattle.fn_rows.specs.Parts.{AreParts};
ghost use Rattle.fn_verdict.specs.Double as double;

use fn_rows::Parts;
use location_texts::{Texts, path_of};
use run_questions::{Answerer, Query};
use sc_base::{List, OutOfMemory};
use sc_gather::Context;
use std::alloc::Global;
use sum_rows::{Gives, Report, Row, Shown, State};

// The row of an error.
fn error_row(given: u8, before: State) -> Row
    ensures { result ≡ double.error_row given before }
{
    Row {
        given,
        before,
        result: Gives::Nothing,
        after: State::Bad,
    }
}

// Whether an operation may err from every state.
#[tactic(auto, using(crate::proofs::Firsts::all_turn))]
fn errs_from_all<A: Answerer>(
    asks: &mut A,
    at: u32,
    given: u8,
    states: &[State],
) -> Result<bool, OutOfMemory>
    ensures errs { IfOk result (λ b. b ≡ double.errs_from_all (A.answers asks.old) at states.now given) }
    ensures answers { A.answers asks.new ≡ A.answers asks.old }
{
    for before in states {
        if !asks.some(Query::Locks(at, error_row(given, *before)))? {
            return Ok(false);
        }
    }
    Ok(true)
}

// The first entry bits with which an operation may err from every state.
#[tactic(auto, using(crate::proofs::Firsts::find_turn))]
fn first_double<A: Answerer>(
    asks: &mut A,
    at: u32,
    givens: &[u8],
    states: &[State],
) -> Result<Option<u8>, OutOfMemory>
    ensures first { IfOk result (λ c. c ≡ find (double.errs_from_all (A.answers asks.old) at states.now) givens.now) }
    ensures answers { A.answers asks.new ≡ A.answers asks.old }
{
    for given in givens {
        if errs_from_all(asks, at, *given, states)? {
            return Ok(Some(*given));
        }
    }
    Ok(None)
}

// The runs to an error, one from each state.
fn error_runs<A: Answerer>(
    alloc: Global,
    asks: &mut A,
    at: u32,
    given: u8,
    states: &[State],
) -> Result<List<Shown>, OutOfMemory>
    ensures runs { IfOk result (λ runs. runs
        ≡ map (λ b. (A.answers asks.old).shown (shows.Locks at (double.error_row given b))) states.now) }
    ensures answers { A.answers asks.new ≡ A.answers asks.old }
{
    let mut runs = Vec::new(alloc);
    for before in states {
        runs.push(asks.shown(Query::Locks(at, error_row(given, *before)))?)?;
    }
    Ok(List::from_vec(runs))
}

// Puts the report of a location with these entry bits, if there are any.
fn put_report<A: Answerer>(
    alloc: Global,
    here: &Context,
    texts: &Texts,
    asks: &mut A,
    parts: &Parts,
    at: u32,
    given: Option<u8>,
    found: &mut Vec<Report>,
) -> Result<(), OutOfMemory>
    requires parts { AreParts (seen.source_of here.now) parts.now }
    ensures found { OnOk result (found.new.items ≡ found.old.items
        ++ spec.double_for (seen.source_of here.now) (named.texts texts.now) (A.answers asks.old) at given) }
    ensures answers { A.answers asks.new ≡ A.answers asks.old }
{
    match given {
        None => Ok(()),
        Some(given) => {
            let path = path_of(alloc, texts.places, at)?;
            let runs = error_runs(alloc, asks, at, given, parts.states.as_slice())?;
            found.push(Report::Double(path, runs))?;
            Ok(())
        }
    }
}

// Puts the report of a location, if there is one.
fn put_double<A: Answerer>(
    alloc: Global,
    here: &Context,
    texts: &Texts,
    asks: &mut A,
    parts: &Parts,
    at: u32,
    found: &mut Vec<Report>,
) -> Result<(), OutOfMemory>
    requires parts { AreParts (seen.source_of here.now) parts.now }
    ensures found { OnOk result (found.new.items ≡ found.old.items
        ++ spec.double (seen.source_of here.now) (named.texts texts.now) (A.answers asks.old) at) }
    ensures answers { A.answers asks.new ≡ A.answers asks.old }
{
    let given = first_double(asks, at, parts.givens, parts.states.as_slice())?;
    put_report(alloc, here, texts, asks, parts, at, given, found)?;
    Ok(())
}

/// Puts the reports of the locations at which an operation may err from every state.
pub(crate) fn put_doubles<A: Answerer>(
    alloc: Global,
    here: &Context,
    texts: &Texts,
    asks: &mut A,
    parts: &Parts,
    touched: &[u32],
    found: &mut Vec<Report>,
) -> Result<(), OutOfMemory>
    requires parts { AreParts (seen.source_of here.now) parts.now }
    ensures found { OnOk result (found.new.items ≡ found.old.items
        ++ flat_map (spec.double (seen.source_of here.now) (named.texts texts.now) (A.answers asks.old)) touched.now) }
    ensures answers { A.answers asks.new ≡ A.answers asks.old }
{
    for at in touched {
        put_double(alloc, here, texts, asks, parts, *at, found)?;
    }
    Ok(())
}
