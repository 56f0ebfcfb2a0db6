// Reports of locations that may be left in two states from one.

ghost use Rattle.std.specs.Prelude.{◌≡◌, ◌++◌, IfOk, OnOk, map};
ghost use Rattle.std.specs.List.{find, flat_map};
ghost use Rattle.location_texts.specs.Seen as named;
ghost use Rattle.fn_verdict.specs.Pairs as all;

use crate::pairs::Pair;
use location_texts::{Texts, path_of};
use run_questions::{Answerer, Query};
use sc_base::OutOfMemory;
use std::alloc::Global;
use sum_rows::Report;

// Whether both rows stand. The second one is asked for only if the first one does.
fn both_stand<A: Answerer>(asks: &mut A, at: u32, pair: Pair) -> Result<bool, OutOfMemory>
    ensures both { IfOk result (λ b. b ≡ all.both_stand (A.answers asks.old) at pair) }
    ensures answers { A.answers asks.new ≡ A.answers asks.old }
{
    if !asks.some(Query::Locks(at, pair.first_row()))? {
        return Ok(false);
    }
    let both = asks.some(Query::Locks(at, pair.second_row()))?;
    Ok(both)
}

// The first pair of which both rows stand.
#[tactic(auto, using(crate::proofs::Firsts::find_turn))]
fn first_pair<A: Answerer>(
    asks: &mut A,
    at: u32,
    pairs: &[Pair],
) -> Result<Option<Pair>, OutOfMemory>
    ensures first { IfOk result (λ p. p ≡ find (all.both_stand (A.answers asks.old) at) pairs.now) }
    ensures answers { A.answers asks.new ≡ A.answers asks.old }
{
    for pair in pairs {
        if both_stand(asks, at, *pair)? {
            return Ok(Some(*pair));
        }
    }
    Ok(None)
}

// Puts the report of a location with that pair, if there is one.
fn put_report<A: Answerer>(
    alloc: Global,
    texts: &Texts,
    asks: &mut A,
    at: u32,
    pair: Option<Pair>,
    found: &mut Vec<Report>,
) -> Result<(), OutOfMemory>
    ensures found { OnOk result (found.new.items ≡ found.old.items
        ++ all.ambiguous_for (named.texts texts.now).layout (A.answers asks.old) at pair) }
    ensures answers { A.answers asks.new ≡ A.answers asks.old }
{
    match pair {
        None => Ok(()),
        Some(pair) => {
            let path = path_of(alloc, texts.places, at)?;
            let one = asks.shown(Query::Locks(at, pair.first_row()))?;
            let other = asks.shown(Query::Locks(at, pair.second_row()))?;
            found.push(Report::Ambiguous(path, one, other))?;
            Ok(())
        }
    }
}

// Puts the report of a location, if there is one.
fn put_ambiguous<A: Answerer>(
    alloc: Global,
    texts: &Texts,
    asks: &mut A,
    pairs: &[Pair],
    at: u32,
    found: &mut Vec<Report>,
) -> Result<(), OutOfMemory>
    ensures found { OnOk result (found.new.items ≡ found.old.items
        ++ all.ambiguous (named.texts texts.now).layout (A.answers asks.old) pairs.now at) }
    ensures answers { A.answers asks.new ≡ A.answers asks.old }
{
    let pair = first_pair(asks, at, pairs)?;
    put_report(alloc, texts, asks, at, pair, found)?;
    Ok(())
}

/// Puts the reports of the locations that may be left in two states from one.
pub(crate) fn put_all_ambiguous<A: Answerer>(
    alloc: Global,
    texts: &Texts,
    asks: &mut A,
    pairs: &[Pair],
    touched: &[u32],
    found: &mut Vec<Report>,
) -> Result<(), OutOfMemory>
    ensures found { OnOk result (found.new.items ≡ found.old.items
        ++ flat_map (all.ambiguous (named.texts texts.now).layout (A.answers asks.old) pairs.now) touched.now) }
    ensures answers { A.answers asks.new ≡ A.answers asks.old }
{
    for at in touched {
        put_ambiguous(alloc, texts, asks, pairs, *at, found)?;
    }
    Ok(())
}
