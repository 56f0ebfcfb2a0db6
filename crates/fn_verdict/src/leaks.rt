// Reports of objects that are lost, one for each place of a call.

ghost use Rattle.std.specs.Prelude.{◌≡◌, ◌++◌, [], IfOk, OnOk, map};
ghost use Rattle.std.specs.List.{flat_map, list_any};
ghost use Rattle.sc_world.specs.Layout as layouts;
ghost use Rattle.layout_base.specs.Seen as laid;
ghost use Rattle.fn_verdict.specs.Leaks as spec;

use layout_base::Places;
use run_questions::{Answerer, Query};
use sc_base::{OutOfMemory, Pos};
use std::alloc::Global;
use sum_rows::Report;

fn same_pos(a: Pos, b: Pos) -> bool
    ensures { result ≡ layouts.same_pos a b }
{
    a.file == b.file && a.line == b.line && a.col == b.col
}

fn has_pos(found: &[Pos], pos: Pos) -> bool
    ensures { result ≡ list_any (layouts.same_pos pos) found.now }
{
    found.iter().any(|other| same_pos(pos, *other))
}

// Puts a place that is not there. There are few: each is a node of the text.
fn put_pos(found: &mut Vec<Pos>, pos: Pos) -> Result<(), OutOfMemory>
    ensures { OnOk result (found.new.items ≡ spec.with_pos pos found.old.items) }
{
    if !has_pos(found.as_slice(), pos) {
        found.push(pos)?;
    }
    Ok(())
}

// The places of the calls, each once, in order.
#[tactic(auto, unfolding(layout_base::specs::Seen::layout_of))]
fn places_of_calls(alloc: Global, places: &Places) -> Result<Vec<Pos>, OutOfMemory>
    ensures { IfOk result (λ ps. ps.items ≡ spec.places_of_calls [] (laid.layout_of places.now).sites) }
{
    let mut found = Vec::new(alloc);
    for site in &places.sites {
        put_pos(&mut found, site.pos)?;
    }
    Ok(found)
}

// Puts the report of a place, if an object of it is lost.
fn put_leak<A: Answerer>(asks: &mut A, pos: Pos, found: &mut Vec<Report>) -> Result<(), OutOfMemory>
    ensures found { OnOk result (found.new.items ≡ found.old.items ++ spec.leak (A.answers asks.old) pos) }
    ensures answers { A.answers asks.new ≡ A.answers asks.old }
{
    if asks.some(Query::Leaks(pos))? {
        let run = asks.shown(Query::Leaks(pos))?;
        found.push(Report::Leak(pos, run))?;
    }
    Ok(())
}

/// Puts the reports of objects that are lost.
pub(crate) fn put_leaks<A: Answerer>(
    alloc: Global,
    places: &Places,
    asks: &mut A,
    found: &mut Vec<Report>,
) -> Result<(), OutOfMemory>
    ensures found { OnOk result (found.new.items ≡ found.old.items
        ++ flat_map (spec.leak (A.answers asks.old)) (spec.places_of_calls [] (laid.layout_of places.now).sites)) }
    ensures answers { A.answers asks.new ≡ A.answers asks.old }
{
    let calls = places_of_calls(alloc, places)?;
    for pos in &calls {
        put_leak(asks, *pos, found)?;
    }
    Ok(())
}
