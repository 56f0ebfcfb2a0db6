// Items with their rows.

ghost use Rattle.std.specs.Prelude.{◌≡◌, ◌++◌, [], ◌∷◌, IfOk, OnOk, map};
ghost use Rattle.sc_world.specs.Verdict as spec;
ghost use Rattle.layout_base.specs.Seen as laid;
ghost use Rattle.sc_gather.specs.Seen as seen;
ghost use Rattle.location_texts.specs.Seen as named;
ghost use Rattle.fn_rows.specs.Parts.{AreParts};
ghost use Rattle.fn_rows.specs.Items as items;

use crate::asking::{Subject, standing};
use crate::candidates::{exit_candidates, lock_candidates, out_candidates, param_candidates};
use crate::listed::{changed, set_params};
use crate::parts::Parts;
use layout_base::Places;
use location_texts::{Texts, path_of};
use run_questions::Answerer;
use sc_base::OutOfMemory;
use sc_gather::Context;
use std::alloc::Global;
use sum_rows::{Item, ItemRows, Row};

/// The sorts of items that have numbers.
#[derive(Clone, Copy)]
pub(crate) enum Sort {
    Lock,
    Param,
    Out,
}

fn subject_of(sort: Sort, n: u32) -> Subject
    ensures { result ≡ items.subject sort n }
{
    match sort {
        Sort::Lock => Subject::Lock(n),
        Sort::Param => Subject::Param(n),
        Sort::Out => Subject::Out(n),
    }
}

fn item_of(alloc: Global, places: &Places, subject: Subject) -> Result<Item, OutOfMemory>
    ensures { IfOk result (λ item. item ≡ items.item (laid.layout_of places.now) subject) }
{
    match subject {
        Subject::Exit => Ok(Item::Exit),
        Subject::Lock(at) => Ok(Item::Lock(path_of(alloc, places, at)?)),
        Subject::Param(n) => Ok(Item::Param(n)),
        Subject::Out(n) => Ok(Item::Out(n)),
    }
}

// Puts an item with those of the rows that stand.
fn put_item<A: Answerer>(
    alloc: Global,
    places: &Places,
    asks: &mut A,
    subject: Subject,
    candidates: &[Row],
    found: &mut Vec<ItemRows>,
) -> Result<(), OutOfMemory>
    ensures found { OnOk result (found.new.items ≡ found.old.items
        ++ items.item_rows (laid.layout_of places.now) (A.answers asks.old) candidates.now subject ∷ []) }
    ensures answers { A.answers asks.new ≡ A.answers asks.old }
{
    let item = item_of(alloc, places, subject)?;
    let rows = standing(alloc, asks, subject, candidates)?;
    found.push(ItemRows { item, rows })?;
    Ok(())
}

// Puts the items of a sort that have these numbers.
fn put_items<A: Answerer>(
    alloc: Global,
    places: &Places,
    asks: &mut A,
    sort: Sort,
    numbers: &[u32],
    candidates: &[Row],
    found: &mut Vec<ItemRows>,
) -> Result<(), OutOfMemory>
    ensures found { OnOk result (found.new.items ≡ found.old.items
        ++ items.items_of (laid.layout_of places.now) (A.answers asks.old) candidates.now sort numbers.now) }
    ensures answers { A.answers asks.new ≡ A.answers asks.old }
{
    for n in numbers {
        put_item(alloc, places, asks, subject_of(sort, *n), candidates, found)?;
    }
    Ok(())
}

/// Puts the end of the function.
pub(crate) fn put_exit<A: Answerer>(
    alloc: Global,
    here: &Context,
    texts: &Texts,
    asks: &mut A,
    parts: &Parts,
    found: &mut Vec<ItemRows>,
) -> Result<(), OutOfMemory>
    requires parts { AreParts (seen.source_of here.now) parts.now }
    ensures found { OnOk result (found.new.items ≡ found.old.items
        ++ spec.exit_item (seen.source_of here.now) (named.texts texts.now) (A.answers asks.old) ∷ []) }
    ensures answers { A.answers asks.new ≡ A.answers asks.old }
{
    let rows = exit_candidates(alloc, here, parts)?;
    put_item(
        alloc,
        texts.places,
        asks,
        Subject::Exit,
        rows.as_slice(),
        found,
    )?;
    Ok(())
}

/// Puts the locations that some run touches.
pub(crate) fn put_locks<A: Answerer>(
    alloc: Global,
    here: &Context,
    texts: &Texts,
    asks: &mut A,
    parts: &Parts,
    touched: &[u32],
    found: &mut Vec<ItemRows>,
) -> Result<(), OutOfMemory>
    requires parts { AreParts (seen.source_of here.now) parts.now }
    ensures found { OnOk result (found.new.items ≡ found.old.items
        ++ map (spec.lock_item (seen.source_of here.now) (named.texts texts.now) (A.answers asks.old)) touched.now) }
    ensures answers { A.answers asks.new ≡ A.answers asks.old }
{
    let rows = lock_candidates(alloc, here, parts)?;
    put_items(
        alloc,
        texts.places,
        asks,
        Sort::Lock,
        touched,
        rows.as_slice(),
        found,
    )?;
    Ok(())
}

/// Puts the parameters whose objects some run frees or lets escape.
pub(crate) fn put_params<A: Answerer>(
    alloc: Global,
    here: &Context,
    texts: &Texts,
    asks: &mut A,
    parts: &Parts,
    found: &mut Vec<ItemRows>,
) -> Result<(), OutOfMemory>
    requires parts { AreParts (seen.source_of here.now) parts.now }
    ensures found { OnOk result (found.new.items ≡ found.old.items
        ++ map (spec.param_item (seen.source_of here.now) (named.texts texts.now) (A.answers asks.old))
        (spec.changed (seen.source_of here.now) (named.texts texts.now) (A.answers asks.old))) }
    ensures answers { A.answers asks.new ≡ A.answers asks.old }
{
    let changed = changed(alloc, here, texts, asks)?;
    let rows = param_candidates(alloc, here, parts)?;
    put_items(
        alloc,
        texts.places,
        asks,
        Sort::Param,
        changed.as_slice(),
        rows.as_slice(),
        found,
    )?;
    Ok(())
}

/// Puts the parameters to whose pointers some run writes.
pub(crate) fn put_outs<A: Answerer>(
    alloc: Global,
    here: &Context,
    texts: &Texts,
    asks: &mut A,
    parts: &Parts,
    found: &mut Vec<ItemRows>,
) -> Result<(), OutOfMemory>
    requires parts { AreParts (seen.source_of here.now) parts.now }
    ensures found { OnOk result (found.new.items ≡ found.old.items
        ++ map (spec.out_item (seen.source_of here.now) (named.texts texts.now) (A.answers asks.old))
        (spec.set_params (seen.source_of here.now) (named.texts texts.now) (A.answers asks.old))) }
    ensures answers { A.answers asks.new ≡ A.answers asks.old }
{
    let set = set_params(alloc, here, texts, asks)?;
    let rows = out_candidates(alloc, here, parts)?;
    put_items(
        alloc,
        texts.places,
        asks,
        Sort::Out,
        set.as_slice(),
        rows.as_slice(),
        found,
    )?;
    Ok(())
}
