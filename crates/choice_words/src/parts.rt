// The parts of a known call's callee of which a choice speaks, in the order of their spots.

ghost use Rattle.std.specs.Prelude.{◌≡◌, ◌++◌, IfOk, OnOk};
ghost use Rattle.std.specs.List.{list_any};
ghost use Rattle.sc_world.specs.Occurrences as occur;
ghost use Rattle.choice_words.specs.Things as spec;

use run_paths::{Sort, is_of};
use sc_base::OutOfMemory;
use std::alloc::Global;
use sum_rows::{Item, ItemRows, Path, Root, Step, Summary, Write};

/// A part of a callee, by its number in the summary.
#[derive(Clone, Copy, Debug, PartialEq, Eq)]
pub enum Part {
    /// The item with that number, which is of that sort.
    Item(Sort, usize),
    /// The written cell with that number, a number of so many bits.
    Number(usize, u32),
    /// The written cell with that number, a pointer.
    Pointer(usize),
}

fn put_item(
    parts: &mut Vec<Part>,
    sort: Sort,
    number: usize,
    item: &Item,
) -> Result<(), OutOfMemory>
    ensures { OnOk result (parts.new.items ≡ parts.old.items ++ spec.item_part sort number item.now) }
{
    if is_of(sort, item) {
        parts.push(Part::Item(sort, number))?;
    }
    Ok(())
}

// The items of a sort.
fn put_items(parts: &mut Vec<Part>, sort: Sort, items: &[ItemRows]) -> Result<(), OutOfMemory>
    ensures { OnOk result (parts.new.items ≡ parts.old.items ++ spec.item_parts sort 0 items.now) }
{
    let mut number = 0;
    for x in items {
        put_item(parts, sort, number, &x.item)?;
        number += 1;
    }
    Ok(())
}

fn is_out(n: u32, item: &Item) -> bool
    ensures { result ≡ occur.is_out n item.now }
{
    match item {
        Item::Out(m) => n == *m,
        Item::Exit | Item::Lock(_) | Item::Param(_) => false,
    }
}

fn has_out(items: &[ItemRows], n: u32) -> bool
    ensures { result ≡ list_any (λ x. occur.is_out n x.item) items.now }
{
    items.iter().any(|x| is_out(n, &x.item))
}

// Whether a path leads to what a parameter with an item of its own points to.
fn is_out_path(items: &[ItemRows], path: &Path) -> bool
    ensures { result ≡ occur.is_out_path items.now path.now }
{
    match path.root {
        Root::Global(_) => false,
        Root::Param(n) => match path.steps.as_slice() {
            [] => false,
            [step] => match step {
                Step::Deref => has_out(items, n),
                Step::Field(_) | Step::Elem(_) => false,
            },
            [_, _, ..] => false,
        },
    }
}

fn put_write(
    parts: &mut Vec<Part>,
    items: &[ItemRows],
    number: usize,
    write: &Write,
) -> Result<(), OutOfMemory>
    ensures { OnOk result (parts.new.items ≡ parts.old.items ++ spec.write_part items.now number write.now) }
{
    if is_out_path(items, &write.path) {
        return Ok(());
    }
    parts.push(if write.width == 0 {
        Part::Pointer(number)
    } else {
        Part::Number(number, write.width)
    })?;
    Ok(())
}

// The written cells that no item speaks of.
fn put_writes(
    parts: &mut Vec<Part>,
    items: &[ItemRows],
    writes: &[Write],
) -> Result<(), OutOfMemory>
    ensures { OnOk result (parts.new.items ≡ parts.old.items ++ spec.write_parts items.now 0 writes.now) }
{
    let mut number = 0;
    for write in writes {
        put_write(parts, items, number, write)?;
        number += 1;
    }
    Ok(())
}

/// The parts of a callee with that summary.
#[tactic(auto, unfolding(crate::specs::Things::parts_of))]
pub(crate) fn parts_of(alloc: Global, summary: &Summary) -> Result<Vec<Part>, OutOfMemory>
    ensures { IfOk result (λ parts. parts.items ≡ spec.parts_of summary.now) }
{
    let mut parts = Vec::new(alloc);
    let items = summary.items.as_slice();
    put_items(&mut parts, Sort::Lock, items)?;
    put_items(&mut parts, Sort::Param, items)?;
    put_items(&mut parts, Sort::Out, items)?;
    put_writes(&mut parts, items, summary.writes.as_slice())?;
    Ok(parts)
}
