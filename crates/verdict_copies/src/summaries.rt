// Copies of summaries.

ghost use Rattle.std.specs.Prelude.{◌≡◌, IfOk};

use sc_base::{List, OutOfMemory};
use std::alloc::Global;
use sum_rows::{Item, ItemRows, Path, Summary, Write};

pub(crate) fn path(alloc: Global, from: &Path) -> Result<Path, OutOfMemory>
    ensures { IfOk result (λ made. made ≡ from.now) }
{
    Ok(Path {
        root: from.root,
        steps: List::from_vec(from.steps.as_slice().to_vec(alloc)?),
    })
}

fn item(alloc: Global, from: &Item) -> Result<Item, OutOfMemory>
    ensures { IfOk result (λ made. made ≡ from.now) }
{
    match from {
        Item::Exit => Ok(Item::Exit),
        Item::Lock(at) => Ok(Item::Lock(path(alloc, at)?)),
        Item::Param(n) => Ok(Item::Param(*n)),
        Item::Out(n) => Ok(Item::Out(*n)),
    }
}

fn item_rows(alloc: Global, from: &ItemRows) -> Result<ItemRows, OutOfMemory>
    ensures { IfOk result (λ made. made ≡ from.now) }
{
    Ok(ItemRows {
        item: item(alloc, &from.item)?,
        rows: List::from_vec(from.rows.as_slice().to_vec(alloc)?),
    })
}

fn items(alloc: Global, from: &[ItemRows]) -> Result<List<ItemRows>, OutOfMemory>
    ensures { IfOk result (λ made. made ≡ from.now) }
{
    let mut made = Vec::new(alloc);
    for one in from {
        made.push(item_rows(alloc, one)?)?;
    }
    Ok(List::from_vec(made))
}

fn write(alloc: Global, from: &Write) -> Result<Write, OutOfMemory>
    ensures { IfOk result (λ made. made ≡ from.now) }
{
    Ok(Write {
        path: path(alloc, &from.path)?,
        width: from.width,
    })
}

fn writes(alloc: Global, from: &[Write]) -> Result<List<Write>, OutOfMemory>
    ensures { IfOk result (λ made. made ≡ from.now) }
{
    let mut made = Vec::new(alloc);
    for one in from {
        made.push(write(alloc, one)?)?;
    }
    Ok(List::from_vec(made))
}

/// A copy of a summary.
pub(crate) fn summary(alloc: Global, from: &Summary) -> Result<Summary, OutOfMemory>
    ensures { IfOk result (λ made. made ≡ from.now) }
{
    Ok(Summary {
        bits: from.bits,
        items: items(alloc, from.items.as_slice())?,
        writes: writes(alloc, from.writes.as_slice())?,
    })
}
