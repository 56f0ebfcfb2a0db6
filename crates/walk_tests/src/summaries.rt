// Summaries of callees, written by hand.

use sc_base::{List, OutOfMemory};
use std::alloc::Global;
use sum_rows::{Gives, Item, ItemRows, Path, Root, Row, State, Step, Summary, Verdict, Write};

const UNLOCKED: State = State::At(0);

const LOCKED: State = State::At(1);

// What the first parameter points to.
fn behind(alloc: Global) -> Result<Path, OutOfMemory> {
    let steps = vec![in alloc; Step::Deref]?;
    Ok(Path {
        root: Root::Param(0),
        steps: List::from_vec(steps),
    })
}

fn row(given: u8, before: State, after: State) -> Row {
    Row {
        given,
        before,
        result: Gives::Nothing,
        after,
    }
}

fn rows_of(alloc: Global, item: Item, rows: &[Row]) -> Result<ItemRows, OutOfMemory> {
    let mut list = List::new(alloc);
    for row in rows {
        list.push(*row)?;
    }
    Ok(ItemRows { item, rows: list })
}

// The rows of the end: the function comes to it from each of these entry bits.
fn ends(alloc: Global, rows: &[Row]) -> Result<ItemRows, OutOfMemory> {
    rows_of(alloc, Item::Exit, rows)
}

fn done(alloc: Global, bits: u8, items: Vec<ItemRows>, writes: List<Write>) -> Verdict {
    let summary = Summary {
        bits,
        items: List::from_vec(items),
        writes,
    };
    Verdict::Done(summary, List::new(alloc))
}

/// Of `void g(spinlock_t*l){spin_lock(l);}`.
pub fn locks_once(alloc: Global) -> Result<Verdict, OutOfMemory> {
    let rows = [row(1, UNLOCKED, LOCKED), row(1, LOCKED, State::Bad)];
    let end = ends(alloc, &[row(1, State::Nil, State::Nil)])?;
    let locks = rows_of(alloc, Item::Lock(behind(alloc)?), &rows)?;
    let items = vec![in alloc; end, locks]?;
    Ok(done(alloc, 1, items, List::new(alloc)))
}

/// Of `void mk(char**o){*o=kmalloc(4,0);}`.
pub fn makes_one(alloc: Global) -> Result<Verdict, OutOfMemory> {
    let rows = [
        row(1, State::Nil, State::Null),
        row(1, State::Nil, State::Fresh),
    ];
    let end = ends(alloc, &[row(1, State::Nil, State::Nil)])?;
    let out = rows_of(alloc, Item::Out(0), &rows)?;
    let items = vec![in alloc; end, out]?;
    let mut writes = List::new(alloc);
    writes.push(Write {
        path: behind(alloc)?,
        width: 0,
    })?;
    Ok(done(alloc, 1, items, writes))
}

/// Of `_Bool not(_Bool a){return!a;}`.
pub fn negates(alloc: Global) -> Result<Verdict, OutOfMemory> {
    let zero = Row {
        given: 1,
        before: State::Nil,
        result: Gives::Zero,
        after: State::Nil,
    };
    let other = Row {
        given: 0,
        result: Gives::NotZero,
        ..zero
    };
    let items = vec![in alloc; ends(alloc, &[other, zero])?]?;
    Ok(done(alloc, 1, items, List::new(alloc)))
}
