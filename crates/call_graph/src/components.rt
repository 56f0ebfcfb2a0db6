//! The search for components (M. Sharir's way: by depth along the calls, and then backward, in the order in which
//! that search left the functions). No contract speaks of what it finds; `evidence` tests that.

use crate::evidence::{Evidence, Link};
use sc_base::{List, OutOfMemory};
use std::alloc::Global;

/// A function on the way of the search by depth, and the place of the call that is looked at next.
#[derive(Clone, Copy, Drop)]
struct Visit {
    function: usize,
    next: usize,
}

/// A call, seen from its callee.
#[derive(Clone, Copy, Drop)]
struct Caller {
    function: usize,
    at: usize,
}

/// What the searches along components have found.
#[derive(Drop)]
struct Finding<'a> {
    rows: &'a [List<u32>],
    steps: usize,
    components: Vec<Option<usize>>,
    roots: Vec<usize>,
    down: Vec<Option<Link>>,
    up: Vec<Option<Link>>,
}

fn root_link(root: usize) -> Link {
    Link {
        to: root,
        at: 0,
        rank: 0,
    }
}

/// More steps than a search takes: one for each function and each call, and one more.
fn most_steps(rows: &[List<u32>]) -> usize {
    let mut steps: usize = 1;
    for row in rows {
        steps = steps.saturating_add(row.len()).saturating_add(1);
    }
    steps
}

fn row_of(rows: &[List<u32>], function: usize) -> &[u32] {
    match rows.get(function) {
        Some(row) => row.as_slice(),
        None => &[],
    }
}

/// Puts an item at a place where none is yet, and says whether it did.
fn fill<T: Copy + Drop>(items: &mut Vec<Option<T>>, at: usize, item: T) -> bool {
    match items.get_mut(at) {
        Some(place) if place.is_none() => {
            *place = Some(item);
            true
        }
        _ => false,
    }
}

fn found<T: Copy>(items: &[Option<T>], at: usize) -> Option<T> {
    *items.get(at)?
}

fn none<T: Copy + Drop>(alloc: Global, count: usize) -> Result<Vec<Option<T>>, OutOfMemory> {
    let mut items = Vec::new(alloc);
    for _ in 0..count {
        items.push(None)?;
    }
    Ok(items)
}

/// Goes on with the function on top of the way, or leaves it.
fn go_on(
    rows: &[List<u32>],
    seen: &mut Vec<Option<()>>,
    way: &mut Vec<Visit>,
    left: &mut Vec<usize>,
    top: Visit,
) -> Result<(), OutOfMemory> {
    let Some(callee) = row_of(rows, top.function).get(top.next) else {
        left.push(top.function)?;
        return Ok(());
    };
    way.push(Visit {
        function: top.function,
        next: top.next.saturating_add(1),
    })?;
    let function = *callee as usize;
    if fill(seen, function, ()) {
        way.push(Visit { function, next: 0 })?;
    }
    Ok(())
}

/// The functions in the order in which a search by depth leaves them.
fn left_order(alloc: Global, rows: &[List<u32>], steps: usize) -> Result<Vec<usize>, OutOfMemory> {
    let mut seen = none(alloc, rows.len())?;
    let mut left = Vec::new(alloc);
    let mut way = Vec::new(alloc);
    for function in 0..rows.len() {
        if fill(&mut seen, function, ()) {
            way.push(Visit { function, next: 0 })?;
        }
        for _ in 0..steps {
            match way.pop() {
                Some(top) => go_on(rows, &mut seen, &mut way, &mut left, top)?,
                None => break,
            }
        }
    }
    Ok(left)
}

/// For each function the calls of it.
fn callers(alloc: Global, rows: &[List<u32>]) -> Result<Vec<Vec<Caller>>, OutOfMemory> {
    let mut callers: Vec<Vec<Caller>> = Vec::new(alloc);
    for _ in rows {
        callers.push(Vec::new(alloc))?;
    }
    for (function, row) in rows.iter().enumerate() {
        for (at, callee) in row.as_slice().iter().enumerate() {
            if let Some(list) = callers.get_mut(*callee as usize) {
                list.push(Caller { function, at })?;
            }
        }
    }
    Ok(callers)
}

impl Finding<'_> {
    /// A link behind the one of that function.
    fn behind(links: &[Option<Link>], to: usize, at: usize) -> Link {
        let rank = match found(links, to) {
            Some(link) => link.rank.saturating_add(1),
            None => 0,
        };
        Link { to, at, rank }
    }

    /// Puts the callers of a function that are in no component into the function's.
    fn spread_up(
        &mut self,
        callers: &[Vec<Caller>],
        component: usize,
        function: usize,
        way: &mut Vec<usize>,
    ) -> Result<(), OutOfMemory> {
        let Some(calls) = callers.get(function) else {
            return Ok(());
        };
        for call in calls {
            if fill(&mut self.components, call.function, component) {
                let link = Finding::behind(&self.up, function, call.at);
                fill(&mut self.up, call.function, link);
                way.push(call.function)?;
            }
        }
        Ok(())
    }

    /// Links the callees of a function that are in its component and have no link yet.
    fn spread_down(&mut self, function: usize, way: &mut Vec<usize>) -> Result<(), OutOfMemory> {
        let component = found(&self.components, function);
        for (at, callee) in row_of(self.rows, function).iter().enumerate() {
            let callee = *callee as usize;
            if found(&self.components, callee) == component {
                let link = Finding::behind(&self.down, function, at);
                if fill(&mut self.down, callee, link) {
                    way.push(callee)?;
                }
            }
        }
        Ok(())
    }

    /// Makes the component of a function that is in none.
    fn component_of(
        &mut self,
        alloc: Global,
        callers: &[Vec<Caller>],
        root: usize,
    ) -> Result<(), OutOfMemory> {
        let component = self.roots.len();
        if !fill(&mut self.components, root, component) {
            return Ok(());
        }
        self.roots.push(root)?;
        fill(&mut self.up, root, root_link(root));
        fill(&mut self.down, root, root_link(root));
        let mut way = vec![in alloc; root]?;
        for _ in 0..self.steps {
            match way.pop() {
                Some(function) => self.spread_up(callers, component, function, &mut way)?,
                None => break,
            }
        }
        Ok(())
    }

    /// Makes all components, by the callers of the functions, the one that was left last first.
    fn make_components(&mut self, alloc: Global) -> Result<(), OutOfMemory> {
        let order = left_order(alloc, self.rows, self.steps)?;
        let callers = callers(alloc, self.rows)?;
        for root in order.iter().rev() {
            self.component_of(alloc, &callers, *root)?;
        }
        Ok(())
    }

    /// Links the functions of the component with that root.
    fn link_down(&mut self, alloc: Global, root: usize) -> Result<(), OutOfMemory> {
        let mut way = vec![in alloc; root]?;
        for _ in 0..self.steps {
            match way.pop() {
                Some(function) => self.spread_down(function, &mut way)?,
                None => break,
            }
        }
        Ok(())
    }

    /// Links the functions of each component.
    fn link_components(&mut self, alloc: Global) -> Result<(), OutOfMemory> {
        for root in 0..self.roots.len() {
            if let Some(function) = self.roots.get(root) {
                let function = *function;
                self.link_down(alloc, function)?;
            }
        }
        Ok(())
    }
}

fn links(alloc: Global, found: &[Option<Link>]) -> Result<List<Link>, OutOfMemory> {
    let mut links = List::new(alloc);
    for link in found {
        links.push(link.unwrap_or(root_link(0)))?;
    }
    Ok(links)
}

fn numbers(alloc: Global, found: &[Option<usize>]) -> Result<List<usize>, OutOfMemory> {
    let mut numbers = List::new(alloc);
    for number in found {
        numbers.push(number.unwrap_or(0))?;
    }
    Ok(numbers)
}

/// A search that has found nothing yet.
fn begun(alloc: Global, rows: &[List<u32>]) -> Result<Finding<'_>, OutOfMemory> {
    Ok(Finding {
        rows,
        steps: most_steps(rows),
        components: none(alloc, rows.len())?,
        roots: Vec::new(alloc),
        down: none(alloc, rows.len())?,
        up: none(alloc, rows.len())?,
    })
}

/// What a search has found, once it is over.
fn evidence(alloc: Global, found: Finding<'_>) -> Result<Evidence, OutOfMemory> {
    Ok(Evidence {
        components: numbers(alloc, &found.components)?,
        down: links(alloc, &found.down)?,
        up: links(alloc, &found.up)?,
        roots: List::from_vec(found.roots),
    })
}

/// Searches for the components. The time is linear in functions and calls.
pub fn search(alloc: Global, rows: &[List<u32>]) -> Result<Evidence, OutOfMemory> {
    let mut found = begun(alloc, rows)?;
    found.make_components(alloc)?;
    found.link_components(alloc)?;
    evidence(alloc, found)
}
