//! Evidence of which functions reach one another, and its test.

ghost use Rattle.std.specs.Prelude.{◌≡◌};
ghost use Rattle.call_graph.specs.Evidence as spec;

use sc_base::List;

/// A link from a function to another one of its component, on the way from or to the root.
#[derive(Clone, Copy, Debug, PartialEq, Eq)]
pub struct Link {
    /// The function at the other end.
    pub to: usize,
    /// The place of the call in the row of the one that calls.
    pub at: usize,
    /// How many links lead to the root. Only the root has 0.
    pub rank: usize,
}

/// What a search for components finds.
#[derive(Debug, Drop)]
pub struct Evidence {
    /// The component of each function.
    pub components: List<usize>,
    /// The root of each component.
    pub roots: List<usize>,
    /// For each function one that calls it.
    pub down: List<Link>,
    /// For each function one that it calls.
    pub up: List<Link>,
}

/// The component of a function.
fn component(evidence: &Evidence, function: usize) -> usize
    ensures { result ≡ spec.component evidence.now function }
{
    match evidence.components.as_slice().get(function) {
        Some(component) => *component,
        None => 0,
    }
}

fn link_of(links: &[Link], function: usize) -> Link
    ensures { result ≡ spec.link links.now function }
{
    match links.get(function) {
        Some(link) => *link,
        None => Link {
            to: 0,
            at: 0,
            rank: 0,
        },
    }
}

/// Whether the call at that place of a function's row is one of the callee.
fn calls_at(rows: &[List<u32>], caller: usize, at: usize, callee: usize) -> bool
    ensures { result ≡ spec.calls_at rows.now caller at callee }
{
    match rows.get(caller) {
        Some(row) => match row.as_slice().get(at) {
            Some(function) => *function as usize == callee,
            None => false,
        },
        None => false,
    }
}

/// Whether the calls of a function lead to no lower component.
fn leads_up(row: &[u32], evidence: &Evidence, function: usize) -> bool
    ensures { result ≡ spec.leads_up row.now evidence.now function }
{
    let own = component(evidence, function);
    for callee in row {
        if component(evidence, *callee as usize) < own {
            return false;
        }
    }
    true
}

/// Whether a function is the root of its component.
fn is_root(evidence: &Evidence, function: usize) -> bool
    ensures { result ≡ spec.is_root evidence.now function }
{
    match evidence.roots.as_slice().get(component(evidence, function)) {
        Some(root) => *root == function,
        None => false,
    }
}

/// Whether a function's link is good: the function is the root, or the link is a call and leads to a function of
/// its component with a lower rank.
fn is_link(evidence: &Evidence, links: &[Link], function: usize, is_call: bool) -> bool
    ensures { result ≡ spec.is_link evidence.now links.now function is_call }
{
    let own = link_of(links, function);
    if own.rank == 0 {
        return is_root(evidence, function);
    }
    is_call
        && component(evidence, own.to) == component(evidence, function)
        && link_of(links, own.to).rank < own.rank
}

/// Whether the evidence is good at a function with that row of calls.
fn fits(rows: &[List<u32>], row: &[u32], evidence: &Evidence, function: usize) -> bool
    ensures { result ≡ spec.fits rows.now row.now evidence.now function }
{
    let down = link_of(evidence.down.as_slice(), function);
    let up = link_of(evidence.up.as_slice(), function);
    leads_up(row, evidence, function)
        && is_link(
            evidence,
            evidence.down.as_slice(),
            function,
            calls_at(rows, down.to, down.at, function),
        )
        && is_link(
            evidence,
            evidence.up.as_slice(),
            function,
            calls_at(rows, function, up.at, up.to),
        )
}

/// Whether the evidence is good. If so, it tells who reaches whom.
pub fn is_evidence(rows: &[List<u32>], evidence: &Evidence) -> bool
    ensures { result ≡ spec.is_evidence rows.now evidence.now }
{
    for (function, row) in rows.iter().enumerate() {
        if !fits(rows, row.as_slice(), evidence, function) {
            return false;
        }
    }
    true
}

/// Whether the callee of an edge reaches its caller, by good evidence: they have one component.
pub(crate) fn is_back(evidence: &Evidence, caller: usize, callee: usize) -> bool
    ensures { result ≡ spec.is_back evidence.now caller callee }
{
    component(evidence, caller) == component(evidence, callee)
}
