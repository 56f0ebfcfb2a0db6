//! The temps in which nodes keep something.

ghost use Rattle.std.specs.Prelude.{◌≡◌, ◌<◌, ◌||◌, ℕ, length, map, IfOk};
ghost use Rattle.flow_graph.specs.Nodes as graph;
ghost use Rattle.sc_flow.specs.Seen as seen;
ghost use Rattle.sc_world.specs.Tree as tree;
ghost use Rattle.flow_exits.specs.Marks as marks;
ghost use Rattle.flow_fits.specs.Voids as spec;

use flow_exits::{mark, unmarked};
use sc_base::OutOfMemory;
use sc_flow::{Expression, Node, Want};
use sc_gather::{Context, is_void};
use std::alloc::Global;

// Whether the expression of a node is of type `void`.
#[tactic(auto, using(crate::proofs::Types::over_type, crate::proofs::Types::scalar_is_something))]
fn is_of_void(here: &Context, e: &Expression) -> bool
    ensures { result ≡ tree.is_void (tree.type_of (seen.expression (seen.structs_of here.now) e.now)) }
{
    match e {
        Expression::Source(e) => is_void(here.type_of(e)),
        Expression::Over(e, _, _) => is_void(here.type_of(e)),
        Expression::Temp(_, t) => is_void(t),
        Expression::TempPlace(_, t) => is_void(t),
        Expression::Former(_, _) => false,
        Expression::Truth(_, t) => is_void(t),
        Expression::Nothing => true,
    }
}

// The temp that a node fills which keeps what is wanted of an expression.
fn kept_in(here: &Context, want: Want, temp: u32, e: &Expression) -> Option<u32>
    ensures { (next : ℕ) → result ≡ spec.filled_by (graph.Keep (seen.want_of want) temp (seen.expression (seen.structs_of here.now) e.now) next) }
{
    match want {
        Want::Place => Some(temp),
        Want::Value => {
            if is_of_void(here, e) {
                None
            } else {
                Some(temp)
            }
        }
    }
}

// The temp in which a node keeps something.
fn filled_by(here: &Context, node: &Node) -> Option<u32>
    ensures { result ≡ spec.filled_by (seen.node (seen.structs_of here.now) node.now) }
{
    match node {
        Node::Keep {
            want,
            temp,
            expression,
            ..
        } => kept_in(here, *want, *temp, expression),
        Node::Call { calling, temp, .. } => {
            if is_void(calling.result) {
                None
            } else {
                Some(*temp)
            }
        }
        Node::Update { temp, .. } => Some(*temp),
        Node::KeepCells { .. } | Node::Set { .. } | Node::Fill { .. } => None,
        Node::Branch { .. } | Node::Choose { .. } => None,
        Node::Mark { .. } | Node::MarkSwitch { .. } => None,
        Node::Exit { .. } | Node::SetAside { .. } => None,
    }
}

// Marks the temps that the nodes fill.
#[tactic(auto, using(flow_exits::proofs::Marking::filled_first))]
fn mark_filled(flags: &mut [bool], here: &Context, nodes: &[Node])
    ensures { (m : ℕ) → m < length flags.old
        → marks.marked flags.new m ≡ (spec.is_filled (map (seen.node (seen.structs_of here.now)) nodes.now) m || marks.marked flags.old m) }
{
    for node in nodes {
        mark(flags, filled_by(here, node));
    }
}

/// Marks on the temps that the nodes fill, among so many.
pub fn filled(
    alloc: Global,
    here: &Context,
    nodes: &[Node],
    count: usize,
) -> Result<Vec<bool>, OutOfMemory>
    ensures { IfOk result (λ r. (m : ℕ) → m < count
        → marks.marked r.items m ≡ spec.is_filled (map (seen.node (seen.structs_of here.now)) nodes.now) m) }
{
    let mut flags = unmarked(alloc, count)?;
    mark_filled(&mut flags, here, nodes);
    Ok(flags)
}
