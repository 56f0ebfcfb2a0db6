//! The temps that nodes read.

ghost use Rattle.std.specs.Prelude.{◌≡◌, map};
ghost use Rattle.flow_graph.specs.Conditions.{InTemp, read_by, temps_of};
ghost use Rattle.sc_flow.specs.Seen as seen;
ghost use Rattle.flow_exits.specs.Marks as marks;
ghost use Rattle.flow_fits.specs.Voids as spec;

use crate::text::names_marked;
use flow_exits::marked;
use flow_gates::drops;
use sc_flow::{Expression, Node, Numbers};
use sc_gather::Context;

// Whether each temp is marked that the expression of a node reads.
#[tactic(auto, using(crate::proofs::Named::each_read_named))]
fn expression_reads_marked(flags: &[bool], here: &Context, e: &Expression) -> bool
    ensures { result ≡ spec.each_temp (marks.marked flags.now) (map InTemp (temps_of (seen.expression (seen.structs_of here.now) e.now))) }
{
    names_marked(flags, here, e)
}

// Whether each of these temps is marked.
fn numbers_are_marked(flags: &[bool], numbers: Numbers) -> bool
    ensures { result ≡ spec.each_temp (marks.marked flags.now) (map InTemp (seen.all_of numbers)) }
{
    for k in 0..numbers.count as usize {
        if !marked(flags, numbers.first as usize + k) {
            return false;
        }
    }
    true
}

// Whether each temp is marked that a node reads, if it does not drop what it reads.
fn reads_marked(flags: &[bool], here: &Context, node: &Node) -> bool
    ensures { result ≡ spec.node_reads (marks.marked flags.now) (seen.node (seen.structs_of here.now) node.now) }
{
    match node {
        Node::Keep {
            want,
            expression,
            ..
        } => drops(*want, expression) || expression_reads_marked(flags, here, expression),
        Node::KeepCells { expression, .. } => expression_reads_marked(flags, here, expression),
        Node::Set { expression, .. } => expression_reads_marked(flags, here, expression),
        Node::Call { arguments, .. } => numbers_are_marked(flags, *arguments),
        Node::Update {
            place,
            former,
            right,
            ..
        } => {
            marked(flags, *place as usize)
                && (marked(flags, *former as usize) && marked(flags, *right as usize))
        }
        Node::Branch { from, .. } => marked(flags, *from as usize),
        Node::Choose { from, .. } => marked(flags, *from as usize),
        Node::MarkSwitch { from, .. } => marked(flags, *from as usize),
        Node::Exit { from } => match from {
            None => true,
            Some(from) => marked(flags, *from as usize),
        },
        Node::Fill { .. } => true,
        Node::Mark { .. } | Node::SetAside { .. } => true,
    }
}

/// Whether each temp is marked that one of the nodes reads.
pub fn each_reads_marked(flags: &[bool], here: &Context, nodes: &[Node]) -> bool
    ensures { result ≡ spec.each_read (marks.marked flags.now) (map (seen.node (seen.structs_of here.now)) nodes.now) }
{
    for node in nodes {
        if !reads_marked(flags, here, node) {
            return false;
        }
    }
    true
}
