//! Which nodes have gates.

ghost use Rattle.std.specs.Prelude.{◌≡◌, true};
ghost use Rattle.flow_whole.specs.Whole.{AllHaveGates};
ghost use Rattle.expr_fits.specs.Around as walk;
ghost use Rattle.tr_flow.specs.Seen.{source_of, layout_of};
ghost use Rattle.tr_flow.specs.Taken as spec;

use crate::stepping::Stepping;
use crate::taken::{has_type, takes};
use expr_fits::Around;
use run_values::is_logical;
use run_world::Here;
use sc_flow::{Flow, Node};
use tr_call::can_call;

// Whether a node has gates.
fn has_gates(around: &Around, node: &Node) -> bool
    ensures { result ≡ spec.node_has (walk.source_of around.now) (walk.looked_in around.now) node.now }
{
    match node {
        Node::Keep { expression, .. } => takes(around, expression),
        Node::KeepCells { expression, .. } | Node::Set { expression, .. } => {
            takes(around, expression) && has_type(expression)
        }
        Node::Update { updating, .. } => !is_logical(updating.op),
        Node::Call { calling, .. } => can_call(around.here, around.layout, calling),
        Node::Fill { .. } | Node::Branch { .. } | Node::Choose { .. } => true,
        Node::Mark { .. } | Node::MarkSwitch { .. } => true,
        Node::Exit { .. } | Node::SetAside { .. } => true,
    }
}

// Whether all nodes of a graph pass the test.
#[tactic(auto, unfolding(run_world::specs::Seen::env))]
fn all_pass(steps: &Stepping, flow: &Flow) -> bool
    ensures { result ≡ spec.all_have (source_of steps.now) (layout_of steps.now) flow.now.nodes }
{
    let here = Here {
        ground: steps.given,
        places: steps.layout.places,
        choice: &[],
        turn: 0,
    };
    let around = Around {
        here: &here,
        layout: steps.layout,
        temps: &[],
    };
    flow.nodes
        .as_slice()
        .iter()
        .all(|node| has_gates(&around, node))
}

/// Whether all nodes of a graph have gates.
pub fn all_have_gates(steps: &Stepping, flow: &Flow) -> bool
    ensures exactly { result ≡ spec.all_have (source_of steps.now) (layout_of steps.now) flow.now.nodes }
    ensures gates { result ≡ true → AllHaveGates (spec.takes (source_of steps.now)) (spec.makes (source_of steps.now) (layout_of steps.now))
        flow.now.nodes }
{
    all_pass(steps, flow)
}
