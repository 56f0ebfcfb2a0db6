//! The test of a whole function.

ghost use Rattle.std.specs.Prelude.{◌≡◌, ◌<◌, ◌^◌, true, length, map, IfOk};
ghost use Rattle.flow_gates.specs.Graph.{CanEncode};
ghost use Rattle.flow_graph.specs.Conditions.{AllFine};
ghost use Rattle.flow_graph.specs.Unrolled as unrolled;
ghost use Rattle.layout_base.specs.Seen as placed;
ghost use Rattle.run_laws.specs.Fits as laws;
ghost use Rattle.sc_flow.specs.Seen as seen;
ghost use Rattle.sc_gather.specs.Seen.{source_of};
ghost use Rattle.sc_world.specs.View.{type};
ghost use Rattle.flow_fits.specs.Encodable as spec;
ghost use Rattle.flow_fits.specs.Voids.{reads_no_void as no_void_in};

use crate::fills::filled;
use crate::reads::each_reads_marked;
use flow_exits::{nodes_stay, without_values};
use flow_graph::nodes_are_fine;
use flow_types::temps_are_of_one_type;
use function_fits::function_fits;
use layout_base::Ground;
use layout_lookup::Lookup;
use sc_base::OutOfMemory;
use sc_flow::{Flow, Node};
use sc_gather::{Context, is_integer, is_pointer};
use sc_tree::ctype::CType;
use std::alloc::Global;

// Whether values of that type are numbers or pointers.
fn is_scalar(t: &CType) -> bool
    ensures { result ≡ laws.is_scalar (type t.now) }
{
    is_integer(t) || is_pointer(t)
}

// Whether the result of the function is a number or a pointer.
#[tactic(auto, unfolding(sc_gather::specs::Seen::source_of, sc_world::specs::Programs::source_by))]
fn has_scalar_result(here: &Context) -> bool
    ensures { result ≡ laws.is_scalar (source_of here.now).result }
{
    match here.function() {
        None => false,
        Some(function) => is_scalar(&function.result),
    }
}

// Whether a function ends at the node with a value.
fn gives(here: &Context, node: &Node) -> bool
    ensures { result ≡ spec.gives (seen.node (seen.structs_of here.now) node.now) }
{
    let _ = here;
    match node {
        Node::Exit { from } => match from {
            None => false,
            Some(_) => true,
        },
        Node::Keep { .. } | Node::KeepCells { .. } | Node::Call { .. } => false,
        Node::Update { .. } | Node::Set { .. } | Node::Fill { .. } => false,
        Node::Branch { .. } | Node::Choose { .. } => false,
        Node::Mark { .. } | Node::MarkSwitch { .. } | Node::SetAside { .. } => false,
    }
}

// Whether a function ends at none of the nodes with a value.
fn gives_none(here: &Context, nodes: &[Node]) -> bool
    ensures { result ≡ spec.gives_none (map (seen.node (seen.structs_of here.now)) nodes.now) }
{
    for node in nodes {
        if gives(here, node) {
            return false;
        }
    }
    true
}

// Whether a function that gives a value gives a number or a pointer.
fn gives_scalars(here: &Context, flow: &Flow) -> bool
    ensures { result ≡ spec.gives_scalars (source_of here.now) (map (seen.node (seen.structs_of here.now)) flow.now.nodes) }
{
    has_scalar_result(here) || gives_none(here, flow.nodes.as_slice())
}

// Whether some node keeps something in each temp that is read.
fn reads_no_void(alloc: Global, here: &Context, flow: &Flow) -> Result<bool, OutOfMemory>
    requires fine { AllFine flow.now.temps flow.now.slots (map (seen.node (seen.structs_of here.now)) flow.now.nodes) }
    ensures { IfOk result (λ r. r ≡ no_void_in (map (seen.node (seen.structs_of here.now)) flow.now.nodes)) }
{
    let nodes = flow.nodes.as_slice();
    let flags = filled(alloc, here, nodes, flow.temps as usize)?;
    Ok(each_reads_marked(&flags, here, nodes))
}

/// Whether the function at hand has gates: it fits its layout, none of its nodes reads a value of type `void` but to drop it, and
/// if it gives a value, that is a number or a pointer, or nothing that a call of type `void` gives. `flow` is its graph. Besides the test of
/// its text this takes time that is linear in the text of all nodes.
#[tactic(auto, unfolding(layout_base::specs::Seen::ground_of))]
pub fn can_encode<'p, 'm, 'f>(
    alloc: Global,
    ground: &Ground<'p, 'm, 'f>,
    layout: &Lookup<'p, 'f>,
    flow: &Flow<'p>,
) -> Result<bool, OutOfMemory>
    requires few { length (placed.layout_of layout.now.places.now).locations < 2 ^ 32 }
    requires unrolled { seen.flow (placed.ground_of ground.now).source.structs flow.now ≡ unrolled.flow (placed.ground_of ground.now).source }
    ensures exactly { IfOk result (λ can. can ≡ spec.can_encode
        (placed.ground_of ground.now).source (placed.layout_of layout.now.places.now)) }
    ensures can { IfOk result (λ can. can ≡ true → CanEncode
        (placed.ground_of ground.now).source (placed.layout_of layout.now.places.now)) }
{
    temps_are_of_one_type();
    nodes_are_fine();
    nodes_stay();
    if !function_fits(ground, layout) {
        return Ok(false);
    }
    let ended = without_values(alloc, ground.here, layout, flow)?;
    if !gives_scalars(ground.here, &ended) {
        return Ok(false);
    }
    let can = reads_no_void(alloc, ground.here, &ended)?;
    Ok(can)
}
