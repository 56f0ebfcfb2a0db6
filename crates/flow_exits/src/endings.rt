//! The graph of a function whose ends give no value, where all that it gives is nothing.

ghost use Rattle.std.specs.Prelude.{◌≡◌, ◌<◌, ◌||◌, ℕ, List as Items, length, map, IfOk};
ghost use Rattle.flow_exits.specs.Ended as ended;
ghost use Rattle.flow_exits.specs.Exits as exits;
ghost use Rattle.flow_graph.specs.Conditions.{AllFine};
ghost use Rattle.layout_base.specs.Seen as placed;
ghost use Rattle.layout_lookup.specs.Seen as looked;
ghost use Rattle.sc_flow.specs.Seen as seen;
ghost use Rattle.sc_gather.specs.Seen.{meaning};
ghost use Rattle.sc_world.specs.Source.{Struct};
ghost use Rattle.sc_world.specs.Tree as tree;
ghost use Rattle.sc_world.specs.View.{exp, type};
ghost use Rattle.flow_exits.specs.Marks as marks;

use crate::marks::{mark, marked, unmarked};
use layout_lookup::{Lookup, Placed};
use sc_base::{List, OutOfMemory};
use sc_flow::{Expression, Flow, Node, Want};
use sc_gather::{Context, Effect, is_void};
use sc_tree::ctype::CType;
use sc_typed::{TExpr, What};
use std::alloc::Global;

// Whether it is an array.
fn is_array(t: &CType) -> bool
    ensures { result ≡ tree.is_array (type t.now) }
{
    matches!(t, CType::Array(_, _))
}

// Whether an expression of the text casts what is no array to `void`.
fn text_casts_away(here: &Context, e: &TExpr) -> bool
    ensures { result ≡ exits.casts_away (exp (seen.structs_of here.now) e.now) }
{
    match &e.what {
        What::Comma(_, b) => text_casts_away(here, b.get()),
        What::Cast(a) | What::Convert(a) => is_void(&e.ctype) && !is_array(here.type_of(a.get())),
        What::Assign(_, _, _, _) | What::Cond(_, _, _) | What::Binary(_, _, _) => false,
        What::Index(_, _) | What::Call(_, _) | What::Unary(_, _) => false,
        What::PreInc(_, _) | What::PostInc(_, _) | What::SizeofExpr(_, _) => false,
        What::Field(_, _, _, _) | What::SizeofType(_) | What::Int(_) | What::Char(_) => false,
        What::Param(_) | What::Local(_) | What::Global(_) | What::Function(_, _) => false,
        What::Str(_) | What::Temp(_) | What::TempPlace(_) => false,
    }
}

// Whether the expression of a node casts what is no array to `void`.
#[tactic(auto, using(crate::proofs::Emptying::over_casts_away))]
fn casts_away(here: &Context, e: &Expression) -> bool
    ensures { result ≡ exits.casts_away (seen.expression (seen.structs_of here.now) e.now) }
{
    match e {
        Expression::Source(e) => text_casts_away(here, e),
        Expression::Over(e, _, _) => text_casts_away(here, e),
        Expression::Temp(_, _) | Expression::TempPlace(_, _) => false,
        Expression::Former(_, _) | Expression::Truth(_, _) => false,
        Expression::Nothing => true,
    }
}

// What a call does; nothing is known of one that is not found.
fn effect_of(call: Placed) -> Effect
    ensures { meaning result ≡ (looked.placed call.entry).site.effect }
{
    match call.site {
        None => Effect::Unknown,
        Some(site) => site.effect,
    }
}

// Whether a call of type `void` that does this gives nothing.
fn is_without_value(effect: Effect) -> bool
    ensures { result ≡ exits.is_without_value (meaning effect) }
{
    match effect {
        Effect::Operation(_) | Effect::Release | Effect::Ends => true,
        Effect::Known(_) | Effect::Unknown => true,
        Effect::Try(_, _) | Effect::Allocate(_) | Effect::Expect => false,
    }
}

// Whether what a node keeps is nothing.
fn keeps_nothing(here: &Context, layout: &Lookup, node: &Node) -> bool
    ensures { result ≡ exits.keeps_nothing (placed.layout_of layout.now.places.now) (seen.node (seen.structs_of here.now) node.now) }
{
    match node {
        Node::Keep {
            want,
            expression,
            ..
        } => match want {
            Want::Value => casts_away(here, expression),
            Want::Place => false,
        },
        Node::Call { calling, .. } => {
            let effect = effect_of(layout.site_at(calling.place.token));
            is_void(calling.result) && is_without_value(effect)
        }
        Node::KeepCells { .. } | Node::Update { .. } => false,
        Node::Set { .. } | Node::Fill { .. } => false,
        Node::Branch { .. } | Node::Choose { .. } => false,
        Node::Mark { .. } | Node::MarkSwitch { .. } => false,
        Node::Exit { .. } | Node::SetAside { .. } => false,
    }
}

// The temp in which a node keeps something.
fn kept_in(node: &Node) -> Option<u32>
    ensures { (structs : Items Struct) → result ≡ exits.kept_in (seen.node structs node.now) }
{
    match node {
        Node::Keep { temp, .. } | Node::Call { temp, .. } => Some(*temp),
        Node::Update { temp, .. } => Some(*temp),
        Node::KeepCells { .. } | Node::Set { .. } | Node::Fill { .. } => None,
        Node::Branch { .. } | Node::Choose { .. } => None,
        Node::Mark { .. } | Node::MarkSwitch { .. } => None,
        Node::Exit { .. } | Node::SetAside { .. } => None,
    }
}

// The temp whose value the function gives at a node.
fn given_at(here: &Context, node: &Node) -> Option<u32>
    ensures { result ≡ exits.given_at (seen.node (seen.structs_of here.now) node.now) }
{
    let _ = here;
    match node {
        Node::Exit { from } => *from,
        Node::Keep { .. } | Node::KeepCells { .. } | Node::Call { .. } => None,
        Node::Update { .. } | Node::Set { .. } | Node::Fill { .. } => None,
        Node::Branch { .. } | Node::Choose { .. } => None,
        Node::Mark { .. } | Node::MarkSwitch { .. } | Node::SetAside { .. } => None,
    }
}

// Whether a temp is given and marked.
fn is_marked(flags: &[bool], temp: Option<u32>) -> bool
    ensures { result ≡ exits.passes (marks.marked flags.now) temp }
{
    match temp {
        None => false,
        Some(temp) => marked(flags, temp as usize),
    }
}

// Whether what a node keeps in a marked temp is nothing.
fn gives_nothing(flags: &[bool], here: &Context, layout: &Lookup, node: &Node) -> bool
    ensures { result ≡ exits.gives_nothing (placed.layout_of layout.now.places.now) (marks.marked flags.now)
        (seen.node (seen.structs_of here.now) node.now) }
{
    keeps_nothing(here, layout, node) || !is_marked(flags, kept_in(node))
}

// Whether what the nodes keep in marked temps is nothing.
fn all_give_nothing(flags: &[bool], here: &Context, layout: &Lookup, nodes: &[Node]) -> bool
    ensures { result ≡ exits.all_give_nothing (placed.layout_of layout.now.places.now) (marks.marked flags.now)
        (map (seen.node (seen.structs_of here.now)) nodes.now) }
{
    for node in nodes {
        if !gives_nothing(flags, here, layout, node) {
            return false;
        }
    }
    true
}

// Marks the temps whose values the function gives.
#[tactic(auto, using(crate::proofs::Marking::filled_first))]
fn mark_given(flags: &mut [bool], here: &Context, nodes: &[Node])
    ensures { (m : ℕ) → m < length flags.old
        → marks.marked flags.new m ≡ (exits.is_given (map (seen.node (seen.structs_of here.now)) nodes.now) m || marks.marked flags.old m) }
{
    for node in nodes {
        mark(flags, given_at(here, node));
    }
}

// Marks on the temps whose values the function gives, among so many.
fn given(
    alloc: Global,
    here: &Context,
    nodes: &[Node],
    count: usize,
) -> Result<Vec<bool>, OutOfMemory>
    ensures { IfOk result (λ r. (m : ℕ) → m < count
        → marks.marked r.items m ≡ exits.is_given (map (seen.node (seen.structs_of here.now)) nodes.now) m) }
{
    let mut flags = unmarked(alloc, count)?;
    mark_given(&mut flags, here, nodes);
    Ok(flags)
}

// Whether all that the function gives is nothing.
fn gives_only_nothing(
    alloc: Global,
    here: &Context,
    layout: &Lookup,
    flow: &Flow,
) -> Result<bool, OutOfMemory>
    requires fine { AllFine flow.now.temps flow.now.slots (map (seen.node (seen.structs_of here.now)) flow.now.nodes) }
    ensures { IfOk result (λ r. r ≡ exits.all_give_nothing (placed.layout_of layout.now.places.now)
        (exits.is_given (map (seen.node (seen.structs_of here.now)) flow.now.nodes))
        (map (seen.node (seen.structs_of here.now)) flow.now.nodes)) }
{
    let nodes = flow.nodes.as_slice();
    let flags = given(alloc, here, nodes, flow.temps as usize)?;
    Ok(all_give_nothing(&flags, here, layout, nodes))
}

// The node, without the value that the function gives there.
fn without_value<'p>(node: Node<'p>) -> Node<'p>
    ensures { result ≡ ended.ends_without node.entry }
{
    match node {
        Node::Exit { .. } => Node::Exit { from: None },
        Node::Keep { .. } | Node::KeepCells { .. } | Node::Call { .. } => node,
        Node::Update { .. } | Node::Set { .. } | Node::Fill { .. } => node,
        Node::Branch { .. } | Node::Choose { .. } => node,
        Node::Mark { .. } | Node::MarkSwitch { .. } | Node::SetAside { .. } => node,
    }
}

// All of them.
fn emptied<'p>(alloc: Global, nodes: &[Node<'p>]) -> Result<Vec<Node<'p>>, OutOfMemory>
    ensures { IfOk result (λ r. r.items ≡ map (λ n. ended.ends_without n) nodes.now) }
{
    let emptied = nodes
        .iter()
        .map(|node| without_value(*node))
        .collect(alloc)?;
    Ok(emptied)
}

// The nodes, without values where all that they give is nothing.
#[tactic(auto, using(crate::proofs::Emptying::is_emptied, crate::proofs::Emptying::is_as_it_was))]
fn nodes_of<'p>(
    alloc: Global,
    here: &Context,
    layout: &Lookup,
    flow: &Flow<'p>,
) -> Result<Vec<Node<'p>>, OutOfMemory>
    requires fine { AllFine flow.now.temps flow.now.slots (map (seen.node (seen.structs_of here.now)) flow.now.nodes) }
    ensures { IfOk result (λ r. r.items ≡ ended.ended (seen.structs_of here.now) (placed.layout_of layout.now.places.now) flow.now.nodes) }
{
    let nodes = flow.nodes.as_slice();
    let only = gives_only_nothing(alloc, here, layout, flow)?;
    if only {
        let emptied = emptied(alloc, nodes)?;
        Ok(emptied)
    } else {
        let same = Vec::from_slice(alloc, nodes)?;
        Ok(same)
    }
}

/// The graph of which gates are made: the same graph, but where all that it gives is nothing its ends give no value.
pub fn without_values<'p>(
    alloc: Global,
    here: &Context,
    layout: &Lookup,
    flow: &Flow<'p>,
) -> Result<Flow<'p>, OutOfMemory>
    requires fine { AllFine flow.now.temps flow.now.slots (map (seen.node (seen.structs_of here.now)) flow.now.nodes) }
    ensures nodes { IfOk result (λ r. r.nodes ≡ ended.ended (seen.structs_of here.now) (placed.layout_of layout.now.places.now) flow.now.nodes) }
    ensures seen { IfOk result (λ r. seen.flow (seen.structs_of here.now) r
        ≡ exits.ending_flow (placed.layout_of layout.now.places.now) (seen.flow (seen.structs_of here.now) flow.now)) }
{
    let nodes = nodes_of(alloc, here, layout, flow)?;
    Ok(Flow {
        nodes: List::from_vec(nodes),
        temps: flow.temps,
        slots: flow.slots,
    })
}
