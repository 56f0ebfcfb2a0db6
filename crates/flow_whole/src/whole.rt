//! The way over all nodes of a graph.

ghost use Rattle.std.specs.Prelude.{◌≡◌, ◌+◌, ◌<◌, ◌≤◌, ◌^◌, Bool, Some, List as Items, length, map, slice_get, IfOk, OnOk};
ghost use Rattle.bit_net.specs.Circuit.{input_count};
ghost use Rattle.bit_net.specs.Runs.{Grown};
ghost use Rattle.gl_store.specs.Meets.{locations_top, val_top};
ghost use Rattle.gl_store.specs.Steps.{IsBlank};
ghost use Rattle.sc_world.specs.Source.{Struct};
ghost use Rattle.sc_world.specs.World.{kind_of_type};
ghost use Rattle.flow_exits.specs.Ended.{ended as ended_nodes};
ghost use Rattle.flow_exits.specs.Exits.{ending_flow, flow_in_gates};
ghost use Rattle.flow_graph.specs.Conditions.{AllFine};
ghost use Rattle.flow_graph.specs.Unrolled as spec;
ghost use Rattle.flow_ends.specs.Encoded.{IsEncoded};
ghost use Rattle.flow_turns.specs.Before.{AreGates, IsAt, IsHere};
ghost use Rattle.flow_turns.specs.Ends.{IsEntry};
ghost use Rattle.sc_flow.specs.Seen as seen;
ghost use Rattle.sc_flow.specs.declared.node.Calling.{Calling as Callings};
ghost use Rattle.sc_flow.specs.declared.node.Expression.{Expression as Expressions};
ghost use Rattle.flow_gates.specs.Graph.{CanEncode, IsBeforeNode, IsSmall, IsThere, nodes_of};
ghost use Rattle.flow_whole.specs.Whole.{AllHaveGates, Assigns, HasGates, IsOf, MakesStep, Turns};

use crate::braces::{Giving, Parts, fill, keep_cells};
use crate::locals::set;
use crate::updates::{Updates, update};
use bit_net::{Net, OutOfMemory};
use flow_ends::Encoded;
use flow_exits::{nodes_stay, walks_stay, without_values};
use flow_fills::Laid;
use flow_gates::{Calls, Graph, Keeping, Setting, Steps, call, keep};
use flow_graph::{nodes_are_fine, there_is_no_cycle, walks_are_runs, what_is_read_was_kept};
use flow_turns::{Arrival, Before};
use flow_updates::Assignment;
use gl_sets::is_never;
use gl_store::{Store, Val};
use sc_flow::{Flow, Node};

// The node with that number.
fn node_at<'p>(flow: &Flow<'p>, at: usize) -> Node<'p>
    requires { at < length flow.now.nodes }
    ensures is { (structs : Items Struct) → slice_get (map (seen.node structs) flow.now.nodes) at ≡ Some (seen.node structs result) }
    ensures gates { (takes : Expressions → Bool) (makes : Callings → Bool) → AllHaveGates takes makes flow.now.nodes → HasGates takes makes result }
{
    flow.nodes.as_slice()[at]
}

// The number of a temp.
fn number_of(temp: Option<u32>) -> Option<usize>
    ensures { result ≡ temp }
{
    match temp {
        None => None,
        Some(temp) => Some(temp as usize),
    }
}

// What a node does that evaluates an expression or makes a call.
fn step<S: Steps>(
    graph: &Graph<S>,
    laid: &Laid,
    before: &mut Before,
    net: &mut Net,
    here: Arrival,
    at: usize,
    node: Node,
) -> Result<(), OutOfMemory>
    requires laid { IsOf (S.source graph.now.steps.now) (S.layout graph.now.steps.now) laid.now }
    requires step { MakesStep node }
    requires have { HasGates (S.takes graph.now.steps.now) (S.makes graph.now.steps.now) node }
    requires at { IsThere (S.source graph.now.steps.now) (S.layout graph.now.steps.now) graph.now.flow.now at
        (seen.node (S.source graph.now.steps.now).structs node) net.old before.old here }
    ensures grown { Grown net.old net.new }
    ensures gates { OnOk result (AreGates net.new before.new) }
    ensures ok { OnOk result (IsBeforeNode (S.source graph.now.steps.now) (S.layout graph.now.steps.now) graph.now.flow.now
        (at + 1) net.new before.new) }
{
    match node {
        Node::Keep {
            want,
            temp,
            expression,
            next,
        } => {
            let keeping = Keeping {
                want,
                temp,
                expression,
                next,
            };
            keep(graph, before, net, here, at, &keeping)?;
            Ok(())
        }
        Node::Set {
            local,
            expression,
            next,
        } => {
            let setting = Setting {
                local,
                expression,
                next,
            };
            set(graph, laid, before, net, here, at, &setting)?;
            Ok(())
        }
        Node::Call {
            calling,
            arguments,
            temp,
            next,
        } => {
            let calls = Calls {
                calling,
                arguments,
                temp,
                next,
            };
            call(graph, before, net, here, at, &calls)?;
            Ok(())
        }
        Node::Branch { .. } => unreachable!(),
        Node::Choose { .. } => unreachable!(),
        Node::Mark { .. } => unreachable!(),
        Node::MarkSwitch { .. } => unreachable!(),
        Node::Exit { .. } => unreachable!(),
        Node::SetAside { .. } => unreachable!(),
        Node::KeepCells { .. } => unreachable!(),
        Node::Update { .. } => unreachable!(),
        Node::Fill { .. } => unreachable!(),
    }
}

// What a node does that keeps cells, sets an object to kept cells, or assigns by an operator.
fn change<S: Steps>(
    graph: &Graph<S>,
    laid: &Laid,
    before: &mut Before,
    net: &mut Net,
    here: Arrival,
    at: usize,
    node: Node,
) -> Result<(), OutOfMemory>
    requires laid { IsOf (S.source graph.now.steps.now) (S.layout graph.now.steps.now) laid.now }
    requires step { Assigns node }
    requires have { HasGates (S.takes graph.now.steps.now) (S.makes graph.now.steps.now) node }
    requires at { IsThere (S.source graph.now.steps.now) (S.layout graph.now.steps.now) graph.now.flow.now at
        (seen.node (S.source graph.now.steps.now).structs node) net.old before.old here }
    ensures grown { Grown net.old net.new }
    ensures gates { OnOk result (AreGates net.new before.new) }
    ensures ok { OnOk result (IsBeforeNode (S.source graph.now.steps.now) (S.layout graph.now.steps.now) graph.now.flow.now
        (at + 1) net.new before.new) }
{
    match node {
        Node::Update {
            updating,
            want,
            place,
            former,
            right,
            temp,
            next,
        } => {
            let assignment = Assignment {
                updating,
                want,
                place,
                former,
                right,
            };
            let updates = Updates {
                assignment,
                temp,
                next,
            };
            update(graph, laid, before, net, here, at, &updates)?;
            Ok(())
        }
        Node::KeepCells {
            slot,
            expression,
            next,
        } => {
            let giving = Giving {
                slot,
                expression,
                next,
            };
            keep_cells(graph, laid, before, net, here, at, &giving)?;
            Ok(())
        }
        Node::Fill {
            local,
            items,
            slots,
            next,
        } => {
            let parts = Parts {
                local,
                items,
                slots,
                next,
            };
            fill(graph, laid, before, net, here, at, &parts)?;
            Ok(())
        }
        Node::Keep { .. } => unreachable!(),
        Node::Set { .. } => unreachable!(),
        Node::Call { .. } => unreachable!(),
        Node::Branch { .. } => unreachable!(),
        Node::Choose { .. } => unreachable!(),
        Node::Mark { .. } => unreachable!(),
        Node::MarkSwitch { .. } => unreachable!(),
        Node::Exit { .. } => unreachable!(),
        Node::SetAside { .. } => unreachable!(),
    }
}

// What a node does that only leads on, ends the run or leaves the function.
fn turn<S: Steps>(
    graph: &Graph<S>,
    before: &mut Before,
    net: &mut Net,
    here: Arrival,
    at: usize,
    node: Node,
) -> Result<(), OutOfMemory>
    requires turn { Turns node }
    requires at { IsThere (S.source graph.now.steps.now) (S.layout graph.now.steps.now) graph.now.flow.now at
        (seen.node (S.source graph.now.steps.now).structs node) net.old before.old here }
    ensures grown { Grown net.old net.new }
    ensures gates { OnOk result (AreGates net.new before.new) }
    ensures ok { OnOk result (IsBeforeNode (S.source graph.now.steps.now) (S.layout graph.now.steps.now) graph.now.flow.now
        (at + 1) net.new before.new) }
{
    match node {
        Node::Branch { from, hit, miss } => {
            before.branch(net, here, from as usize, None, hit as usize, miss as usize)?;
            Ok(())
        }
        Node::Choose {
            from,
            number,
            hit,
            miss,
        } => {
            let (from, number) = (from as usize, Some(number));
            before.branch(net, here, from, number, hit as usize, miss as usize)?;
            Ok(())
        }
        Node::Mark { next, .. } => {
            before.mark(net, here, next as usize)?;
            Ok(())
        }
        Node::MarkSwitch { next, .. } => {
            before.mark(net, here, next as usize)?;
            Ok(())
        }
        Node::Exit { from } => {
            before.exit(net, here, number_of(from))?;
            Ok(())
        }
        Node::SetAside { .. } => {
            before.set_aside(net, here)?;
            Ok(())
        }
        Node::Keep { .. } => unreachable!(),
        Node::Set { .. } => unreachable!(),
        Node::Call { .. } => unreachable!(),
        Node::KeepCells { .. } => unreachable!(),
        Node::Update { .. } => unreachable!(),
        Node::Fill { .. } => unreachable!(),
    }
}

// What a node does, where the ways to it were taken.
fn act<S: Steps>(
    graph: &Graph<S>,
    laid: &Laid,
    before: &mut Before,
    net: &mut Net,
    here: Arrival,
    at: usize,
) -> Result<(), OutOfMemory>
    requires laid { IsOf (S.source graph.now.steps.now) (S.layout graph.now.steps.now) laid.now }
    requires place { at < length graph.now.flow.now.nodes }
    requires small { IsSmall (S.layout graph.now.steps.now) net.old }
    requires have { AllHaveGates (S.takes graph.now.steps.now) (S.makes graph.now.steps.now) graph.now.flow.now.nodes }
    requires gates { AreGates net.old before.old }
    requires here { IsHere net.old here }
    requires at { IsAt (S.source graph.now.steps.now) (S.layout graph.now.steps.now)
        (nodes_of (S.source graph.now.steps.now) graph.now.flow.now) at net.old before.old here }
    ensures grown { Grown net.old net.new }
    ensures gates { OnOk result (AreGates net.new before.new) }
    ensures ok { OnOk result (IsBeforeNode (S.source graph.now.steps.now) (S.layout graph.now.steps.now) graph.now.flow.now
        (at + 1) net.new before.new) }
{
    let node = node_at(graph.flow, at);
    match node {
        Node::Keep { .. } => {
            step(graph, laid, before, net, here, at, node)?;
            Ok(())
        }
        Node::Set { .. } => {
            step(graph, laid, before, net, here, at, node)?;
            Ok(())
        }
        Node::Call { .. } => {
            step(graph, laid, before, net, here, at, node)?;
            Ok(())
        }
        Node::KeepCells { .. } => {
            change(graph, laid, before, net, here, at, node)?;
            Ok(())
        }
        Node::Update { .. } => {
            change(graph, laid, before, net, here, at, node)?;
            Ok(())
        }
        Node::Fill { .. } => {
            change(graph, laid, before, net, here, at, node)?;
            Ok(())
        }
        Node::Branch { .. } => {
            turn(graph, before, net, here, at, node)?;
            Ok(())
        }
        Node::Choose { .. } => {
            turn(graph, before, net, here, at, node)?;
            Ok(())
        }
        Node::Mark { .. } => {
            turn(graph, before, net, here, at, node)?;
            Ok(())
        }
        Node::MarkSwitch { .. } => {
            turn(graph, before, net, here, at, node)?;
            Ok(())
        }
        Node::Exit { .. } => {
            turn(graph, before, net, here, at, node)?;
            Ok(())
        }
        Node::SetAside { .. } => {
            turn(graph, before, net, here, at, node)?;
            Ok(())
        }
    }
}

// Goes past a node.
fn visit<S: Steps>(
    graph: &Graph<S>,
    laid: &Laid,
    before: &mut Before,
    net: &mut Net,
    at: usize,
) -> Result<(), OutOfMemory>
    requires laid { IsOf (S.source graph.now.steps.now) (S.layout graph.now.steps.now) laid.now }
    requires place { at < length graph.now.flow.now.nodes }
    requires small { IsSmall (S.layout graph.now.steps.now) net.old }
    requires have { AllHaveGates (S.takes graph.now.steps.now) (S.makes graph.now.steps.now) graph.now.flow.now.nodes }
    requires gates { AreGates net.old before.old }
    requires before { IsBeforeNode (S.source graph.now.steps.now) (S.layout graph.now.steps.now) graph.now.flow.now
        at net.old before.old }
    ensures grown { Grown net.old net.new }
    ensures gates { OnOk result (AreGates net.new before.new) }
    ensures ok { OnOk result (IsBeforeNode (S.source graph.now.steps.now) (S.layout graph.now.steps.now) graph.now.flow.now
        (at + 1) net.new before.new) }
{
    let here = before.arrive(net, at)?;
    if is_never(net, here.gate) {
        let _node = node_at(graph.flow, at);
        before.pass(net, &here);
        return Ok(());
    }
    act(graph, laid, before, net, here, at)?;
    Ok(())
}

// The same, over the graph whose ends give no value where all that it gives is nothing.
fn encode_ended<S: Steps>(
    graph: &Graph<S>,
    laid: &Laid,
    net: &mut Net,
    entry: Store,
    blank: Val,
    locations: usize,
) -> Result<Encoded, OutOfMemory>
    requires laid { IsOf (S.source graph.now.steps.now) (S.layout graph.now.steps.now) laid.now }
    requires unrolled { seen.flow (S.source graph.now.steps.now).structs graph.now.flow.now
        ≡ flow_in_gates (S.source graph.now.steps.now) (S.layout graph.now.steps.now) }
    requires small { IsSmall (S.layout graph.now.steps.now) net.old }
    requires inputs { input_count net.old ≡ (S.layout graph.now.steps.now).bits }
    requires have { AllHaveGates (S.takes graph.now.steps.now) (S.makes graph.now.steps.now) graph.now.flow.now.nodes }
    requires can { CanEncode (S.source graph.now.steps.now) (S.layout graph.now.steps.now) }
    requires below { locations_top entry.locations.items ≤ length net.old }
    requires entry { IsEntry (S.source graph.now.steps.now) (S.layout graph.now.steps.now) net.old entry }
    requires blank { IsBlank net.old (kind_of_type (S.source graph.now.steps.now) (Some (S.source graph.now.steps.now).result)) blank }
    requires locations { length (S.layout graph.now.steps.now).locations ≡ locations }
    ensures grown { Grown net.old net.new }
    ensures ok { IfOk result (λ r. IsEncoded (S.source graph.now.steps.now) (S.layout graph.now.steps.now) net.new r) }
{
    there_is_no_cycle();
    nodes_are_fine();
    what_is_read_was_kept();
    walks_are_runs();
    walks_stay();
    nodes_stay();
    let (temps, slots) = (graph.flow.temps as usize, graph.flow.slots as usize);
    let mut before = Before::begin(net, entry, blank, locations, temps, slots)?;
    for at in 0..graph.flow.nodes.len() {
        visit(graph, laid, &mut before, net, at)?;
    }
    Ok(before.finish(net))
}

// The graph, whose ends give no value where all that it gives is nothing.
#[tactic(auto, unfolding(run_world::specs::Seen::env, layout_base::specs::Seen::ground_of))]
fn ended<'p, 'm, 'f, S: Steps>(
    graph: &Graph<'_, 'p, S>,
    laid: &Laid<'_, 'p, 'm, 'f>,
    net: &Net,
) -> Result<Flow<'p>, OutOfMemory>
    requires laid { IsOf (S.source graph.now.steps.now) (S.layout graph.now.steps.now) laid.now }
    requires fine { AllFine graph.now.flow.now.temps graph.now.flow.now.slots (nodes_of (S.source graph.now.steps.now) graph.now.flow.now) }
    ensures nodes { IfOk result (λ r. r.nodes ≡ ended_nodes (S.source graph.now.steps.now).structs (S.layout graph.now.steps.now) graph.now.flow.now.nodes) }
    ensures seen { IfOk result (λ r. seen.flow (S.source graph.now.steps.now).structs r
        ≡ ending_flow (S.layout graph.now.steps.now) (seen.flow (S.source graph.now.steps.now).structs graph.now.flow.now)) }
{
    let here = laid.here;
    match without_values(net.alloc(), here.ground.here, laid.layout, graph.flow) {
        Ok(flow) => Ok(flow),
        Err(_) => Err(OutOfMemory),
    }
}

/// The gates of all runs of a function, from the gates of its store at entry. `laid` has the look-ups in its layout, which has so many
/// locations; `blank` is what the function gives if it ends without a value.
pub fn encode<S: Steps>(
    graph: &Graph<S>,
    laid: &Laid,
    net: &mut Net,
    entry: Store,
    blank: Val,
    locations: usize,
) -> Result<Encoded, OutOfMemory>
    requires laid { IsOf (S.source graph.now.steps.now) (S.layout graph.now.steps.now) laid.now }
    requires unrolled { seen.flow (S.source graph.now.steps.now).structs graph.now.flow.now ≡ spec.flow (S.source graph.now.steps.now) }
    requires small { IsSmall (S.layout graph.now.steps.now) net.old }
    requires inputs { input_count net.old ≡ (S.layout graph.now.steps.now).bits }
    requires have { AllHaveGates (S.takes graph.now.steps.now) (S.makes graph.now.steps.now) graph.now.flow.now.nodes }
    requires can { CanEncode (S.source graph.now.steps.now) (S.layout graph.now.steps.now) }
    requires below { locations_top entry.locations.items ≤ length net.old }
    requires entry { IsEntry (S.source graph.now.steps.now) (S.layout graph.now.steps.now) net.old entry }
    requires blank { IsBlank net.old (kind_of_type (S.source graph.now.steps.now) (Some (S.source graph.now.steps.now).result)) blank }
    requires locations { length (S.layout graph.now.steps.now).locations ≡ locations }
    ensures grown { Grown net.old net.new }
    ensures ok { IfOk result (λ r. IsEncoded (S.source graph.now.steps.now) (S.layout graph.now.steps.now) net.new r) }
{
    nodes_are_fine();
    let flow = ended(graph, laid, net)?;
    let graph = Graph {
        steps: graph.steps,
        flow: &flow,
    };
    let made = encode_ended(&graph, laid, net, entry, blank, locations);
    let Graph {
        steps: _steps,
        flow: _flow,
    } = graph;
    made
}
