//! Nodes of initialisers in braces (C11 6.7.9): those that keep the cells of a value, and those that set the parts of a local to kept cells.

ghost use Rattle.std.specs.Prelude.{◌≡◌, ◌+◌, true, map, if◌then◌else◌, OnOk};
ghost use Rattle.bit_net.specs.Runs.{Grown};
ghost use Rattle.sc_world.specs.View.{given};
ghost use Rattle.sc_world.specs.Eval.{Value, Place'};
ghost use Rattle.flow_graph.specs.Conditions.{temps_of};
ghost use Rattle.flow_graph.specs.Nodes as unrolled;
ghost use Rattle.flow_keeps.specs.Reads.{AllKept};
ghost use Rattle.flow_turns.specs.Before.{AreGates};
ghost use Rattle.sc_flow.specs.Seen as seen;
ghost use Rattle.flow_gates.specs.Graph.{IsBeforeNode, IsThere};
ghost use Rattle.flow_whole.specs.Whole.{HasType, IsOf};

use crate::locals::type_of;
use bit_net::{Net, OutOfMemory};
use flow_fills::{Filling, Giving as Given, Laid, fill as fill_local, keep_cells as give};
use flow_gates::{Graph, Steps};
use flow_keeps::{surely, unkept};
use flow_turns::{Arrival, Before};
use gate_inits::is_scalar;
use sc_flow::{Expression, Numbers, Want};
use sc_typed::TInitItem;

/// A node that keeps the cells of the value of an expression in a slot.
#[derive(Clone, Copy)]
pub struct Giving<'p> {
    pub slot: u32,
    pub expression: Expression<'p>,
    pub next: u32,
}

/// A node that keeps the cells of a value.
pub fn keep_cells<S: Steps>(
    graph: &Graph<S>,
    laid: &Laid,
    before: &mut Before,
    net: &mut Net,
    here: Arrival,
    at: usize,
    giving: &Giving,
) -> Result<(), OutOfMemory>
    requires laid { IsOf (S.source graph.now.steps.now) (S.layout graph.now.steps.now) laid.now }
    requires takes { S.takes graph.now.steps.now giving.now.expression ≡ true }
    requires typed { HasType giving.now.expression }
    requires at { IsThere (S.source graph.now.steps.now) (S.layout graph.now.steps.now) graph.now.flow.now at
        (unrolled.KeepCells giving.now.slot (seen.expression (S.source graph.now.steps.now).structs giving.now.expression) giving.now.next)
        net.old before.old here }
    ensures grown { Grown net.old net.new }
    ensures gates { OnOk result (AreGates net.new before.new) }
    ensures ok { OnOk result (IsBeforeNode (S.source graph.now.steps.now) (S.layout graph.now.steps.now) graph.now.flow.now
        (at + 1) net.new before.new) }
{
    let names = graph.steps.reads(&giving.expression);
    match unkept(&before.temps, names) {
        Some(temp) => {
            before.pass_unread(net, &here, temp as usize);
            Ok(())
        }
        None => {
            cells_read(graph, laid, before, net, here, at, giving)?;
            Ok(())
        }
    }
}

// What is wanted of a value whose cells are kept: the place of an object.
fn wanted(scalar: bool) -> Want
    ensures { seen.want_of result ≡ (if scalar then Value else Place') }
{
    if scalar { Want::Value } else { Want::Place }
}

// The same, where each temp was kept that the node reads.
fn cells_read<S: Steps>(
    graph: &Graph<S>,
    laid: &Laid,
    before: &mut Before,
    net: &mut Net,
    here: Arrival,
    at: usize,
    giving: &Giving,
) -> Result<(), OutOfMemory>
    requires laid { IsOf (S.source graph.now.steps.now) (S.layout graph.now.steps.now) laid.now }
    requires takes { S.takes graph.now.steps.now giving.now.expression ≡ true }
    requires typed { HasType giving.now.expression }
    requires at { IsThere (S.source graph.now.steps.now) (S.layout graph.now.steps.now) graph.now.flow.now at
        (unrolled.KeepCells giving.now.slot (seen.expression (S.source graph.now.steps.now).structs giving.now.expression) giving.now.next)
        net.old before.old here }
    requires kept { AllKept before.old.temps (temps_of (seen.expression (S.source graph.now.steps.now).structs giving.now.expression)) }
    ensures grown { Grown net.old net.new }
    ensures gates { OnOk result (AreGates net.new before.new) }
    ensures ok { OnOk result (IsBeforeNode (S.source graph.now.steps.now) (S.layout graph.now.steps.now) graph.now.flow.now
        (at + 1) net.new before.new) }
{
    let steps = graph.steps;
    let e = &giving.expression;
    let ctype = type_of(laid, *e);
    let want = wanted(is_scalar(ctype));
    let names = steps.reads(e);
    let on = surely(net, &before.temps, here.gate, names)?;
    let made = steps.evaluate(net, &mut before.store, &before.temps, on, want, e)?;
    let given = Given {
        ctype,
        slot: giving.slot as usize,
        next: giving.next as usize,
    };
    give(laid, before, net, here, made, &given)?;
    Ok(())
}

/// A node that sets the parts of a local to the cells in slots.
#[derive(Clone, Copy)]
pub struct Parts<'p> {
    pub local: u32,
    pub items: &'p [TInitItem],
    pub slots: Numbers,
    pub next: u32,
}

/// A node that sets the parts of a local to kept cells, and the rest to 0 or null.
pub fn fill<S: Steps>(
    graph: &Graph<S>,
    laid: &Laid,
    before: &mut Before,
    net: &mut Net,
    here: Arrival,
    at: usize,
    parts: &Parts,
) -> Result<(), OutOfMemory>
    requires laid { IsOf (S.source graph.now.steps.now) (S.layout graph.now.steps.now) laid.now }
    requires at { IsThere (S.source graph.now.steps.now) (S.layout graph.now.steps.now) graph.now.flow.now at
        (unrolled.Fill parts.now.local (map (given (S.source graph.now.steps.now).structs) parts.now.items.now)
        (seen.all_of parts.now.slots) parts.now.next)
        net.old before.old here }
    ensures grown { Grown net.old net.new }
    ensures gates { OnOk result (AreGates net.new before.new) }
    ensures ok { OnOk result (IsBeforeNode (S.source graph.now.steps.now) (S.layout graph.now.steps.now) graph.now.flow.now
        (at + 1) net.new before.new) }
{
    let location = graph.steps.local(parts.local);
    let filling = Filling {
        at: location,
        items: parts.items,
        first: parts.slots.first,
        count: parts.slots.count,
        next: parts.next as usize,
    };
    fill_local(laid, before, net, here, &filling)?;
    Ok(())
}
