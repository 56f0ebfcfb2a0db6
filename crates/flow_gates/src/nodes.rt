//! Nodes that make a step.

ghost use Rattle.std.specs.Prelude.{◌≡◌, ◌+◌, true, false, OnOk, MatchOption};
ghost use Rattle.bit_net.specs.Runs.{Grown};
ghost use Rattle.run_laws.specs.Fits.{is_scalar};
ghost use Rattle.sc_world.specs.Tree.{type_of};
ghost use Rattle.flow_graph.specs.Conditions.{temps_of};
ghost use Rattle.flow_graph.specs.Nodes as unrolled;
ghost use Rattle.flow_keeps.specs.Reads.{AllKept, IsNamed, named as temps_in};
ghost use Rattle.flow_turns.specs.Before.{AreGates, drops as is_dropped};
ghost use Rattle.flow_turns.specs.Kept.{is_kept};
ghost use Rattle.sc_flow.specs.Seen as seen;
ghost use Rattle.flow_gates.specs.Graph.{IsBeforeNode, IsThere};

use crate::dropping::drops;
use crate::steps::{Graph, Steps};
use bit_net::{Net, OutOfMemory};
use flow_keeps::{Reads, keep as keep_value, set as set_value, surely, unkept, was_kept};
use flow_turns::{Arrival, Before, Temps};
use sc_flow::{Calling, Expression, Numbers, Want};

/// A node that keeps the value of an expression, or its place, in a temp.
#[derive(Clone, Copy)]
pub struct Keeping<'p> {
    pub want: Want,
    pub temp: u32,
    pub expression: Expression<'p>,
    pub next: u32,
}

/// A node that sets a local to one value.
#[derive(Clone, Copy)]
pub struct Setting<'p> {
    pub local: u32,
    pub expression: Expression<'p>,
    pub next: u32,
}

/// A node that keeps the value of an expression, or its place.
pub fn keep<S: Steps>(
    graph: &Graph<S>,
    before: &mut Before,
    net: &mut Net,
    here: Arrival,
    at: usize,
    keeping: &Keeping,
) -> Result<(), OutOfMemory>
    requires takes { S.takes graph.now.steps.now keeping.now.expression ≡ true }
    requires at { IsThere (S.source graph.now.steps.now) (S.layout graph.now.steps.now) graph.now.flow.now at
        (unrolled.Keep (seen.want_of keeping.now.want) keeping.now.temp
        (seen.expression (S.source graph.now.steps.now).structs keeping.now.expression) keeping.now.next)
        net.old before.old here }
    ensures grown { Grown net.old net.new }
    ensures gates { OnOk result (AreGates net.new before.new) }
    ensures ok { OnOk result (IsBeforeNode (S.source graph.now.steps.now) (S.layout graph.now.steps.now) graph.now.flow.now
        (at + 1) net.new before.new) }
{
    if drops(keeping.want, &keeping.expression) {
        before.skip(net, here, keeping.next as usize)?;
        return Ok(());
    }
    let names = graph.steps.reads(&keeping.expression);
    match unkept(&before.temps, names) {
        Some(temp) => {
            before.pass_unread(net, &here, temp as usize);
            Ok(())
        }
        None => {
            keep_read(graph, before, net, here, at, keeping, names)?;
            Ok(())
        }
    }
}

// The same, where each temp was kept that the node reads.
fn keep_read<S: Steps>(
    graph: &Graph<S>,
    before: &mut Before,
    net: &mut Net,
    here: Arrival,
    at: usize,
    keeping: &Keeping,
    names: Reads,
) -> Result<(), OutOfMemory>
    requires goes { is_dropped (unrolled.Keep (seen.want_of keeping.now.want) keeping.now.temp
        (seen.expression (S.source graph.now.steps.now).structs keeping.now.expression) keeping.now.next) ≡ false }
    requires takes { S.takes graph.now.steps.now keeping.now.expression ≡ true }
    requires at { IsThere (S.source graph.now.steps.now) (S.layout graph.now.steps.now) graph.now.flow.now at
        (unrolled.Keep (seen.want_of keeping.now.want) keeping.now.temp
        (seen.expression (S.source graph.now.steps.now).structs keeping.now.expression) keeping.now.next)
        net.old before.old here }
    requires names { temps_in names ≡ temps_of (seen.expression (S.source graph.now.steps.now).structs keeping.now.expression) }
    requires kept { AllKept before.old.temps (temps_in names) }
    ensures grown { Grown net.old net.new }
    ensures gates { OnOk result (AreGates net.new before.new) }
    ensures ok { OnOk result (IsBeforeNode (S.source graph.now.steps.now) (S.layout graph.now.steps.now) graph.now.flow.now
        (at + 1) net.new before.new) }
{
    let on = surely(net, &before.temps, here.gate, names)?;
    let steps = graph.steps;
    let e = &keeping.expression;
    let made = steps.evaluate(net, &mut before.store, &before.temps, on, keeping.want, e)?;
    keep_value(
        before,
        net,
        here,
        made,
        keeping.temp as usize,
        keeping.next as usize,
    )?;
    Ok(())
}

/// A node that sets a local to a number or a pointer.
pub fn set<S: Steps>(
    graph: &Graph<S>,
    before: &mut Before,
    net: &mut Net,
    here: Arrival,
    at: usize,
    setting: &Setting,
) -> Result<(), OutOfMemory>
    requires takes { S.takes graph.now.steps.now setting.now.expression ≡ true }
    requires scalar { is_scalar (type_of (seen.expression (S.source graph.now.steps.now).structs setting.now.expression)) ≡ true }
    requires at { IsThere (S.source graph.now.steps.now) (S.layout graph.now.steps.now) graph.now.flow.now at
        (unrolled.Set setting.now.local (seen.expression (S.source graph.now.steps.now).structs setting.now.expression) setting.now.next)
        net.old before.old here }
    ensures grown { Grown net.old net.new }
    ensures gates { OnOk result (AreGates net.new before.new) }
    ensures ok { OnOk result (IsBeforeNode (S.source graph.now.steps.now) (S.layout graph.now.steps.now) graph.now.flow.now
        (at + 1) net.new before.new) }
{
    let names = graph.steps.reads(&setting.expression);
    match unkept(&before.temps, names) {
        Some(temp) => {
            before.pass_unread(net, &here, temp as usize);
            Ok(())
        }
        None => {
            set_read(graph, before, net, here, at, setting, names)?;
            Ok(())
        }
    }
}

// The same, where each temp was kept that the node reads.
fn set_read<S: Steps>(
    graph: &Graph<S>,
    before: &mut Before,
    net: &mut Net,
    here: Arrival,
    at: usize,
    setting: &Setting,
    names: Reads,
) -> Result<(), OutOfMemory>
    requires takes { S.takes graph.now.steps.now setting.now.expression ≡ true }
    requires scalar { is_scalar (type_of (seen.expression (S.source graph.now.steps.now).structs setting.now.expression)) ≡ true }
    requires at { IsThere (S.source graph.now.steps.now) (S.layout graph.now.steps.now) graph.now.flow.now at
        (unrolled.Set setting.now.local (seen.expression (S.source graph.now.steps.now).structs setting.now.expression) setting.now.next)
        net.old before.old here }
    requires names { temps_in names ≡ temps_of (seen.expression (S.source graph.now.steps.now).structs setting.now.expression) }
    requires kept { AllKept before.old.temps (temps_in names) }
    ensures grown { Grown net.old net.new }
    ensures gates { OnOk result (AreGates net.new before.new) }
    ensures ok { OnOk result (IsBeforeNode (S.source graph.now.steps.now) (S.layout graph.now.steps.now) graph.now.flow.now
        (at + 1) net.new before.new) }
{
    let on = surely(net, &before.temps, here.gate, names)?;
    let steps = graph.steps;
    let e = &setting.expression;
    let made = steps.evaluate(net, &mut before.store, &before.temps, on, Want::Value, e)?;
    let location = steps.local(setting.local);
    set_value(before, net, here, &made, location, setting.next as usize)?;
    Ok(())
}

/// A node that makes a call with kept arguments, and keeps what it gives.
#[derive(Clone, Copy)]
pub struct Calls<'p> {
    pub calling: Calling<'p>,
    pub arguments: Numbers,
    pub temp: u32,
    pub next: u32,
}

// One of these temps that no node has kept.
fn unkept_among(temps: &Temps, numbers: Numbers) -> Option<usize>
    ensures { MatchOption result (AllKept temps.now (seen.all_of numbers)) (λ m. (IsNamed m (seen.all_of numbers)) × (is_kept temps.now m ≡ false)) }
{
    for k in 0..numbers.count as usize {
        let temp = numbers.first as usize + k;
        if !was_kept(temps, temp) {
            return Some(temp);
        }
    }
    None
}

/// A node that makes a call.
pub fn call<S: Steps>(
    graph: &Graph<S>,
    before: &mut Before,
    net: &mut Net,
    here: Arrival,
    at: usize,
    calls: &Calls,
) -> Result<(), OutOfMemory>
    requires makes { S.makes graph.now.steps.now calls.now.calling ≡ true }
    requires at { IsThere (S.source graph.now.steps.now) (S.layout graph.now.steps.now) graph.now.flow.now at
        (unrolled.CallOf (seen.calling (S.source graph.now.steps.now).structs calls.now.calling)
        (seen.all_of calls.now.arguments) calls.now.temp calls.now.next)
        net.old before.old here }
    ensures grown { Grown net.old net.new }
    ensures gates { OnOk result (AreGates net.new before.new) }
    ensures ok { OnOk result (IsBeforeNode (S.source graph.now.steps.now) (S.layout graph.now.steps.now) graph.now.flow.now
        (at + 1) net.new before.new) }
{
    match unkept_among(&before.temps, calls.arguments) {
        Some(temp) => {
            before.pass_unread(net, &here, temp);
            Ok(())
        }
        None => {
            call_read(graph, before, net, here, at, calls)?;
            Ok(())
        }
    }
}

// The same, where each argument was kept.
fn call_read<S: Steps>(
    graph: &Graph<S>,
    before: &mut Before,
    net: &mut Net,
    here: Arrival,
    at: usize,
    calls: &Calls,
) -> Result<(), OutOfMemory>
    requires makes { S.makes graph.now.steps.now calls.now.calling ≡ true }
    requires at { IsThere (S.source graph.now.steps.now) (S.layout graph.now.steps.now) graph.now.flow.now at
        (unrolled.CallOf (seen.calling (S.source graph.now.steps.now).structs calls.now.calling)
        (seen.all_of calls.now.arguments) calls.now.temp calls.now.next)
        net.old before.old here }
    requires kept { AllKept before.old.temps (seen.all_of calls.now.arguments) }
    ensures grown { Grown net.old net.new }
    ensures gates { OnOk result (AreGates net.new before.new) }
    ensures ok { OnOk result (IsBeforeNode (S.source graph.now.steps.now) (S.layout graph.now.steps.now) graph.now.flow.now
        (at + 1) net.new before.new) }
{
    let steps = graph.steps;
    let gate = here.gate;
    let c = &calls.calling;
    let made = steps.call(
        net,
        &mut before.store,
        &before.temps,
        gate,
        c,
        calls.arguments,
    )?;
    keep_value(
        before,
        net,
        here,
        made,
        calls.temp as usize,
        calls.next as usize,
    )?;
    Ok(())
}
