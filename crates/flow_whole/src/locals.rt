//! Nodes that set a local to the value of an expression (C11 6.7.9), whether it is a number, a pointer or an object.

ghost use Rattle.std.specs.Prelude.{◌≡◌, ◌+◌, true, false, OnOk};
ghost use Rattle.bit_net.specs.Runs.{Grown};
ghost use Rattle.run_laws.specs.Fits.{is_scalar};
ghost use Rattle.sc_world.specs.Tree as tree;
ghost use Rattle.sc_world.specs.View as view;
ghost use Rattle.flow_graph.specs.Conditions.{temps_of};
ghost use Rattle.flow_graph.specs.Nodes as unrolled;
ghost use Rattle.flow_keeps.specs.Reads.{AllKept};
ghost use Rattle.flow_turns.specs.Before.{AreGates};
ghost use Rattle.sc_flow.specs.Seen as seen;
ghost use Rattle.flow_fills.specs.Laid.{source_of};
ghost use Rattle.flow_gates.specs.Graph.{IsBeforeNode, IsThere};
ghost use Rattle.flow_whole.specs.Whole.{HasType, IsOf};

use bit_net::{Net, OutOfMemory};
use flow_fills::{Laid, Setting as To, set as set_local};
use flow_gates::{Graph, Setting, Steps, set as set_scalar};
use flow_keeps::{surely, unkept};
use flow_turns::{Arrival, Before};
use gate_inits::{Local, is_scalar};
use sc_flow::{Expression, Want};
use sc_tree::ctype::CType;
use sc_typed::TExpr;

// The type of an expression of the text.
#[tactic(auto, unfolding(run_world::specs::Seen::env, layout_base::specs::Seen::ground_of))]
fn text_type<'e>(laid: &Laid, e: &'e TExpr) -> &'e CType
    ensures { view.type result.now ≡ tree.type_of (view.exp (source_of laid.now).structs e.now) }
{
    let here = laid.here;
    here.ground.here.type_of(e)
}

/// The type of an expression.
#[tactic(auto, using(crate::proofs::Types::over_type))]
pub fn type_of<'p>(laid: &Laid, e: Expression<'p>) -> &'p CType
    requires { HasType e }
    ensures { view.type result.now ≡ tree.type_of (seen.expression (source_of laid.now).structs e.entry) }
{
    match e {
        Expression::Source(e) => text_type(laid, e),
        Expression::Over(e, _, _) => text_type(laid, e),
        Expression::Temp(_, t) => t,
        Expression::TempPlace(_, t) => t,
        Expression::Truth(_, t) => t,
        Expression::Former(_, _) => unreachable!(),
        Expression::Nothing => unreachable!(),
    }
}

// A node that sets a local to an object of that type.
#[derive(Clone, Copy)]
struct Copying<'p> {
    setting: Setting<'p>,
    ctype: &'p CType,
}

/// A node that sets a local to the value of an expression.
pub fn set<S: Steps>(
    graph: &Graph<S>,
    laid: &Laid,
    before: &mut Before,
    net: &mut Net,
    here: Arrival,
    at: usize,
    setting: &Setting,
) -> Result<(), OutOfMemory>
    requires laid { IsOf (S.source graph.now.steps.now) (S.layout graph.now.steps.now) laid.now }
    requires takes { S.takes graph.now.steps.now setting.now.expression ≡ true }
    requires some { HasType setting.now.expression }
    requires at { IsThere (S.source graph.now.steps.now) (S.layout graph.now.steps.now) graph.now.flow.now at
        (unrolled.Set setting.now.local (seen.expression (S.source graph.now.steps.now).structs setting.now.expression) setting.now.next)
        net.old before.old here }
    ensures grown { Grown net.old net.new }
    ensures gates { OnOk result (AreGates net.new before.new) }
    ensures ok { OnOk result (IsBeforeNode (S.source graph.now.steps.now) (S.layout graph.now.steps.now) graph.now.flow.now
        (at + 1) net.new before.new) }
{
    let ctype = type_of(laid, setting.expression);
    if is_scalar(ctype) {
        set_scalar(graph, before, net, here, at, setting)?;
        Ok(())
    } else {
        let copying = Copying {
            setting: *setting,
            ctype,
        };
        set_object(graph, laid, before, net, here, at, &copying)?;
        Ok(())
    }
}

// A node that sets a local to an object.
fn set_object<S: Steps>(
    graph: &Graph<S>,
    laid: &Laid,
    before: &mut Before,
    net: &mut Net,
    here: Arrival,
    at: usize,
    copying: &Copying,
) -> Result<(), OutOfMemory>
    requires laid { IsOf (S.source graph.now.steps.now) (S.layout graph.now.steps.now) laid.now }
    requires takes { S.takes graph.now.steps.now copying.now.setting.expression ≡ true }
    requires typed { view.type copying.now.ctype.now ≡ tree.type_of (seen.expression (S.source graph.now.steps.now).structs copying.now.setting.expression) }
    requires object { is_scalar (tree.type_of (seen.expression (S.source graph.now.steps.now).structs copying.now.setting.expression)) ≡ false }
    requires at { IsThere (S.source graph.now.steps.now) (S.layout graph.now.steps.now) graph.now.flow.now at
        (unrolled.Set copying.now.setting.local
        (seen.expression (S.source graph.now.steps.now).structs copying.now.setting.expression) copying.now.setting.next)
        net.old before.old here }
    ensures grown { Grown net.old net.new }
    ensures gates { OnOk result (AreGates net.new before.new) }
    ensures ok { OnOk result (IsBeforeNode (S.source graph.now.steps.now) (S.layout graph.now.steps.now) graph.now.flow.now
        (at + 1) net.new before.new) }
{
    let names = graph.steps.reads(&copying.setting.expression);
    match unkept(&before.temps, names) {
        Some(temp) => {
            before.pass_unread(net, &here, temp as usize);
            Ok(())
        }
        None => {
            object_read(graph, laid, before, net, here, at, copying)?;
            Ok(())
        }
    }
}

// The same, where each temp was kept that the node reads.
fn object_read<S: Steps>(
    graph: &Graph<S>,
    laid: &Laid,
    before: &mut Before,
    net: &mut Net,
    here: Arrival,
    at: usize,
    copying: &Copying,
) -> Result<(), OutOfMemory>
    requires laid { IsOf (S.source graph.now.steps.now) (S.layout graph.now.steps.now) laid.now }
    requires takes { S.takes graph.now.steps.now copying.now.setting.expression ≡ true }
    requires typed { view.type copying.now.ctype.now ≡ tree.type_of (seen.expression (S.source graph.now.steps.now).structs copying.now.setting.expression) }
    requires object { is_scalar (tree.type_of (seen.expression (S.source graph.now.steps.now).structs copying.now.setting.expression)) ≡ false }
    requires at { IsThere (S.source graph.now.steps.now) (S.layout graph.now.steps.now) graph.now.flow.now at
        (unrolled.Set copying.now.setting.local
        (seen.expression (S.source graph.now.steps.now).structs copying.now.setting.expression) copying.now.setting.next)
        net.old before.old here }
    requires kept { AllKept before.old.temps (temps_of (seen.expression (S.source graph.now.steps.now).structs copying.now.setting.expression)) }
    ensures grown { Grown net.old net.new }
    ensures gates { OnOk result (AreGates net.new before.new) }
    ensures ok { OnOk result (IsBeforeNode (S.source graph.now.steps.now) (S.layout graph.now.steps.now) graph.now.flow.now
        (at + 1) net.new before.new) }
{
    let steps = graph.steps;
    let e = &copying.setting.expression;
    let names = steps.reads(e);
    let on = surely(net, &before.temps, here.gate, names)?;
    let made = steps.evaluate(net, &mut before.store, &before.temps, on, Want::Place, e)?;
    let location = steps.local(copying.setting.local);
    let local = Local {
        at: location,
        ctype: copying.ctype,
    };
    let to = To {
        local,
        next: copying.setting.next as usize,
    };
    set_local(laid, before, net, here, &made, &to)?;
    Ok(())
}
