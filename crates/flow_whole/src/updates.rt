//! Nodes that assign by an operator to a kept place (C11 6.5.16.2).

ghost use Rattle.std.specs.Prelude.{◌≡◌, ◌+◌, false, [], ◌∷◌, OnOk, MatchOption};
ghost use Rattle.bit_net.specs.Runs.{Grown};
ghost use Rattle.sc_world.specs.Eval.{is_logical};
ghost use Rattle.flow_graph.specs.Nodes as unrolled;
ghost use Rattle.flow_keeps.specs.Reads.{AllKept, IsNamed};
ghost use Rattle.flow_turns.specs.Before.{AreGates};
ghost use Rattle.flow_turns.specs.Kept.{is_kept};
ghost use Rattle.sc_flow.specs.Seen as seen;
ghost use Rattle.flow_gates.specs.Graph.{IsBeforeNode, IsThere};
ghost use Rattle.flow_whole.specs.Whole.{IsOf};

use bit_net::{Net, OutOfMemory};
use flow_fills::Laid;
use flow_gates::{Graph, Steps};
use flow_keeps::{Reads, keep as keep_value, surely, unkept, was_kept};
use flow_turns::{Arrival, Before, Temps};
use flow_updates::{Assignment, update as assign};

/// A node that assigns by an operator, and keeps what is wanted of the object.
#[derive(Clone, Copy)]
pub struct Updates<'p> {
    pub assignment: Assignment<'p>,
    pub temp: u32,
    pub next: u32,
}

// A temp that the assignment reads and that no node has kept.
#[tactic(auto, using(crate::proofs::Assigning::all_three, crate::proofs::Assigning::one_of_two, crate::proofs::Assigning::third_named))]
fn unkept_of(temps: &Temps, a: &Assignment) -> Option<u32>
    ensures { MatchOption result (AllKept temps.now (a.now.place ∷ a.now.former ∷ a.now.right ∷ []))
        (λ m. (IsNamed m (a.now.place ∷ a.now.former ∷ a.now.right ∷ [])) × (is_kept temps.now m ≡ false)) }
{
    let reads = Reads {
        first: Some(a.place),
        second: Some(a.former),
    };
    match unkept(temps, reads) {
        Some(temp) => Some(temp),
        None => if was_kept(temps, a.right as usize) {
            None
        } else {
            Some(a.right)
        },
    }
}

/// A node that assigns by an operator.
pub fn update<S: Steps>(
    graph: &Graph<S>,
    laid: &Laid,
    before: &mut Before,
    net: &mut Net,
    here: Arrival,
    at: usize,
    updates: &Updates,
) -> Result<(), OutOfMemory>
    requires laid { IsOf (S.source graph.now.steps.now) (S.layout graph.now.steps.now) laid.now }
    requires plain { is_logical updates.now.assignment.updating.op ≡ false }
    requires at { IsThere (S.source graph.now.steps.now) (S.layout graph.now.steps.now) graph.now.flow.now at
        (unrolled.Update (seen.updating updates.now.assignment.updating) (seen.want_of updates.now.assignment.want)
        updates.now.assignment.place updates.now.assignment.former updates.now.assignment.right updates.now.temp updates.now.next) net.old before.old here }
    ensures grown { Grown net.old net.new }
    ensures gates { OnOk result (AreGates net.new before.new) }
    ensures ok { OnOk result (IsBeforeNode (S.source graph.now.steps.now) (S.layout graph.now.steps.now) graph.now.flow.now
        (at + 1) net.new before.new) }
{
    match unkept_of(&before.temps, &updates.assignment) {
        Some(temp) => {
            before.pass_unread(net, &here, temp as usize);
            Ok(())
        }
        None => {
            update_read(graph, laid, before, net, here, at, updates)?;
            Ok(())
        }
    }
}

// The same, where each temp was kept that the node reads.
fn update_read<S: Steps>(
    graph: &Graph<S>,
    laid: &Laid,
    before: &mut Before,
    net: &mut Net,
    here: Arrival,
    at: usize,
    updates: &Updates,
) -> Result<(), OutOfMemory>
    requires laid { IsOf (S.source graph.now.steps.now) (S.layout graph.now.steps.now) laid.now }
    requires plain { is_logical updates.now.assignment.updating.op ≡ false }
    requires at { IsThere (S.source graph.now.steps.now) (S.layout graph.now.steps.now) graph.now.flow.now at
        (unrolled.Update (seen.updating updates.now.assignment.updating) (seen.want_of updates.now.assignment.want)
        updates.now.assignment.place updates.now.assignment.former updates.now.assignment.right updates.now.temp updates.now.next) net.old before.old here }
    requires kept { AllKept before.old.temps (updates.now.assignment.place ∷ updates.now.assignment.former ∷ updates.now.assignment.right ∷ []) }
    ensures grown { Grown net.old net.new }
    ensures gates { OnOk result (AreGates net.new before.new) }
    ensures ok { OnOk result (IsBeforeNode (S.source graph.now.steps.now) (S.layout graph.now.steps.now) graph.now.flow.now
        (at + 1) net.new before.new) }
{
    let a = &updates.assignment;
    let names = Reads {
        first: Some(a.place),
        second: None,
    };
    let on = surely(net, &before.temps, here.gate, names)?;
    let locations = before.fates.bads.as_slice().len();
    let made = assign(
        laid,
        net,
        &mut before.store,
        &before.temps,
        on,
        locations,
        a,
    )?;
    keep_value(
        before,
        net,
        here,
        made,
        updates.temp as usize,
        updates.next as usize,
    )?;
    Ok(())
}
