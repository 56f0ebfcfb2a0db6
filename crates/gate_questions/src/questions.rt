//! Who answers questions about the gates of a net.
ghost use Rattle.std.specs.Prelude.{◌≡◌, ◌<◌, ℕ, List, [], false, length, slice_get, Some, All, IsTrue, IfOk, MatchBool, MatchOption};
ghost use Rattle.bit_net.specs.declared.nodes.Node.{Node};
ghost use Rattle.bit_net.specs.declared.nodes.Node.TheVariants.{Constant};
ghost use Rattle.bit_net.specs.Circuit.{input_count};
ghost use Rattle.bit_net.specs.Runs.{Grown};
ghost use Rattle.gate_questions.specs.Holds.{SomeHolds, NoneHolds, IsFirst};
ghost use Rattle.gate_questions.specs.Ready.{QuestionsState, IsReady};

use crate::OutOfMemory;
use crate::asking::find;
use crate::first_choice::find_first;
use crate::lanes::Lanes;
use bit_net::{Gate, Net, Node, lanes_stay, runs_fit_tables};
use clause_builder::{Loader, what_is_loaded_stays};
use sat_base::Solver;
use std::alloc::Global;
use std::marker::Model;

/// A solver, the gates that are loaded into it, and 64 choices for which the gates are evaluated. Contracts see what `IsReady` speaks
/// of.
#[derive(Drop)]
pub struct Questions<S: Solver> {
    alloc: Global,
    solver: S,
    loader: Loader,
    lanes: Lanes,
    /// No memory was refused within a question.
    usable: bool,
}

impl<S: Solver> Model for Questions<S> {
    ghost use Rattle.gate_questions.specs.Ready.{QuestionsState};

    ghost Value = { QuestionsState };

    ghost view = { λ q. record {
      vars = S.vars q.solver;
      clauses = S.clauses q.solver;
      loaded = q.loader;
      usable = q.usable;
      inputs = q.lanes.inputs.items;
      words = q.lanes.words.items;
    } };
}

impl<S: Solver> Questions<S> {
    /// Takes a solver without clauses, and a word for each input: its bits in 64 choices that may be any. It takes no memory.
    pub fn new(alloc: Global, solver: S, inputs: Vec<u64>) -> Questions<S>
        requires { S.clauses solver ≡ [] }
        ensures { (ns : List Node) → input_count ns ≡ length inputs.items → IsReady ns result }
    {
        what_is_loaded_stays();
        let words = Vec::new(alloc);
        let loader = Loader::new(alloc);
        let lanes = Lanes {
            inputs,
            words,
            next: 0,
        };
        Questions {
            alloc,
            solver,
            loader,
            lanes,
            usable: true,
        }
    }

    /// Whether all these gates hold for some choice.
    pub fn some(&mut self, net: &Net, gates: &[Gate]) -> Result<bool, OutOfMemory>
        requires ready { IsReady net.now self.old }
        requires gates { All (λ g. g.at < length net.now) gates.now }
        ensures ready { IsReady net.now self.new }
        ensures answer { IfOk result (λ holds. MatchBool holds (SomeHolds net.now gates.now) (NoneHolds net.now gates.now)) }
    {
        if is_never(net, gates) {
            return Ok(false);
        }
        if !self.usable {
            return Err(OutOfMemory);
        }
        self.usable = false;
        let holds = find(
            self.alloc,
            net,
            &mut self.loader,
            &mut self.solver,
            &mut self.lanes,
            gates,
        )?;
        self.usable = true;
        Ok(holds)
    }

    /// The bits of the first choice for which all these gates hold, or `None` where they hold for none.
    pub fn first(&mut self, net: &Net, gates: &[Gate]) -> Result<Option<Vec<bool>>, OutOfMemory>
        requires ready { IsReady net.now self.old }
        requires gates { All (λ g. g.at < length net.now) gates.now }
        ensures ready { IsReady net.now self.new }
        ensures first { IfOk result (λ found. MatchOption found (NoneHolds net.now gates.now) (λ bits. IsFirst net.now gates.now bits.items)) }
    {
        if !self.usable {
            return Err(OutOfMemory);
        }
        self.usable = false;
        let bits = self.lanes.input_count();
        let found = find_first(
            self.alloc,
            net,
            &mut self.loader,
            &mut self.solver,
            bits,
            gates,
        )?;
        self.usable = true;
        Ok(found)
    }
}

/// Whether one of the gates is the constant false.
fn is_never(net: &Net, gates: &[Gate]) -> bool
    requires { All (λ g. g.at < length net.now) gates.now }
    ensures { IsTrue result → NoneHolds net.now gates.now }
{
    net.sound();
    runs_fit_tables();
    for gate in gates {
        if is_false(net, *gate) {
            return true;
        }
    }
    false
}

/// Whether a gate is the constant false.
fn is_false(net: &Net, gate: Gate) -> bool
    requires { gate.at < length net.now }
    ensures { IsTrue result → slice_get net.now gate.at ≡ Some (Constant false) }
{
    match net.node(gate) {
        Node::Constant(false) => true,
        _ => false,
    }
}

/// While the net grows it may be asked about it as before.
pub fn what_may_be_asked_stays()
    ensures { (old new : List Node) (q : QuestionsState) → Grown old new → IsReady old q → IsReady new q }
{
    what_is_loaded_stays();
    lanes_stay();
}
