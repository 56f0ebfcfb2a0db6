//! What a gate that holds says of others, and a gate read where that is known.
//!
//! Under the condition of a branch the gates that lead to it are known to hold, and so are parts of them. A word that is read there
//! is simpler than in general: of a `mux` on a known condition one side is left. Facts are found by hash, so a read is cheap.
ghost use Rattle.std.specs.Prelude.{◌≡◌, ℕ, ◌<◌, Bool, true, List, [], length, Some, slice_get, IfOk, IfSome};
ghost use Rattle.bit_net.specs.declared.nodes.Node.TheVariants.{Not, And, Or, Mux};
ghost use Rattle.bit_net.specs.Facts.{AllHold, IsFact, Notes, AreKnown, Learns, IsSeen};

use crate::OutOfMemory;
use crate::nodes::{Gate, Net, Node};
use std::alloc::Global;
use std::collections::HashMap;
use std::marker::Model;

/// That a gate holds, or that it does not.
#[derive(Clone, Copy, Debug, PartialEq, Eq)]
pub struct Fact {
    pub gate: Gate,
    pub holds: bool,
}

/// Facts about gates. A clause sees the list of them.
#[derive(Drop)]
pub struct Facts {
    facts: Vec<Fact>,

    /// Where the fact of a gate was put. It is a hint: a place is used only where a fact of that very gate stands there.
    places: HashMap<usize, usize>,
}

impl Model for Facts {
    ghost use Rattle.std.specs.Prelude.{List};
    ghost use Rattle.bit_net.specs.declared.facts.Fact.{Fact as Known};

    ghost Value = { List Known };

    ghost view = { λ f. f.facts.items };
}

/// What is known for every choice for which the gate holds: the gate itself, and what its node says of earlier gates, and so on.
pub fn known(alloc: Global, net: &Net, gate: Gate) -> Result<Facts, OutOfMemory>
    ensures { IfOk result (AreKnown net.now gate.at) }
{
    let mut facts = Facts::new(alloc);
    facts.learn(net, gate, true)?;
    Ok(facts)
}

/// A gate that has the same value where the facts are true: a constant where it is known, else what is left of a node of which
/// operands are known, else the gate itself.
pub fn seen(net: &Net, facts: &Facts, gate: Gate) -> Gate
    requires { gate.at < length net.now }
    ensures { IsSeen net.now facts.now gate.at result.at }
{
    let mut left = gate;
    for _ in 0..net.len() {
        let next = facts.one_step(net, left);
        if next.at == left.at {
            return left;
        }
        left = next;
    }
    left
}

impl Facts {
    /// No facts.
    pub fn new(alloc: Global) -> Facts
        ensures { result ≡ [] }
    {
        Facts {
            facts: Vec::new(alloc),
            places: HashMap::new(alloc),
        }
    }

    /// Adds that the gate has this value, and what its node then says of earlier gates, and so on.
    pub fn learn(&mut self, net: &Net, gate: Gate, holds: bool) -> Result<(), OutOfMemory>
        ensures { Learns net.now gate.at holds self.old self.new }
    {
        let first = self.count();
        self.add(gate, holds)?;
        for at in first..net.len() {
            match self.fact_at(at) {
                Some(fact) => self.follow(net, fact)?,
                None => return Ok(()),
            }
        }
        Ok(())
    }

    /// The value that the gate is known to have.
    pub fn value_of(&self, gate: Gate) -> Option<bool>
        ensures { IfSome result (IsFact self.now gate.at) }
    {
        let at = *self.places.get(&gate.at)?;
        match self.fact_at(at) {
            Some(fact) if fact.gate.at == gate.at => Some(fact.holds),
            _ => None,
        }
    }

    fn count(&self) -> usize {
        self.facts.len()
    }

    fn fact_at(&self, at: usize) -> Option<Fact>
        ensures { IfSome result (λ f. slice_get self.now at ≡ Some f) }
    {
        if at < self.facts.len() {
            Some(self.facts[at])
        } else {
            None
        }
    }

    /// Adds a fact, where none of this gate is known yet.
    fn add(&mut self, gate: Gate, holds: bool) -> Result<(), OutOfMemory>
        ensures { Notes gate.at holds self.old self.new }
    {
        if self.value_of(gate).is_some() {
            return Ok(());
        }
        self.places.insert(gate.at, self.facts.len())?;
        self.facts.push(Fact { gate, holds })?;
        Ok(())
    }

    /// Adds what the node of a gate says of its operands, where the gate has this value.
    fn follow(&mut self, net: &Net, fact: Fact) -> Result<(), OutOfMemory>
        ensures { Learns net.now fact.gate.at fact.holds self.old self.new }
    {
        if fact.gate.at >= net.len() {
            return Ok(());
        }
        net.sound();
        match net.node(fact.gate) {
            Node::Not(a) => self.add(a, !fact.holds),
            Node::And(a, b) if fact.holds => self.add_both(a, b, true),
            Node::Or(a, b) if !fact.holds => self.add_both(a, b, false),
            _ => Ok(()),
        }
    }

    /// Adds that two gates have this value.
    fn add_both(&mut self, a: Gate, b: Gate, holds: bool) -> Result<(), OutOfMemory>
        ensures { (v : ℕ → Bool) → v a.at ≡ holds → v b.at ≡ holds → AllHold v self.old → AllHold v self.new }
    {
        self.add(a, holds)?;
        self.add(b, holds)?;
        Ok(())
    }

    /// A constant where the gate is known, what is left of its node where an operand is known, or the gate itself.
    fn one_step(&self, net: &Net, gate: Gate) -> Gate
        requires { gate.at < length net.now }
        ensures { IsSeen net.now self.now gate.at result.at }
    {
        if let Some(b) = self.value_of(gate) {
            return net.constant(b);
        }
        match net.node(gate) {
            Node::Not(a) => self.left_of_not(net, gate, a),
            Node::And(a, b) => self.left_of_and(net, gate, a, b),
            Node::Or(a, b) => self.left_of_or(net, gate, a, b),
            Node::Mux(c, a, b) => self.left_of_mux(net, gate, c, a, b),
            _ => gate,
        }
    }

    fn left_of_not(&self, net: &Net, whole: Gate, a: Gate) -> Gate
        requires { slice_get net.now whole.at ≡ Some (Not a) }
        ensures { IsSeen net.now self.now whole.at result.at }
    {
        net.sound();
        match self.value_of(a) {
            Some(b) => net.constant(!b),
            None => whole,
        }
    }

    fn left_of_and(&self, net: &Net, whole: Gate, a: Gate, b: Gate) -> Gate
        requires { slice_get net.now whole.at ≡ Some (And a b) }
        ensures { IsSeen net.now self.now whole.at result.at }
    {
        net.sound();
        match self.value_of(a) {
            Some(true) => b,
            Some(false) => net.constant(false),
            None => match self.value_of(b) {
                Some(true) => a,
                Some(false) => net.constant(false),
                None => whole,
            },
        }
    }

    fn left_of_or(&self, net: &Net, whole: Gate, a: Gate, b: Gate) -> Gate
        requires { slice_get net.now whole.at ≡ Some (Or a b) }
        ensures { IsSeen net.now self.now whole.at result.at }
    {
        net.sound();
        match self.value_of(a) {
            Some(false) => b,
            Some(true) => net.constant(true),
            None => match self.value_of(b) {
                Some(false) => a,
                Some(true) => net.constant(true),
                None => whole,
            },
        }
    }

    fn left_of_mux(&self, net: &Net, whole: Gate, c: Gate, a: Gate, b: Gate) -> Gate
        requires { slice_get net.now whole.at ≡ Some (Mux c a b) }
        ensures { IsSeen net.now self.now whole.at result.at }
    {
        net.sound();
        match self.value_of(c) {
            Some(true) => a,
            Some(false) => b,
            None => whole,
        }
    }
}
