//! A loader: the literals of the gates that a solver knows. It loads the cone of a gate when the gate is asked for, and grows with the
//! net and with the solver.
ghost use Rattle.std.specs.Prelude.{◌≡◌, ◌<◌, ◌≤◌, ◌+◌, ℕ, Bool, List, [], true, length, Option, Some, OnOk, IfOk};
ghost use Rattle.bit_net.specs.declared.nodes.Node.{Node};
ghost use Rattle.bit_net.specs.Runs.{Grown};
ghost use Rattle.sat_base.specs.declared.literal.Lit.{Lit};
ghost use Rattle.sat_base.specs.Logic.{all_true, Extends};
ghost use Rattle.clause_builder.specs.Cones.{lit_at, AreLoaded, Keeps};

use crate::marked::load_cone;
use bit_net::{Gate, Net};
use sat_base::{Lit, OutOfMemory, Solver};
use std::alloc::Global;
use std::marker::Model;

/// The literals of the gates that are loaded. Contracts see for each gate its literal, or `None` where it has none yet.
#[derive(Debug, Drop)]
pub struct Loader {
    alloc: Global,
    lits: Vec<Option<Lit>>,
}

impl Model for Loader {
    ghost use Rattle.std.specs.Prelude.{List, Option};
    ghost use Rattle.sat_base.specs.declared.literal.Lit.{Lit};

    ghost Value = { List (Option Lit) };

    ghost view = { λ l. l.lits.items };
}

impl Loader {
    /// No gate is loaded. It takes no memory.
    pub fn new(alloc: Global) -> Loader
        ensures { result ≡ [] }
    {
        Loader {
            alloc,
            lits: Vec::new(alloc),
        }
    }

    /// The literal of a gate, if the gate is loaded.
    #[tactic(auto, using(std::proofs::lemmas::List::get_or_past))]
    pub fn lit(&self, gate: Gate) -> Option<Lit>
        ensures { result ≡ lit_at self.now gate.at }
    {
        if gate.at < self.lits.len() {
            self.lits[gate.at]
        } else {
            None
        }
    }

    /// The literal of a gate. Where the gate is not loaded its cone is: each gate of it gets its literal, and clauses are added by
    /// which every choice of the inputs has just one extension to the loaded gates, their values. What was loaded before stays.
    /// Where memory is refused the solver and the loader are not to be used again.
    pub fn lit_of<S: Solver>(
        &mut self,
        net: &Net,
        s: &mut S,
        gate: Gate,
    ) -> Result<Lit, OutOfMemory>
        requires gate { gate.at < length net.now }
        requires loaded { AreLoaded net.now self.old (S.vars s.old) (S.clauses s.old) }
        ensures lit { IfOk result (λ lit. lit_at self.new gate.at ≡ Some lit) }
        ensures loaded { OnOk result (AreLoaded net.now self.new (S.vars s.new) (S.clauses s.new)) }
        ensures kept { Keeps self.old self.new }
        ensures vars { OnOk result (S.vars s.old ≤ S.vars s.new) }
    {
        if let Some(lit) = self.lit(gate) {
            return Ok(lit);
        }
        load_cone(self.alloc, net, s, &mut self.lits, gate)
    }
}

/// Nothing is loaded at first; and what is loaded stays loaded while the net grows, and when clauses are added by which no
/// assignment of the variables before is lost or won.
pub fn what_is_loaded_stays()
    ensures nothing { (ns : List Node) (vars : ℕ) (clauses : List (List Lit)) (f : ℕ → Bool)
        → all_true f clauses ≡ true → AreLoaded ns [] vars clauses }
    ensures grown { (old new : List Node) (loaded : List (Option Lit)) (vars : ℕ) (clauses : List (List Lit))
        → Grown old new → AreLoaded old loaded vars clauses → AreLoaded new loaded vars clauses }
    ensures extended { (ns : List Node) (loaded : List (Option Lit)) (vars more : ℕ) (old new : List (List Lit))
        → vars ≤ more → Extends vars old new → AreLoaded ns loaded vars old → AreLoaded ns loaded more new }
{}
