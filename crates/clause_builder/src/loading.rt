//! A net into a solver: a fresh variable for each gate, and the clauses of each gate over these.
ghost use Rattle.std.specs.Prelude.{◌≡◌, ◌<◌, ◌≤◌, ◌+◌, ℕ, length, All, IfOk, OnOk, Some, slice_get};
ghost use Rattle.sat_base.specs.Logic.{LitsBelow, ClausesBelow};
ghost use Rattle.clause_builder.specs.Adding.{Adds, AddsFresh};
ghost use Rattle.clause_builder.specs.Gates.{gate_lits, gate_value, gates_hold};
ghost use Rattle.clause_builder.specs.Loaded.{IsLoaded};

use crate::gate_clauses::add_gate;
use bit_net::{Gate, Net, runs_fit_tables};
use sat_base::{Lit, OutOfMemory, Solver};
use std::alloc::Global;
use std::marker::Model;

/// The literals of the gates of a net, in the order of the gates.
#[derive(Debug, Drop)]
pub struct Lits {
    list: Vec<Lit>,
}

impl Model for Lits {
    ghost use Rattle.std.specs.Prelude.{List};
    ghost use Rattle.sat_base.specs.declared.literal.Lit.{Lit};

    ghost Value = { List Lit };

    ghost view = { λ l. l.list.items };
}

impl Lits {
    /// The literal of a gate: its variable, not negated.
    pub fn of(&self, gate: Gate) -> Lit
        requires { gate.at < length self.now }
        ensures { slice_get self.now gate.at ≡ Some result }
    {
        self.list[gate.at]
    }
}

/// Loads a net into a solver: each gate gets a fresh variable, and clauses are added by which
/// every choice of the inputs has just one extension to these variables, the values of the gates.
/// Where memory is refused the solver has more clauses, over fresh variables alone, and is not to
/// be used again.
pub fn load<S: Solver>(alloc: Global, net: &Net, s: &mut S) -> Result<Lits, OutOfMemory>
    ensures lits { IfOk result (λ lits. lits ≡ gate_lits (S.vars s.old) (length net.now)) }
    ensures count { IfOk result (λ lits. length lits ≡ length net.now) }
    ensures vars { OnOk result (S.vars s.new ≡ S.vars s.old + length net.now) }
    ensures loaded { OnOk result (IsLoaded net.now (S.clauses s.old) (S.clauses s.new) (S.vars s.old)) }
    ensures fresh { AddsFresh (S.vars s.old) (S.clauses s.old) (S.clauses s.new) }
{
    let list = fresh_lits(alloc, s, net.len())?;
    add_gates(s, list.as_slice(), net)?;
    runs_fit_tables();
    net.sound();
    Ok(Lits { list })
}

/// A fresh variable for each gate, as a literal.
fn fresh_lits<S: Solver>(alloc: Global, s: &mut S, gates: usize) -> Result<Vec<Lit>, OutOfMemory>
    ensures clauses { S.clauses s.new ≡ S.clauses s.old }
    ensures lits { IfOk result (λ lits. lits.items ≡ gate_lits (S.vars s.old) gates) }
    ensures vars { OnOk result (S.vars s.new ≡ S.vars s.old + gates) }
    ensures unused { OnOk result (0 < gates → ClausesBelow (S.vars s.old) (S.clauses s.old)) }
{
    let mut lits = Vec::with_capacity(alloc, gates)?;
    for _gate in 0..gates {
        let var = s.fresh()?;
        lits.push(Lit { var, neg: false })?;
    }
    Ok(lits)
}

/// The clauses of all gates, in their order.
fn add_gates<S: Solver>(s: &mut S, lits: &[Lit], net: &Net) -> Result<(), OutOfMemory>
    requires vars { LitsBelow (S.vars s.old) lits.now }
    requires gates { length lits.now ≡ length net.now }
    ensures vars { S.vars s.new ≡ S.vars s.old }
    ensures ok { OnOk result (Adds (S.clauses s.old) (S.clauses s.new)
        (λ f. gates_hold (gate_value f lits.now) net.now (length net.now))) }
    ensures fresh { (base : ℕ) → All (λ l. base ≤ l.var) lits.now → AddsFresh base (S.clauses s.old) (S.clauses s.new) }
{
    net.sound();
    for at in 0..net.len() {
        let node = net.node(Gate { at });
        add_gate(s, lits, at, node)?;
    }
    Ok(())
}
