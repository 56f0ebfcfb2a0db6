//! Loads the cone of a gate: first its gates are marked, and then each marked gate is loaded behind those that it reads.
ghost use Rattle.std.specs.Prelude.{◌≡◌, ◌<◌, ◌≤◌, ◌+◌, ℕ, List, true, length, slice_get, Option, Some, None, OnOk, IfOk};
ghost use Rattle.bit_net.specs.declared.nodes.Node.{Node};
ghost use Rattle.sat_base.specs.declared.literal.Lit.{Lit};
ghost use Rattle.clause_builder.specs.Cones.{lit_at, plain, is_marked, AreLoaded, EachOperand, IsLoadedAt, IsClosedAt, Keeps};

use crate::cone::{cone, is_open};
use crate::node_lits::{loaded_lit, node_lit, plain_node};
use bit_net::{Gate, Net, runs_fit_tables};
use sat_base::{Lit, OutOfMemory, Solver};
use std::alloc::Global;

/// Loads the cone of a gate, and gives the literal of the gate.
pub fn load_cone<S: Solver>(
    alloc: Global,
    net: &Net,
    s: &mut S,
    lits: &mut Vec<Option<Lit>>,
    gate: Gate,
) -> Result<Lit, OutOfMemory>
    requires gate { gate.at < length net.now }
    requires loaded { AreLoaded net.now lits.old.items (S.vars s.old) (S.clauses s.old) }
    ensures lit { IfOk result (λ lit. lit_at lits.new.items gate.at ≡ Some lit) }
    ensures loaded { OnOk result (AreLoaded net.now lits.new.items (S.vars s.new) (S.clauses s.new)) }
    ensures kept { Keeps lits.old.items lits.new.items }
    ensures vars { OnOk result (S.vars s.old ≤ S.vars s.new) }
{
    reserve(lits, gate)?;
    let front = lits.as_slice();
    let marks = cone(alloc, net, front, gate)?;
    let marked = marks.as_slice();
    load_marked(net, s, lits, marked)?;
    let all = lits.as_slice();
    Ok(loaded_lit(all, gate))
}

/// Makes room for the literals of all gates up to this one.
fn reserve(lits: &mut Vec<Option<Lit>>, gate: Gate) -> Result<(), OutOfMemory>
    ensures same { (g : ℕ) → lit_at lits.new.items g ≡ lit_at lits.old.items g }
    ensures room { OnOk result (gate.at < length lits.new.items) }
{
    while lits.len() <= gate.at {
        lits.push(None)?;
    }
    Ok(())
}

/// Loads the marked gates that are not loaded, in their order.
fn load_marked<S: Solver>(
    net: &Net,
    s: &mut S,
    lits: &mut Vec<Option<Lit>>,
    marks: &[bool],
) -> Result<(), OutOfMemory>
    requires loaded { AreLoaded net.now lits.old.items (S.vars s.old) (S.clauses s.old) }
    requires room { length marks.now ≤ length lits.old.items }
    requires gates { length marks.now ≤ length net.now }
    requires closed { (g : ℕ) → g < length marks.now → IsClosedAt net.now lits.old.items marks.now g }
    ensures loaded { OnOk result (AreLoaded net.now lits.new.items (S.vars s.new) (S.clauses s.new)) }
    ensures kept { Keeps lits.old.items lits.new.items }
    ensures vars { OnOk result (S.vars s.old ≤ S.vars s.new) }
    ensures all { OnOk result ((g : ℕ) → g < length marks.now → is_marked marks.now g ≡ true → IsLoadedAt lits.new.items g) }
{
    net.sound();
    for at in 0..marks.len() {
        load_if_marked(net, s, lits, marks, at)?;
    }
    Ok(())
}

/// Loads a gate if it is marked and not loaded.
fn load_if_marked<S: Solver>(
    net: &Net,
    s: &mut S,
    lits: &mut Vec<Option<Lit>>,
    marks: &[bool],
    at: usize,
) -> Result<(), OutOfMemory>
    requires marks { at < length marks.now }
    requires room { at < length lits.old.items }
    requires gate { at < length net.now }
    requires operands { (n : Node) → slice_get net.now at ≡ Some n → is_marked marks.now at ≡ true → lit_at lits.old.items at ≡ None
        → EachOperand (IsLoadedAt lits.old.items) (plain n) }
    requires loaded { AreLoaded net.now lits.old.items (S.vars s.old) (S.clauses s.old) }
    ensures loaded { OnOk result (AreLoaded net.now lits.new.items (S.vars s.new) (S.clauses s.new)) }
    ensures kept { Keeps lits.old.items lits.new.items }
    ensures vars { OnOk result (S.vars s.old ≤ S.vars s.new) }
    ensures here { OnOk result (is_marked marks.now at ≡ true → IsLoadedAt lits.new.items at) }
    ensures length { length lits.new.items ≡ length lits.old.items }
{
    if !is_open(lits.as_slice(), marks, at) {
        return Ok(());
    }
    load_gate(net, s, lits, at)?;
    Ok(())
}

/// Loads a gate whose operands are loaded.
fn load_gate<S: Solver>(
    net: &Net,
    s: &mut S,
    lits: &mut Vec<Option<Lit>>,
    at: usize,
) -> Result<(), OutOfMemory>
    requires room { at < length lits.old.items }
    requires gate { at < length net.now }
    requires missing { lit_at lits.old.items at ≡ None }
    requires operands { (n : Node) → slice_get net.now at ≡ Some n → EachOperand (IsLoadedAt lits.old.items) (plain n) }
    requires loaded { AreLoaded net.now lits.old.items (S.vars s.old) (S.clauses s.old) }
    ensures loaded { OnOk result (AreLoaded net.now lits.new.items (S.vars s.new) (S.clauses s.new)) }
    ensures kept { Keeps lits.old.items lits.new.items }
    ensures vars { OnOk result (S.vars s.old ≤ S.vars s.new) }
    ensures here { OnOk result (IsLoadedAt lits.new.items at) }
    ensures length { length lits.new.items ≡ length lits.old.items }
{
    net.sound();
    runs_fit_tables();
    let read = net.node(Gate { at });
    let node = plain_node(read);
    let lit = node_lit(s, lits.as_slice(), node)?;
    lits[at] = Some(lit);
    Ok(())
}
