//! The goal of a gate.

ghost use Rattle.std.specs.Prelude.{◌≡◌, ◌<◌, ◌≤◌, ◌+◌, ◌++◌, ℕ, Bool, List, false, length, replicate, slice_set, IfOk, OnOk};
ghost use Rattle.bit_net.specs.Circuit.{input_count};
ghost use Rattle.bit_net.specs.Value.{bit_at, value};
ghost use Rattle.net_goals.specs.Clauses.{lit_of, table_clauses};
ghost use Rattle.net_goals.specs.Cones.{EachOperand, IsClosedAt};
ghost use Rattle.net_goals.specs.Goals.{IsGoal};
ghost use Rattle.net_goals.specs.Numbers.{AreNumbered};

use crate::clauses::{put, put_table};
use crate::cone::cone;
use bit_net::{Gate, Net, Node, runs_fit_tables, values_are_runs};
use sat_base::{Clause, ClauseList, Lit, OutOfMemory};
use std::alloc::Global;
use std::marker::Model;

/// A goal: clauses over variables, of which the first are the bits of a choice. Contracts see its parts.
#[derive(Debug, Drop)]
pub struct Goal {
    inputs: usize,
    vars: usize,
    clauses: ClauseList,
}

impl Model for Goal {
    ghost use Rattle.net_goals.specs.Goals.{Parts};

    ghost Value = { Parts };

    ghost view = { λ g. record { inputs = g.inputs; vars = g.vars; clauses = g.clauses } };
}

impl Goal {
    /// How many bits a choice has.
    pub fn inputs(&self) -> usize
        ensures { result ≡ self.now.inputs }
    {
        self.inputs
    }

    /// How many variables there are.
    pub fn vars(&self) -> usize
        ensures { result ≡ self.now.vars }
    {
        self.vars
    }

    /// The clauses, lent.
    pub fn clauses(&self) -> &[Clause]
        ensures { result.now ≡ self.now.clauses }
    {
        self.clauses.clauses()
    }
}

// What is made so far: how many variables there are, the literals of gates, and the clauses.
#[derive(Drop)]
pub struct Making {
    vars: usize,
    lits: Vec<Lit>,
    clauses: ClauseList,
}

// So many literals.
fn no_lits(alloc: Global, count: usize) -> Result<Vec<Lit>, OutOfMemory>
    ensures { IfOk result (λ lits. lits.items ≡ replicate count (record { var = 0; neg = false })) }
{
    let lits = vec![in alloc; Lit { var: 0, neg: false }; count]?;
    Ok(lits)
}

// No gate has a variable yet; the inputs have the first ones.
fn begin(alloc: Global, net: &Net, inputs: usize) -> Result<Making, OutOfMemory>
    ensures { IfOk result (λ m. (marks : List Bool) → AreNumbered net.now inputs marks 0 m) }
{
    let lits = no_lits(alloc, net.len())?;
    Ok(Making {
        vars: inputs,
        lits,
        clauses: ClauseList::new(alloc),
    })
}

// The gate of an input has the variable of that bit.
fn number_input(making: &mut Making, at: usize, input: usize)
    requires at { at < length making.old.lits.items }
    ensures lits { making.new.lits.items ≡ slice_set making.old.lits.items at (record { var = input; neg = false }) }
    ensures vars { making.new.vars ≡ making.old.vars }
    ensures clauses { making.new.clauses ≡ making.old.clauses }
{
    making.lits[at] = Lit {
        var: input,
        neg: false,
    };
}

// Any other gate has the next variable, and clauses say its truth table.
fn number_table(
    alloc: Global,
    making: &mut Making,
    at: usize,
    node: Node,
) -> Result<(), OutOfMemory>
    requires at { at < length making.old.lits.items }
    requires operands { EachOperand (λ a. a < length making.old.lits.items) node }
    ensures lits { OnOk result (making.new.lits.items ≡ slice_set making.old.lits.items at (record { var = making.old.vars; neg = false })) }
    ensures vars { OnOk result (making.new.vars ≡ making.old.vars + 1) }
    ensures clauses { OnOk result (making.new.clauses ≡ making.old.clauses
        ++ table_clauses (record { var = making.old.vars; neg = false }) making.old.lits.items node) }
{
    let out = Lit {
        var: making.vars,
        neg: false,
    };
    let vars = making.vars.checked_add(1).ok_or(OutOfMemory)?;
    put_table(
        alloc,
        &mut making.clauses,
        making.lits.as_slice(),
        out,
        node,
    )?;
    making.vars = vars;
    making.lits[at] = out;
    Ok(())
}

// A gate has its variable, if it is marked.
fn number(
    alloc: Global,
    net: &Net,
    inputs: usize,
    making: &mut Making,
    marks: &[bool],
    at: usize,
) -> Result<(), OutOfMemory>
    requires inputs { input_count net.now ≡ inputs }
    requires at { at < length marks.now }
    requires gates { length marks.now ≤ length net.now }
    requires closed { IsClosedAt net.now marks.now at }
    requires numbered { AreNumbered net.now inputs marks.now at making.old }
    ensures { OnOk result (AreNumbered net.now inputs marks.now (at + 1) making.new) }
{
    net.sound();
    runs_fit_tables();
    values_are_runs();
    let node = net.node(Gate { at });
    if !marks[at] {
        return Ok(());
    }
    match node {
        Node::Input(input) => {
            number_input(making, at, input);
            Ok(())
        }
        Node::Constant(_) => {
            number_table(alloc, making, at, node)?;
            Ok(())
        }
        Node::Not(_) => {
            number_table(alloc, making, at, node)?;
            Ok(())
        }
        Node::And(_, _) => {
            number_table(alloc, making, at, node)?;
            Ok(())
        }
        Node::Or(_, _) => {
            number_table(alloc, making, at, node)?;
            Ok(())
        }
        Node::Xor(_, _) => {
            number_table(alloc, making, at, node)?;
            Ok(())
        }
        Node::Mux(_, _, _) => {
            number_table(alloc, making, at, node)?;
            Ok(())
        }
    }
}

// The gates of the cone have their variables.
fn numbered(alloc: Global, net: &Net, inputs: usize, marks: &[bool]) -> Result<Making, OutOfMemory>
    requires inputs { input_count net.now ≡ inputs }
    requires gates { length marks.now ≤ length net.now }
    requires closed { (g : ℕ) → g < length marks.now → IsClosedAt net.now marks.now g }
    ensures { IfOk result (λ m. AreNumbered net.now inputs marks.now (length marks.now) m) }
{
    let mut making = begin(alloc, net, inputs)?;
    for at in 0..marks.len() {
        number(alloc, net, inputs, &mut making, marks, at)?;
    }
    Ok(making)
}

// The literal of a gate.
fn lit_at(lits: &[Lit], at: usize) -> Lit
    requires { at < length lits.now }
    ensures { result ≡ lit_of lits.now at }
{
    lits[at]
}

/// The goal that asks whether a gate holds for some choice of the inputs, of which the net has so many. Only the gates that the gate reads have
/// variables and clauses; the last clause is that the gate holds.
pub fn goal_of(alloc: Global, net: &Net, inputs: usize, gate: Gate) -> Result<Goal, OutOfMemory>
    requires inputs { input_count net.now ≡ inputs }
    requires gate { gate.at < length net.now }
    ensures inputs { IfOk result (λ g. g.inputs ≡ inputs) }
    ensures goal { IfOk result (IsGoal (λ c. value (bit_at c) net.now gate.at)) }
{
    let marks = cone(alloc, net, gate)?;
    let mut making = numbered(alloc, net, inputs, marks.as_slice())?;
    let last = lit_at(making.lits.as_slice(), gate.at);
    put(alloc, &mut making.clauses, &[last])?;
    Ok(Goal {
        inputs,
        vars: making.vars,
        clauses: making.clauses,
    })
}
