//! The literal of one gate, by those of the gates that it reads: a fresh variable with the clauses of the gate, or for the opposite
//! of a gate the opposite of its literal.
ghost use Rattle.std.specs.Prelude.{◌≡◌, ◌<◌, ◌≤◌, ◌+◌, ◌&&◌, ◌||◌, not, false, if◌then◌else◌, ℕ, List, Option, Some, OnOk, IfOk};
ghost use Rattle.bit_net.specs.Value.{xor};
ghost use Rattle.sat_base.specs.declared.literal.Lit.{Lit};
ghost use Rattle.sat_base.specs.Logic.{ClausesBelow};
ghost use Rattle.clause_builder.specs.Cones.{lit_at, plain, loaded_value, LoadedBelow, Defines, LeavesFree, Encodes, EachOperand, IsLoadedAt};

use crate::gate_clauses::{and_clauses, constant_clauses, mux_clauses, or_clauses, xor_clauses};
use bit_net::{Gate, Node};
use sat_base::{Lit, OutOfMemory, Solver};

/// The node in the form in which it is loaded: true is the opposite of false.
pub fn plain_node(node: Node) -> Node
    ensures { result ≡ plain node }
{
    match node {
        Node::Constant(true) => Node::Not(Gate { at: 0 }),
        Node::Constant(false) => Node::Constant(false),
        Node::Input(k) => Node::Input(k),
        Node::Not(a) => Node::Not(a),
        Node::And(a, b) => Node::And(a, b),
        Node::Or(a, b) => Node::Or(a, b),
        Node::Xor(a, b) => Node::Xor(a, b),
        Node::Mux(c, a, b) => Node::Mux(c, a, b),
    }
}

/// The literal of a gate that is loaded.
pub fn loaded_lit(lits: &[Option<Lit>], gate: Gate) -> Lit
    requires { IsLoadedAt lits.now gate.at }
    ensures { lit_at lits.now gate.at ≡ Some result }
{
    lits[gate.at].unwrap()
}

/// A fresh variable, not negated.
fn fresh_lit<S: Solver>(s: &mut S) -> Result<Lit, OutOfMemory>
    ensures unused { ClausesBelow (S.vars s.old) (S.clauses s.old) }
    ensures clauses { S.clauses s.new ≡ S.clauses s.old }
    ensures ok { IfOk result (λ out. (out ≡ record { var = S.vars s.old; neg = false }) × (S.vars s.new ≡ S.vars s.old + 1)) }
{
    let var = s.fresh()?;
    Ok(Lit { var, neg: false })
}

/// A literal of this value.
fn constant_node<S: Solver>(s: &mut S, b: bool) -> Result<Lit, OutOfMemory>
    ensures vars { OnOk result (S.vars s.old ≤ S.vars s.new) }
    ensures below { IfOk result (λ out. out.var < S.vars s.new) }
    ensures defines { IfOk result (λ out. Defines (S.vars s.old) (S.clauses s.old) (S.clauses s.new) out (λ f. b)) }
{
    let out = fresh_lit(s)?;
    constant_clauses(s, out, b)?;
    Ok(out)
}

/// A literal that may have either value.
fn input_node<S: Solver>(s: &mut S) -> Result<Lit, OutOfMemory>
    ensures vars { OnOk result (S.vars s.old ≤ S.vars s.new) }
    ensures below { IfOk result (λ out. out.var < S.vars s.new) }
    ensures free { IfOk result (λ out. LeavesFree (S.vars s.old) (S.clauses s.old) (S.clauses s.new) out) }
{
    let out = fresh_lit(s)?;
    Ok(out)
}

/// The literal that holds where the gate does not.
fn not_node(lits: &[Option<Lit>], a: Gate) -> Lit
    requires { IsLoadedAt lits.now a.at }
    ensures var { (n : ℕ) → LoadedBelow n lits.now → result.var < n }
    ensures defines { (n : ℕ) (clauses : List (List Lit)) → Defines n clauses clauses result (λ f. not (loaded_value f lits.now a.at)) }
{
    let lit = loaded_lit(lits, a);
    lit.negated()
}

/// A literal that holds where both gates do.
fn and_node<S: Solver>(
    s: &mut S,
    lits: &[Option<Lit>],
    a: Gate,
    b: Gate,
) -> Result<Lit, OutOfMemory>
    requires below { LoadedBelow (S.vars s.old) lits.now }
    requires a { IsLoadedAt lits.now a.at }
    requires b { IsLoadedAt lits.now b.at }
    ensures vars { OnOk result (S.vars s.old ≤ S.vars s.new) }
    ensures below { IfOk result (λ out. out.var < S.vars s.new) }
    ensures defines { IfOk result (λ out. Defines (S.vars s.old) (S.clauses s.old) (S.clauses s.new) out
        (λ f. loaded_value f lits.now a.at && loaded_value f lits.now b.at)) }
{
    let left = loaded_lit(lits, a);
    let right = loaded_lit(lits, b);
    let out = fresh_lit(s)?;
    and_clauses(s, out, left, right)?;
    Ok(out)
}

/// A literal that holds where at least one of the gates does.
fn or_node<S: Solver>(s: &mut S, lits: &[Option<Lit>], a: Gate, b: Gate) -> Result<Lit, OutOfMemory>
    requires below { LoadedBelow (S.vars s.old) lits.now }
    requires a { IsLoadedAt lits.now a.at }
    requires b { IsLoadedAt lits.now b.at }
    ensures vars { OnOk result (S.vars s.old ≤ S.vars s.new) }
    ensures below { IfOk result (λ out. out.var < S.vars s.new) }
    ensures defines { IfOk result (λ out. Defines (S.vars s.old) (S.clauses s.old) (S.clauses s.new) out
        (λ f. loaded_value f lits.now a.at || loaded_value f lits.now b.at)) }
{
    let left = loaded_lit(lits, a);
    let right = loaded_lit(lits, b);
    let out = fresh_lit(s)?;
    or_clauses(s, out, left, right)?;
    Ok(out)
}

/// A literal that holds where just one of the gates does.
fn xor_node<S: Solver>(
    s: &mut S,
    lits: &[Option<Lit>],
    a: Gate,
    b: Gate,
) -> Result<Lit, OutOfMemory>
    requires below { LoadedBelow (S.vars s.old) lits.now }
    requires a { IsLoadedAt lits.now a.at }
    requires b { IsLoadedAt lits.now b.at }
    ensures vars { OnOk result (S.vars s.old ≤ S.vars s.new) }
    ensures below { IfOk result (λ out. out.var < S.vars s.new) }
    ensures defines { IfOk result (λ out. Defines (S.vars s.old) (S.clauses s.old) (S.clauses s.new) out
        (λ f. xor (loaded_value f lits.now a.at) (loaded_value f lits.now b.at))) }
{
    let left = loaded_lit(lits, a);
    let right = loaded_lit(lits, b);
    let out = fresh_lit(s)?;
    xor_clauses(s, out, left, right)?;
    Ok(out)
}

/// A literal that is as `a` where `c` holds, else as `b`.
fn mux_node<S: Solver>(
    s: &mut S,
    lits: &[Option<Lit>],
    c: Gate,
    a: Gate,
    b: Gate,
) -> Result<Lit, OutOfMemory>
    requires below { LoadedBelow (S.vars s.old) lits.now }
    requires c { IsLoadedAt lits.now c.at }
    requires a { IsLoadedAt lits.now a.at }
    requires b { IsLoadedAt lits.now b.at }
    ensures vars { OnOk result (S.vars s.old ≤ S.vars s.new) }
    ensures below { IfOk result (λ out. out.var < S.vars s.new) }
    ensures defines { IfOk result (λ out. Defines (S.vars s.old) (S.clauses s.old) (S.clauses s.new) out
        (λ f. if loaded_value f lits.now c.at then loaded_value f lits.now a.at else loaded_value f lits.now b.at)) }
{
    let test = loaded_lit(lits, c);
    let left = loaded_lit(lits, a);
    let right = loaded_lit(lits, b);
    let out = fresh_lit(s)?;
    mux_clauses(s, out, test, left, right)?;
    Ok(out)
}

/// A literal with the value of the node over the loaded gates; of an input, one that may have either value.
pub fn node_lit<S: Solver>(s: &mut S, lits: &[Option<Lit>], node: Node) -> Result<Lit, OutOfMemory>
    requires below { LoadedBelow (S.vars s.old) lits.now }
    requires operands { EachOperand (IsLoadedAt lits.now) node }
    ensures vars { OnOk result (S.vars s.old ≤ S.vars s.new) }
    ensures below { IfOk result (λ out. out.var < S.vars s.new) }
    ensures encodes { IfOk result (λ out. Encodes lits.now node (S.vars s.old) (S.clauses s.old) (S.clauses s.new) out) }
{
    match node {
        Node::Constant(b) => constant_node(s, b),
        Node::Input(_) => input_node(s),
        Node::Not(a) => Ok(not_node(lits, a)),
        Node::And(a, b) => and_node(s, lits, a, b),
        Node::Or(a, b) => or_node(s, lits, a, b),
        Node::Xor(a, b) => xor_node(s, lits, a, b),
        Node::Mux(c, a, b) => mux_node(s, lits, c, a, b),
    }
}
