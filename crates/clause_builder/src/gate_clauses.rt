//! The clauses of one gate, by the literals of the gate and of the gates that it reads: the fewest that say its truth table, 1 for a
//! constant, 2 for `not`, 3 for `and` and `or`, 4 for `xor` and `mux`.
ghost use Rattle.std.specs.Prelude.{◌≡◌, ◌<◌, ◌≤◌, ◌&&◌, ◌||◌, Bool, not, if◌then◌else◌, ℕ, length, All, OnOk};
ghost use Rattle.bit_net.specs.Value.{xor};
ghost use Rattle.sat_base.specs.Logic.{lit_true, LitsBelow};
ghost use Rattle.clause_builder.specs.Adding.{Adds, AddsFresh};
ghost use Rattle.clause_builder.specs.Gates.{alike, gate_value, gate_holds, OperandsBelow};

use crate::adding::{add_one, add_three, add_two};
use bit_net::Node;
use sat_base::{Lit, OutOfMemory, Solver};

/// The literal has this value.
#[tactic(auto, using(crate::proofs::Tables::adds_true, crate::proofs::Tables::adds_false))]
pub fn constant_clauses<S: Solver>(s: &mut S, out: Lit, b: bool) -> Result<(), OutOfMemory>
    requires { out.var < S.vars s.old }
    ensures vars { S.vars s.new ≡ S.vars s.old }
    ensures ok { OnOk result (Adds (S.clauses s.old) (S.clauses s.new) (λ f. alike (lit_true f out) b)) }
    ensures fresh { (base : ℕ) → base ≤ out.var → AddsFresh base (S.clauses s.old) (S.clauses s.new) }
{
    if b {
        add_one(s, out)
    } else {
        add_one(s, out.negated())
    }
}

/// The literal holds where the other does not.
fn not_clauses<S: Solver>(s: &mut S, out: Lit, a: Lit) -> Result<(), OutOfMemory>
    requires out { out.var < S.vars s.old }
    requires a { a.var < S.vars s.old }
    ensures vars { S.vars s.new ≡ S.vars s.old }
    ensures ok { OnOk result (Adds (S.clauses s.old) (S.clauses s.new) (λ f. alike (lit_true f out) (not (lit_true f a)))) }
    ensures fresh { (base : ℕ) → base ≤ out.var → base ≤ a.var → AddsFresh base (S.clauses s.old) (S.clauses s.new) }
{
    let not_out = out.negated();
    let not_a = a.negated();
    add_two(s, out, a)?;
    add_two(s, not_out, not_a)?;
    Ok(())
}

/// The literal holds where both others do.
pub fn and_clauses<S: Solver>(s: &mut S, out: Lit, a: Lit, b: Lit) -> Result<(), OutOfMemory>
    requires out { out.var < S.vars s.old }
    requires a { a.var < S.vars s.old }
    requires b { b.var < S.vars s.old }
    ensures vars { S.vars s.new ≡ S.vars s.old }
    ensures ok { OnOk result (Adds (S.clauses s.old) (S.clauses s.new) (λ f. alike (lit_true f out) (lit_true f a && lit_true f b))) }
    ensures fresh { (base : ℕ) → base ≤ out.var → base ≤ a.var → base ≤ b.var → AddsFresh base (S.clauses s.old) (S.clauses s.new) }
{
    let not_out = out.negated();
    let not_a = a.negated();
    let not_b = b.negated();
    add_two(s, not_out, a)?;
    add_two(s, not_out, b)?;
    add_three(s, out, not_a, not_b)?;
    Ok(())
}

/// The literal holds where at least one of the others does: its opposite holds where both opposites do.
pub fn or_clauses<S: Solver>(s: &mut S, out: Lit, a: Lit, b: Lit) -> Result<(), OutOfMemory>
    requires out { out.var < S.vars s.old }
    requires a { a.var < S.vars s.old }
    requires b { b.var < S.vars s.old }
    ensures vars { S.vars s.new ≡ S.vars s.old }
    ensures ok { OnOk result (Adds (S.clauses s.old) (S.clauses s.new) (λ f. alike (lit_true f out) (lit_true f a || lit_true f b))) }
    ensures fresh { (base : ℕ) → base ≤ out.var → base ≤ a.var → base ≤ b.var → AddsFresh base (S.clauses s.old) (S.clauses s.new) }
{
    let not_out = out.negated();
    let not_a = a.negated();
    let not_b = b.negated();
    and_clauses(s, not_out, not_a, not_b)?;
    Ok(())
}

/// The literal holds where just one of the others does.
pub fn xor_clauses<S: Solver>(s: &mut S, out: Lit, a: Lit, b: Lit) -> Result<(), OutOfMemory>
    requires out { out.var < S.vars s.old }
    requires a { a.var < S.vars s.old }
    requires b { b.var < S.vars s.old }
    ensures vars { S.vars s.new ≡ S.vars s.old }
    ensures ok { OnOk result (Adds (S.clauses s.old) (S.clauses s.new) (λ f. alike (lit_true f out) (xor (lit_true f a) (lit_true f b)))) }
    ensures fresh { (base : ℕ) → base ≤ out.var → base ≤ a.var → base ≤ b.var → AddsFresh base (S.clauses s.old) (S.clauses s.new) }
{
    let not_out = out.negated();
    let not_a = a.negated();
    let not_b = b.negated();
    add_three(s, not_out, a, b)?;
    add_three(s, not_out, not_a, not_b)?;
    add_three(s, out, not_a, b)?;
    add_three(s, out, a, not_b)?;
    Ok(())
}

/// The literal is as `a` where `c` holds, else as `b`.
pub fn mux_clauses<S: Solver>(
    s: &mut S,
    out: Lit,
    c: Lit,
    a: Lit,
    b: Lit,
) -> Result<(), OutOfMemory>
    requires out { out.var < S.vars s.old }
    requires c { c.var < S.vars s.old }
    requires a { a.var < S.vars s.old }
    requires b { b.var < S.vars s.old }
    ensures vars { S.vars s.new ≡ S.vars s.old }
    ensures ok { OnOk result (Adds (S.clauses s.old) (S.clauses s.new)
        (λ f. alike (lit_true f out) (if lit_true f c then lit_true f a else lit_true f b))) }
    ensures fresh { (base : ℕ) → base ≤ out.var → base ≤ c.var → base ≤ a.var → base ≤ b.var
        → AddsFresh base (S.clauses s.old) (S.clauses s.new) }
{
    let not_out = out.negated();
    let not_c = c.negated();
    let not_a = a.negated();
    let not_b = b.negated();
    add_three(s, not_out, not_c, a)?;
    add_three(s, out, not_c, not_a)?;
    add_three(s, not_out, c, b)?;
    add_three(s, out, c, not_b)?;
    Ok(())
}

/// The clauses of a gate, by the literals of the gates. An input has none.
#[tactic(auto, unfolding(crate::specs::Gates::gate_value))]
pub fn add_gate<S: Solver>(
    s: &mut S,
    lits: &[Lit],
    gate: usize,
    node: Node,
) -> Result<(), OutOfMemory>
    requires vars { LitsBelow (S.vars s.old) lits.now }
    requires gate { gate < length lits.now }
    requires operands { OperandsBelow (length lits.now) node }
    ensures vars { S.vars s.new ≡ S.vars s.old }
    ensures ok { OnOk result (Adds (S.clauses s.old) (S.clauses s.new) (λ f. gate_holds (gate_value f lits.now) gate node)) }
    ensures fresh { (base : ℕ) → All (λ l. base ≤ l.var) lits.now → AddsFresh base (S.clauses s.old) (S.clauses s.new) }
{
    let out = lits[gate];
    match node {
        Node::Constant(b) => constant_clauses(s, out, b),
        Node::Input(_) => Ok(()),
        Node::Not(a) => not_clauses(s, out, lits[a.at]),
        Node::And(a, b) => and_clauses(s, out, lits[a.at], lits[b.at]),
        Node::Or(a, b) => or_clauses(s, out, lits[a.at], lits[b.at]),
        Node::Xor(a, b) => xor_clauses(s, out, lits[a.at], lits[b.at]),
        Node::Mux(c, a, b) => mux_clauses(s, out, lits[c.at], lits[a.at], lits[b.at]),
    }
}
