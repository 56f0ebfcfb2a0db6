//! The clauses of a gate.

ghost use Rattle.std.specs.Prelude.{◌≡◌, ◌<◌, ◌++◌, [], ◌∷◌, length, OnOk};
ghost use Rattle.sat_base.specs.Logic.{negation};
ghost use Rattle.net_goals.specs.Clauses.{signed as signed_as, table_clauses};
ghost use Rattle.net_goals.specs.Cones.{EachOperand};

use bit_net::Node;
use sat_base::{Clause, ClauseList, Lit, OutOfMemory};
use std::alloc::Global;

// One clause more.
pub fn put(alloc: Global, clauses: &mut ClauseList, lits: &[Lit]) -> Result<(), OutOfMemory>
    ensures { OnOk result (clauses.new ≡ clauses.old ++ lits.now ∷ []) }
{
    let clause = Clause::of(alloc, lits)?;
    clauses.push(clause)?;
    Ok(())
}

// The literal, or its opposite.
fn signed(holds: bool, lit: Lit) -> Lit
    ensures { result ≡ signed_as holds lit }
{
    if holds { lit } else { lit.negated() }
}

// The first literal holds where just the second does not.
fn put_not(alloc: Global, clauses: &mut ClauseList, out: Lit, a: Lit) -> Result<(), OutOfMemory>
    ensures { OnOk result (clauses.new ≡ clauses.old
        ++ (out ∷ a ∷ []) ∷ (negation out ∷ negation a ∷ []) ∷ []) }
{
    put(alloc, clauses, &[out, a])?;
    put(alloc, clauses, &[out.negated(), a.negated()])?;
    Ok(())
}

// The first literal holds where both others do.
fn put_and(
    alloc: Global,
    clauses: &mut ClauseList,
    out: Lit,
    a: Lit,
    b: Lit,
) -> Result<(), OutOfMemory>
    ensures { OnOk result (clauses.new ≡ clauses.old
        ++ (negation out ∷ a ∷ []) ∷ (negation out ∷ b ∷ []) ∷ (out ∷ negation a ∷ negation b ∷ []) ∷ []) }
{
    put(alloc, clauses, &[out.negated(), a])?;
    put(alloc, clauses, &[out.negated(), b])?;
    put(alloc, clauses, &[out, a.negated(), b.negated()])?;
    Ok(())
}

// The first literal holds where one of the others does.
fn put_or(
    alloc: Global,
    clauses: &mut ClauseList,
    out: Lit,
    a: Lit,
    b: Lit,
) -> Result<(), OutOfMemory>
    ensures { OnOk result (clauses.new ≡ clauses.old
        ++ (out ∷ negation a ∷ []) ∷ (out ∷ negation b ∷ []) ∷ (negation out ∷ a ∷ b ∷ []) ∷ []) }
{
    put(alloc, clauses, &[out, a.negated()])?;
    put(alloc, clauses, &[out, b.negated()])?;
    put(alloc, clauses, &[out.negated(), a, b])?;
    Ok(())
}

// The first literal holds where just one of the others does.
fn put_xor(
    alloc: Global,
    clauses: &mut ClauseList,
    out: Lit,
    a: Lit,
    b: Lit,
) -> Result<(), OutOfMemory>
    ensures { OnOk result (clauses.new ≡ clauses.old
        ++ (negation out ∷ a ∷ b ∷ []) ∷ (negation out ∷ negation a ∷ negation b ∷ [])
        ∷ (out ∷ negation a ∷ b ∷ []) ∷ (out ∷ a ∷ negation b ∷ []) ∷ []) }
{
    put(alloc, clauses, &[out.negated(), a, b])?;
    put(alloc, clauses, &[out.negated(), a.negated(), b.negated()])?;
    put(alloc, clauses, &[out, a.negated(), b])?;
    put(alloc, clauses, &[out, a, b.negated()])?;
    Ok(())
}

// The first literal is as `a` where `c` holds, else as `b`.
fn put_mux(
    alloc: Global,
    clauses: &mut ClauseList,
    out: Lit,
    c: Lit,
    a: Lit,
    b: Lit,
) -> Result<(), OutOfMemory>
    ensures { OnOk result (clauses.new ≡ clauses.old
        ++ (negation out ∷ negation c ∷ a ∷ []) ∷ (out ∷ negation c ∷ negation a ∷ [])
        ∷ (negation out ∷ c ∷ b ∷ []) ∷ (out ∷ c ∷ negation b ∷ []) ∷ []) }
{
    put(alloc, clauses, &[out.negated(), c.negated(), a])?;
    put(alloc, clauses, &[out, c.negated(), a.negated()])?;
    put(alloc, clauses, &[out.negated(), c, b])?;
    put(alloc, clauses, &[out, c, b.negated()])?;
    Ok(())
}

/// The clauses of a node, whose gate has the literal `out`, by the literals of the gates.
pub fn put_table(
    alloc: Global,
    clauses: &mut ClauseList,
    lits: &[Lit],
    out: Lit,
    node: Node,
) -> Result<(), OutOfMemory>
    requires { EachOperand (λ a. a < length lits.now) node }
    ensures { OnOk result (clauses.new ≡ clauses.old ++ table_clauses out lits.now node) }
{
    match node {
        Node::Constant(holds) => put(alloc, clauses, &[signed(holds, out)]),
        Node::Input(_) => Ok(()),
        Node::Not(a) => put_not(alloc, clauses, out, lits[a.at]),
        Node::And(a, b) => put_and(alloc, clauses, out, lits[a.at], lits[b.at]),
        Node::Or(a, b) => put_or(alloc, clauses, out, lits[a.at], lits[b.at]),
        Node::Xor(a, b) => put_xor(alloc, clauses, out, lits[a.at], lits[b.at]),
        Node::Mux(c, a, b) => put_mux(alloc, clauses, out, lits[c.at], lits[a.at], lits[b.at]),
    }
}
