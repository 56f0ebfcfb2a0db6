//! The question whether some model has values before these, as clauses over new variables and assumptions.
ghost use Rattle.std.specs.Prelude.{◌≡◌, ◌<◌, ◌≤◌, ◌+◌, ◌++◌, [], ◌∷◌, ℕ, Bool, true, length, OnOk, OnErr, IfOk};
ghost use Rattle.sat_base.specs.Logic.{each_true, LitsBelow, Extends};
ghost use Rattle.query.specs.Lower.{link, link_next, links, links_end, IsBegun, AsksLower};

use sat_base::{Lit, OutOfMemory, Solver};
use std::alloc::Global;

/// Assumptions under which a model has values before these, if any model in which the goals hold has. What is added speaks of new
/// variables.
pub fn lower_question<S: Solver>(
    alloc: Global,
    s: &mut S,
    bits: &[Lit],
    goals: &[Lit],
    values: &[bool],
) -> Result<Vec<Lit>, OutOfMemory>
    requires bits { LitsBelow (S.vars s.old) bits.now }
    requires goals { LitsBelow (S.vars s.old) goals.now }
    requires values { length values.now ≡ length bits.now }
    ensures vars { S.vars s.old ≤ S.vars s.new }
    ensures clauses { Extends (S.vars s.old) (S.clauses s.old) (S.clauses s.new) }
    ensures below { IfOk result (λ question. LitsBelow (S.vars s.new) question.items) }
    ensures goals { IfOk result (λ question. (f : ℕ → Bool) → each_true f question.items ≡ true → each_true f goals.now ≡ true) }
    ensures asks { IfOk result (λ question. AsksLower (S.clauses s.old) (S.clauses s.new) bits.now goals.now values.now question.items) }
{
    let mut question = Vec::from_slice(alloc, goals)?;
    let first = s.fresh()?;
    let last = add_links(s, first, bits, values)?;
    question.push(Lit {
        var: first,
        neg: false,
    })?;
    question.push(Lit {
        var: last,
        neg: true,
    })?;
    Ok(question)
}

/// Adds the clauses of all bits, and gives the variable behind them.
fn add_links<S: Solver>(
    s: &mut S,
    first: usize,
    bits: &[Lit],
    values: &[bool],
) -> Result<usize, OutOfMemory>
    requires first { S.vars s.old ≡ first + 1 }
    requires bits { LitsBelow first bits.now }
    requires values { length values.now ≡ length bits.now }
    ensures vars { S.vars s.old ≤ S.vars s.new }
    ensures begun { IsBegun (S.clauses s.old) (S.clauses s.new) (links first bits.now values.now) }
    ensures ok { OnOk result (S.clauses s.new ≡ S.clauses s.old ++ links first bits.now values.now) }
    ensures last { IfOk result (λ last. (last ≡ links_end first values.now) × (last < S.vars s.new)) }
{
    let mut at = first;
    for place in 0..bits.len() {
        at = add_link(s, at, bits[place], values[place])?;
    }
    Ok(at)
}

/// Adds the clause of one bit, and gives the variable behind it.
#[tactic(auto, using(crate::proofs::Lowering::below_two, crate::proofs::Lowering::below_three))]
fn add_link<S: Solver>(s: &mut S, at: usize, bit: Lit, value: bool) -> Result<usize, OutOfMemory>
    requires at { S.vars s.old ≡ at + 1 }
    requires bit { bit.var < at }
    ensures vars { S.vars s.old ≤ S.vars s.new }
    ensures ok { IfOk result (λ next. (next ≡ link_next at value) × (S.vars s.new ≡ next + 1)
        × (S.clauses s.new ≡ S.clauses s.old ++ link at bit value ∷ [])) }
    ensures err { OnErr result (S.clauses s.new ≡ S.clauses s.old) }
{
    let off = Lit { var: at, neg: true };
    let low = bit.negated();
    if !value {
        s.add(&[off, low])?;
        return Ok(at);
    }
    let next = s.fresh()?;
    let on = Lit {
        var: next,
        neg: false,
    };
    s.add(&[off, low, on])?;
    Ok(next)
}
