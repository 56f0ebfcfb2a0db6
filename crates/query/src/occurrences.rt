//! All values that some literals have in models. A question is asked only for a half of the models in which none is known.
ghost use Rattle.std.specs.Prelude.{◌≡◌, ◌+◌, ◌^◌, ◌<◌, ◌≤◌, ◌↔◌, ◌++◌, [], ◌∷◌, ℕ, length, drop, slice_get, Some, Contains, IfOk};
ghost use Rattle.std.specs.List.Sorted.{IsStrictlyIncreasing};
ghost use Rattle.sat_base.specs.Logic.{negation, LitsBelow};
ghost use Rattle.query.specs.Values.{Occurs, IsSeen, IsPart, ListsValues};

use crate::fixing::model_of;
use sat_base::{Lit, OutOfMemory, Solver};
use std::alloc::Global;

/// The values that the bits have in models, as numbers in which the first bit is the highest:
/// ascending, each once. There are at most 12 bits. The clauses stay as they are, also where
/// memory is refused.
pub fn occurring<S: Solver>(alloc: Global, s: &mut S, bits: &[Lit]) -> Result<Vec<u16>, OutOfMemory>
    requires below { LitsBelow (S.vars s.old) bits.now }
    requires few { length bits.now ≤ 12 }
    ensures vars { S.vars s.new ≡ S.vars s.old }
    ensures clauses { S.clauses s.new ≡ S.clauses s.old }
    ensures rising { IfOk result (λ values. IsStrictlyIncreasing values.items) }
    ensures exact { IfOk result (λ values. (v : ℕ) → Contains values.items v ↔ Occurs (S.clauses s.old) bits.now [] 0 v) }
{
    let model = model_of(alloc, s, bits, &[])?;
    let all = Part {
        fixed: Vec::new(alloc),
        model,
    };
    let values = collected(alloc, s, bits, 0, 0, all)?;
    Ok(values)
}

/// Some of the models: the literals that hold in them, and the values of the bits in one of them, if there is one.
#[derive(Drop)]
struct Part {
    fixed: Vec<Lit>,
    model: Option<Vec<bool>>,
}

/// The models of a part in which a bit is false, and those in which it is true.
#[derive(Drop)]
struct Halves {
    low: Part,
    up: Part,
}

/// The values from the bit at `place` on, in the models of a part; `high` is the number of the bits before. Of its two halves the one
/// that has the model known needs no question.
fn collected<S: Solver>(
    alloc: Global,
    s: &mut S,
    bits: &[Lit],
    place: usize,
    high: u16,
    part: Part,
) -> Result<Vec<u16>, OutOfMemory>
    requires below { LitsBelow (S.vars s.old) bits.now }
    requires few { length bits.now ≤ 12 }
    requires place { place ≤ length bits.now }
    requires room { high < 2 ^ place }
    requires fixed { LitsBelow (S.vars s.old) part.fixed.items }
    requires part { IsPart (S.clauses s.old) bits.now part.fixed.items part.model }
    ensures vars { S.vars s.new ≡ S.vars s.old }
    ensures clauses { S.clauses s.new ≡ S.clauses s.old }
    ensures lists { IfOk result (λ values. ListsValues (S.clauses s.old) (drop place bits.now) part.fixed.items high values.items) }
{
    let Part { fixed, model } = part;
    match model {
        None => Ok(Vec::new(alloc)),
        Some(_) if place == bits.len() => {
            let values = single(alloc, high)?;
            Ok(values)
        }
        Some(last) => {
            let halves = split(alloc, s, bits, place, bits[place], fixed.as_slice(), last)?;
            let mut values = collected(alloc, s, bits, place + 1, 2 * high, halves.low)?;
            let others = collected(alloc, s, bits, place + 1, 2 * high + 1, halves.up)?;
            values.extend_from_slice(others.as_slice())?;
            Ok(values)
        }
    }
}

/// Splits the models of the fixed literals by the bit at `place`. One question finds a model of the half that `last` does not lie in.
fn split<S: Solver>(
    alloc: Global,
    s: &mut S,
    bits: &[Lit],
    place: usize,
    bit: Lit,
    fixed: &[Lit],
    last: Vec<bool>,
) -> Result<Halves, OutOfMemory>
    requires below { LitsBelow (S.vars s.old) bits.now }
    requires bit { slice_get bits.now place ≡ Some bit }
    requires fixed { LitsBelow (S.vars s.old) fixed.now }
    requires last { IsSeen (S.clauses s.old) fixed.now bits.now last.items }
    ensures vars { S.vars s.new ≡ S.vars s.old }
    ensures clauses { S.clauses s.new ≡ S.clauses s.old }
    ensures low_fixed { IfOk result (λ r. r.low.fixed.items ≡ fixed.now ++ negation bit ∷ []) }
    ensures up_fixed { IfOk result (λ r. r.up.fixed.items ≡ fixed.now ++ bit ∷ []) }
    ensures low_below { IfOk result (λ r. LitsBelow (S.vars s.old) r.low.fixed.items) }
    ensures up_below { IfOk result (λ r. LitsBelow (S.vars s.old) r.up.fixed.items) }
    ensures low { IfOk result (λ r. IsPart (S.clauses s.old) bits.now r.low.fixed.items r.low.model) }
    ensures up { IfOk result (λ r. IsPart (S.clauses s.old) bits.now r.up.fixed.items r.up.model) }
{
    let without = with_literal(alloc, fixed, bit.negated())?;
    let including = with_literal(alloc, fixed, bit)?;
    if last[place] {
        let model = model_of(alloc, s, bits, without.as_slice())?;
        let low = Part {
            fixed: without,
            model,
        };
        let up = Part {
            fixed: including,
            model: Some(last),
        };
        Ok(Halves { low, up })
    } else {
        let model = model_of(alloc, s, bits, including.as_slice())?;
        let low = Part {
            fixed: without,
            model: Some(last),
        };
        let up = Part {
            fixed: including,
            model,
        };
        Ok(Halves { low, up })
    }
}

/// The list of one value.
fn single(alloc: Global, value: u16) -> Result<Vec<u16>, OutOfMemory>
    ensures { IfOk result (λ values. values.items ≡ value ∷ []) }
{
    let mut values = Vec::new(alloc);
    values.push(value)?;
    Ok(values)
}

/// These literals, and one more at the end.
fn with_literal(alloc: Global, lits: &[Lit], lit: Lit) -> Result<Vec<Lit>, OutOfMemory>
    ensures { IfOk result (λ more. more.items ≡ lits.now ++ lit ∷ []) }
{
    let mut more = Vec::from_slice(alloc, lits)?;
    more.push(lit)?;
    Ok(more)
}
