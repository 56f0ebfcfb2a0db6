//! What both questions are made of: a model of some literals, and one literal more among those that are fixed.
ghost use Rattle.std.specs.Prelude.{◌≡◌, ◌<◌, ◌++◌, [], ◌∷◌, ℕ, Bool, true, length, slice_get, Some, IfOk};
ghost use Rattle.sat_base.specs.Logic.{at, negation, LitsBelow, lit_true, satisfied};
ghost use Rattle.query.specs.Values.{values_of, fixed_to, IsSeen, IsFound};

use sat_base::{Answer, Lit, OutOfMemory, Solver};
use std::alloc::Global;

/// The values that the bits have in some model in which the fixed literals hold; `None` exactly where no model has these.
pub fn model_of<S: Solver>(
    alloc: Global,
    s: &mut S,
    bits: &[Lit],
    fixed: &[Lit],
) -> Result<Option<Vec<bool>>, OutOfMemory>
    requires bits { LitsBelow (S.vars s.old) bits.now }
    requires fixed { LitsBelow (S.vars s.old) fixed.now }
    ensures vars { S.vars s.new ≡ S.vars s.old }
    ensures clauses { S.clauses s.new ≡ S.clauses s.old }
    ensures found { IfOk result (λ found. IsFound (S.clauses s.old) bits.now fixed.now found) }
{
    match s.solve(fixed)? {
        Answer::NoModel => Ok(None),
        Answer::Model => {
            let values = values_found(alloc, s, bits)?;
            Ok(Some(values))
        }
    }
}

/// The values of the bits in the model that the solver found.
fn values_found<S: Solver>(alloc: Global, s: &S, bits: &[Lit]) -> Result<Vec<bool>, OutOfMemory>
    requires { LitsBelow (length (S.found s.now)) bits.now }
    ensures { IfOk result (λ values. values.items ≡ values_of (at (S.found s.now)) bits.now) }
{
    let mut values = Vec::new(alloc);
    for bit in bits {
        let value = value_found(s, *bit);
        values.push(value)?;
    }
    Ok(values)
}

/// The value of a literal in the model that the solver found.
#[tactic(auto, unfolding(sat_base::specs::Logic::lit_true))]
fn value_found<S: Solver>(s: &S, lit: Lit) -> bool
    requires { lit.var < length (S.found s.now) }
    ensures { result ≡ lit_true (at (S.found s.now)) lit }
{
    let value = s.model(lit.var);
    if lit.neg { !value } else { value }
}

/// Fixes the bit at `place` beside the literals that are fixed: to false where some model allows it, else to true. `last` has the
/// values of the bits in some model of the fixed literals, before and after. Where the bit is false there, nothing is asked.
pub fn fix_low<S: Solver>(
    alloc: Global,
    s: &mut S,
    fixed: &mut Vec<Lit>,
    bits: &[Lit],
    place: usize,
    bit: Lit,
    last: &mut Vec<bool>,
) -> Result<bool, OutOfMemory>
    requires fixed { LitsBelow (S.vars s.old) fixed.old.items }
    requires bits { LitsBelow (S.vars s.old) bits.now }
    requires bit { slice_get bits.now place ≡ Some bit }
    requires last { IsSeen (S.clauses s.old) fixed.old.items bits.now last.old.items }
    ensures vars { S.vars s.new ≡ S.vars s.old }
    ensures clauses { S.clauses s.new ≡ S.clauses s.old }
    ensures items { IfOk result (λ value. fixed.new.items ≡ fixed.old.items ++ fixed_to value bit ∷ []) }
    ensures last { IfOk result (λ _. IsSeen (S.clauses s.old) fixed.new.items bits.now last.new.items) }
    ensures forced { IfOk result (λ value. value ≡ true
        → (f : ℕ → Bool) → satisfied f (S.clauses s.old) fixed.old.items ≡ true → lit_true f bit ≡ true) }
{
    let end = fixed.len();
    fixed.push(bit.negated())?;
    if !last[place] {
        return Ok(false);
    }
    match model_of(alloc, s, bits, fixed.as_slice())? {
        Some(values) => {
            *last = values;
            Ok(false)
        }
        None => {
            fixed[end] = bit;
            Ok(true)
        }
    }
}
