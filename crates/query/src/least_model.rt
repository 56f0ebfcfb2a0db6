//! The least values that some literals have in a model in which goals hold. The solver is told to decide these literals first, as
//! false, so that the first model has mostly the least values already; one further question shows it. Where it does not, a bit that is
//! false in the model found last is fixed without a question.
ghost use Rattle.std.specs.Prelude.{◌≡◌, ◌<◌, ◌≤◌, [], ◌∷◌, MatchOption, IfOk};
ghost use Rattle.sat_base.specs.Logic.{LitsBelow, Extends};
ghost use Rattle.query.specs.Values.{HasNone, IsSeen, IsLeast};

use crate::fixing::{fix_low, model_of};
use crate::lower::lower_question;
use sat_base::{Lit, OutOfMemory, Solver};
use std::alloc::Global;

/// The values of the bits in the first model in which the goals hold: first in lexicographic
/// order, false before true. `None` exactly where no model makes the goals true. New variables and
/// clauses of them are added, by which no model of the others is lost or won, also where memory is
/// refused.
pub fn least<S: Solver>(
    alloc: Global,
    s: &mut S,
    bits: &[Lit],
    goals: &[Lit],
) -> Result<Option<Vec<bool>>, OutOfMemory>
    requires bits { LitsBelow (S.vars s.old) bits.now }
    requires goals { LitsBelow (S.vars s.old) goals.now }
    ensures vars { S.vars s.old ≤ S.vars s.new }
    ensures clauses { Extends (S.vars s.old) (S.clauses s.old) (S.clauses s.new) }
    ensures least { IfOk result (λ found. MatchOption found
        (HasNone (S.clauses s.old) goals.now) (λ values. IsLeast (S.clauses s.old) bits.now goals.now values.items)) }
{
    let first = Vec::from_slice(alloc, bits)?;
    s.prefer(first);
    let found = least_found(alloc, s, bits, goals);
    s.prefer(Vec::new(alloc));
    found
}

/// The same, whatever the solver decides first.
fn least_found<S: Solver>(
    alloc: Global,
    s: &mut S,
    bits: &[Lit],
    goals: &[Lit],
) -> Result<Option<Vec<bool>>, OutOfMemory>
    requires bits { LitsBelow (S.vars s.old) bits.now }
    requires goals { LitsBelow (S.vars s.old) goals.now }
    ensures vars { S.vars s.old ≤ S.vars s.new }
    ensures clauses { Extends (S.vars s.old) (S.clauses s.old) (S.clauses s.new) }
    ensures least { IfOk result (λ found. MatchOption found
        (HasNone (S.clauses s.old) goals.now) (λ values. IsLeast (S.clauses s.old) bits.now goals.now values.items)) }
{
    match model_of(alloc, s, bits, goals)? {
        None => Ok(None),
        Some(values) => {
            let least = lowest(alloc, s, bits, goals, values)?;
            Ok(Some(least))
        }
    }
}

/// The least values, by the values of the bits in some model in which the goals hold. These are it where no model has values before
/// them.
fn lowest<S: Solver>(
    alloc: Global,
    s: &mut S,
    bits: &[Lit],
    goals: &[Lit],
    values: Vec<bool>,
) -> Result<Vec<bool>, OutOfMemory>
    requires bits { LitsBelow (S.vars s.old) bits.now }
    requires goals { LitsBelow (S.vars s.old) goals.now }
    requires seen { IsSeen (S.clauses s.old) goals.now bits.now values.items }
    ensures vars { S.vars s.old ≤ S.vars s.new }
    ensures clauses { Extends (S.vars s.old) (S.clauses s.old) (S.clauses s.new) }
    ensures least { IfOk result (λ least. IsLeast (S.clauses s.old) bits.now goals.now least.items) }
{
    let lower = find_lower(alloc, s, bits, goals, values.as_slice())?;
    match lower {
        None => Ok(values),
        Some(last) => least_from(alloc, s, bits, goals, last),
    }
}

/// The values of the bits in some model in which the goals hold; `None` only where no model has values before these.
fn find_lower<S: Solver>(
    alloc: Global,
    s: &mut S,
    bits: &[Lit],
    goals: &[Lit],
    values: &[bool],
) -> Result<Option<Vec<bool>>, OutOfMemory>
    requires bits { LitsBelow (S.vars s.old) bits.now }
    requires goals { LitsBelow (S.vars s.old) goals.now }
    requires seen { IsSeen (S.clauses s.old) goals.now bits.now values.now }
    ensures vars { S.vars s.old ≤ S.vars s.new }
    ensures clauses { Extends (S.vars s.old) (S.clauses s.old) (S.clauses s.new) }
    ensures lower { IfOk result (λ lower. MatchOption lower (IsLeast (S.clauses s.old) bits.now goals.now values.now)
        (λ last. IsSeen (S.clauses s.new) goals.now bits.now last.items)) }
{
    let question = lower_question(alloc, s, bits, goals, values)?;
    let lower = model_of(alloc, s, bits, question.as_slice())?;
    Ok(lower)
}

/// The least values, bit by bit.
fn least_from<S: Solver>(
    alloc: Global,
    s: &mut S,
    bits: &[Lit],
    goals: &[Lit],
    last: Vec<bool>,
) -> Result<Vec<bool>, OutOfMemory>
    requires bits { LitsBelow (S.vars s.old) bits.now }
    requires goals { LitsBelow (S.vars s.old) goals.now }
    requires last { IsSeen (S.clauses s.old) goals.now bits.now last.items }
    ensures vars { S.vars s.new ≡ S.vars s.old }
    ensures clauses { S.clauses s.new ≡ S.clauses s.old }
    ensures least { IfOk result (λ values. IsLeast (S.clauses s.old) bits.now goals.now values.items) }
{
    let fixed = Vec::from_slice(alloc, goals)?;
    least_values(alloc, s, bits, goals, fixed, last)
}

/// Fixes one bit after the other, as low as a model allows. `last` has the values of the bits in a model in which the goals hold.
fn least_values<S: Solver>(
    alloc: Global,
    s: &mut S,
    bits: &[Lit],
    goals: &[Lit],
    mut fixed: Vec<Lit>,
    mut last: Vec<bool>,
) -> Result<Vec<bool>, OutOfMemory>
    requires bits { LitsBelow (S.vars s.old) bits.now }
    requires below { LitsBelow (S.vars s.old) fixed.items }
    requires goals { fixed.items ≡ goals.now }
    requires last { IsSeen (S.clauses s.old) fixed.items bits.now last.items }
    ensures vars { S.vars s.new ≡ S.vars s.old }
    ensures clauses { S.clauses s.new ≡ S.clauses s.old }
    ensures least { IfOk result (λ values. IsLeast (S.clauses s.old) bits.now goals.now values.items) }
{
    let mut values = Vec::new(alloc);
    for place in 0..bits.len() {
        let value = fix_low(alloc, s, &mut fixed, bits, place, bits[place], &mut last)?;
        values.push(value)?;
    }
    Ok(values)
}
