//! Certificates with one change are judged as the definition judges them.

use crate::formulas::{Formula, copy_of, judge, refutation, step_lits};
use crate::slow::slow_check;
use rup_check::Checked;
use sat_base::{Clause, ClauseList, Lit, OutOfMemory, Step};
use std::alloc::Global;

/// The number of variables, and that of clauses.
const VARS: u16 = 5;

const CLAUSES: u32 = 26;

/// So many certificates are changed.
const ROUNDS: u32 = 500;

/// Numbers in a fixed order without a pattern.
#[derive(Drop)]
struct Numbers {
    state: u64,
}

impl Numbers {
    /// The next number below a bound, or 0 where that is 0.
    fn below(&mut self, bound: usize) -> usize {
        self.state = self
            .state
            .wrapping_mul(6364136223846793005)
            .wrapping_add(1442695040888963407);
        let number = (self.state >> 33) as usize;
        if bound == 0 { 0 } else { number % bound }
    }

    fn literal(&mut self) -> Lit {
        let var = self.below(usize::from(VARS));
        Lit {
            var,
            neg: self.below(2) == 0,
        }
    }

    /// A clause of one to three literals, in which some may be the same.
    fn clause(&mut self, alloc: Global) -> Result<Clause, OutOfMemory> {
        let lits = [self.literal(), self.literal(), self.literal()];
        let length = match self.below(8) {
            0 => 1,
            1 => 2,
            _ => 3,
        };
        Clause::of(alloc, &lits[..length])
    }

    fn formula(&mut self, alloc: Global) -> Result<Formula, OutOfMemory> {
        let mut clauses = ClauseList::new(alloc);
        for _clause in 0..CLAUSES {
            clauses.push(self.clause(alloc)?)?;
        }
        Ok(Formula {
            vars: usize::from(VARS),
            clauses,
        })
    }
}

/// One change of a certificate.
#[derive(Clone, Copy)]
enum Change {
    /// The first literal of the step goes.
    Shorter,
    /// Its first literal has the other sign.
    OtherSign,
    /// The step goes.
    Gone,
    /// The clause is taken out where it was added.
    Removal,
    /// A clause of the formula is taken out before the step.
    Before,
    /// A literal stands before the others.
    Longer(Lit),
}

fn change_of(numbers: &mut Numbers) -> Change {
    match numbers.below(6) {
        0 => Change::Shorter,
        1 => Change::OtherSign,
        2 => Change::Gone,
        3 => Change::Removal,
        4 => Change::Before,
        _ => Change::Longer(numbers.literal()),
    }
}

fn shorter(alloc: Global, lits: &[Lit]) -> Result<Clause, OutOfMemory> {
    match lits {
        [_, rest @ ..] => Clause::of(alloc, rest),
        [] => Clause::of(alloc, lits),
    }
}

fn other_sign(alloc: Global, lits: &[Lit]) -> Result<Clause, OutOfMemory> {
    let mut changed = lits.to_vec(alloc)?;
    if let Some(first) = changed.first_mut() {
        *first = first.negated();
    }
    Clause::of(alloc, &changed)
}

fn longer(alloc: Global, lit: Lit, lits: &[Lit]) -> Result<Clause, OutOfMemory> {
    let mut changed = Vec::new(alloc);
    changed.push(lit)?;
    changed.extend_from_slice(lits)?;
    Clause::of(alloc, &changed)
}

/// Takes the first clause of the formula out, then does the step.
fn put_before(
    alloc: Global,
    formula: &Formula,
    step: &Step,
    out: &mut Vec<Step>,
) -> Result<(), OutOfMemory> {
    if let Some(first) = formula.clauses.clauses().first() {
        out.push(Step::Drop(Clause::of(alloc, first.lits())?))?;
    }
    out.push(copy_of(alloc, step)?)?;
    Ok(())
}

/// Puts the step, changed.
fn put_changed(
    alloc: Global,
    formula: &Formula,
    step: &Step,
    change: Change,
    out: &mut Vec<Step>,
) -> Result<(), OutOfMemory> {
    let lits = step_lits(step);
    match change {
        Change::Shorter => out.push(Step::Add(shorter(alloc, lits)?))?,
        Change::OtherSign => out.push(Step::Add(other_sign(alloc, lits)?))?,
        Change::Gone => {}
        Change::Removal => out.push(Step::Drop(Clause::of(alloc, lits)?))?,
        Change::Before => put_before(alloc, formula, step, out)?,
        Change::Longer(lit) => out.push(Step::Add(longer(alloc, lit, lits)?))?,
    }
    Ok(())
}

/// The steps, of which one is changed.
fn changed(
    alloc: Global,
    formula: &Formula,
    steps: &[Step],
    place: usize,
    change: Change,
) -> Result<Vec<Step>, OutOfMemory> {
    let mut out = Vec::new(alloc);
    for k in 0..steps.len() {
        if k == place {
            put_changed(alloc, formula, &steps[k], change, &mut out)?;
        } else {
            out.push(copy_of(alloc, &steps[k])?)?;
        }
    }
    Ok(out)
}

/// How many certificates were changed, how many of them are certificates still, and of how many the two checkers say
/// different things.
#[derive(Clone, Copy)]
struct Counts {
    changed: u32,
    accepted: u32,
    disputed: u32,
}

/// One more certificate was changed.
fn counted(counts: Counts, fast: Option<Checked>, slow: Checked) -> Counts {
    let accepted = if slow == Checked::Yes { 1 } else { 0 };
    let disputed = if fast == Some(slow) { 0 } else { 1 };
    Counts {
        changed: counts.changed.saturating_add(1),
        accepted: counts.accepted.saturating_add(accepted),
        disputed: counts.disputed.saturating_add(disputed),
    }
}

/// Changes one step of a certificate, and lets both checkers judge it.
fn judge_changed(
    alloc: Global,
    numbers: &mut Numbers,
    formula: &Formula,
    steps: &[Step],
    counts: Counts,
) -> Result<Counts, OutOfMemory> {
    let place = numbers.below(steps.len());
    let change = change_of(numbers);
    let other = changed(alloc, formula, steps, place, change)?;
    let fast = judge(alloc, formula, &other)?;
    let slow = slow_check(alloc, VARS, formula, &other)?;
    Ok(counted(counts, fast, slow))
}

/// Makes the next formula. If it has no model, its certificate is changed, and both checkers judge it.
fn round(alloc: Global, numbers: &mut Numbers, counts: Counts) -> Result<Counts, OutOfMemory> {
    let formula = numbers.formula(alloc)?;
    match refutation(alloc, &formula)? {
        Some(steps) => judge_changed(alloc, numbers, &formula, &steps, counts),
        None => Ok(counts),
    }
}

fn rounds(alloc: Global) -> Result<Counts, OutOfMemory> {
    let mut numbers = Numbers { state: 1 };
    let mut counts = Counts {
        changed: 0,
        accepted: 0,
        disputed: 0,
    };
    for _round in 0..4 * ROUNDS {
        if counts.changed == ROUNDS {
            break;
        }
        counts = round(alloc, &mut numbers, counts)?;
    }
    Ok(counts)
}

/// Both answers come often enough to mean something.
fn mean_something(counts: Counts) -> bool {
    counts.changed == ROUNDS
        && counts.disputed == 0
        && 50 < counts.accepted
        && counts.accepted < 450
}

#[test]
fn changed_certificates_are_judged_as_defined(rt: HostRuntime) {
    assert!(rt; matches!(rounds(rt.alloc()), Ok(counts) if mean_something(counts)));
}
