//! A set of marked literals: a bit for each literal, and a list of those marked, so that clearing takes
//! time for these alone. A literal and its negation may both be marked.

ghost use Rattle.std.specs.Prelude.{◌≡◌, ◌↔◌, ◌+◌, ◌*◌, ◌^◌, ◌<◌, [], map, IsTrue, OnOk, OnErr, IfOk};
ghost use Rattle.std.specs.List.{Contains};
ghost use Rattle.sat_base.specs.declared.literal.Lit.{Lit};
ghost use Rattle.sat_base.specs.Logic.{negation, LitsBelow};
ghost use Rattle.rup_check.specs.Marking.{place, IsMarks, IsMarked};

use sat_base::{Lit, OutOfMemory};
use std::alloc::Global;
use std::marker::Model;

/// A set of marked literals. Contracts see the number of variables, the literals in the order in which
/// they were marked, and how many are not marked.
#[derive(Debug, Drop)]
pub struct Marks {
    vars: usize,
    bits: Vec<bool>,
    trail: Vec<Lit>,
}

impl Model for Marks {
    ghost use Rattle.std.specs.Prelude.{not, count_by};
    ghost use Rattle.rup_check.specs.Marking.{MarksState, IsMarks};

    ghost Value = { MarksState };

    ghost view = { λ m. record { vars = m.vars; lits = m.trail.items; unmarked = count_by (λ b. not b) m.bits.items } };

    ghost invariant = { λ m. IsMarks m.vars m.bits.items m.trail.items };
}

/// The place of a literal among all literals.
fn place(lit: Lit) -> usize
    requires { 2 * lit.var + 1 < 2 ^ 64 }
    ensures { result ≡ place lit }
{
    2 * lit.var + if lit.neg { 1 } else { 0 }
}

/// How many literals so many variables have. More than memory has addresses are refused.
fn lit_count(vars: usize) -> Result<usize, OutOfMemory>
    ensures { IfOk result (λ count. count ≡ 2 * vars) }
{
    match vars.checked_mul(2) {
        Some(count) => Ok(count),
        None => Err(OutOfMemory),
    }
}

/// Takes the bits of these literals back.
fn clear_bits(bits: &mut Vec<bool>, lits: &[Lit], vars: usize)
    requires { IsMarks vars bits.old.items lits.now }
    ensures { IsMarks vars bits.new.items [] }
{
    for lit in lits {
        bits[place(*lit)] = false;
    }
}

impl Marks {
    /// No literal of this many variables is marked.
    pub fn new(alloc: Global, vars: usize) -> Result<Marks, OutOfMemory>
        ensures { IfOk result (λ marks. (marks.vars ≡ vars) × (marks.lits ≡ [])) }
    {
        let count = lit_count(vars)?;
        let bits = vec![in alloc; false; count]?;
        Ok(Marks {
            vars,
            bits,
            trail: Vec::new(alloc),
        })
    }

    /// Whether this literal is marked.
    pub fn has(&self, lit: Lit) -> bool
        requires { lit.var < self.now.vars }
        ensures { IsTrue result ↔ Contains self.now.lits lit }
    {
        self.bits[place(lit)]
    }

    /// Whether this literal is marked. One of a variable that does not exist is not.
    pub fn is_marked(&self, lit: Lit) -> bool {
        lit.var < self.vars && self.has(lit)
    }

    /// How many literals there are. No more can be marked.
    pub fn capacity(&self) -> usize {
        self.bits.len()
    }

    /// The literal that was marked at this place in the order, if so many are marked.
    pub fn nth(&self, place: usize) -> Option<Lit> {
        self.trail.get(place).copied()
    }

    /// The marked literals, each once.
    pub fn lits(&self) -> &[Lit] {
        self.trail.as_slice()
    }

    /// Whether all of these literals are marked.
    pub fn has_all(&self, lits: &[Lit]) -> bool
        requires { LitsBelow self.now.vars lits.now }
        ensures { IsTrue result ↔ ((l : Lit) → Contains lits.now l → Contains self.now.lits l) }
    {
        for lit in lits {
            if !self.has(*lit) {
                return false;
            }
        }
        true
    }

    /// Marks this literal, if it is not marked yet.
    pub fn mark(&mut self, lit: Lit) -> Result<(), OutOfMemory>
        requires { lit.var < self.old.vars }
        ensures ok { OnOk result (IsMarked self.old self.new lit) }
        ensures err { OnErr result (self.new ≡ self.old) }
    {
        if self.has(lit) {
            return Ok(());
        }
        self.trail.push(lit)?;
        self.bits[place(lit)] = true;
        Ok(())
    }

    /// Leaves no literal marked.
    pub fn clear(&mut self)
        ensures vars { self.new.vars ≡ self.old.vars }
        ensures empty { self.new.lits ≡ [] }
    {
        clear_bits(&mut self.bits, self.trail.as_slice(), self.vars);
        self.trail.clear();
    }

    /// Leaves exactly these literals marked.
    pub fn set_to(&mut self, lits: &[Lit]) -> Result<(), OutOfMemory>
        requires { LitsBelow self.old.vars lits.now }
        ensures vars { self.new.vars ≡ self.old.vars }
        ensures set { OnOk result ((l : Lit) → Contains self.new.lits l ↔ Contains lits.now l) }
    {
        self.clear();
        for lit in lits {
            self.mark(*lit)?;
        }
        Ok(())
    }

    /// Leaves exactly the negations of these literals marked.
    pub fn set_to_negations(&mut self, lits: &[Lit]) -> Result<(), OutOfMemory>
        requires { LitsBelow self.old.vars lits.now }
        ensures vars { self.new.vars ≡ self.old.vars }
        ensures set { OnOk result ((l : Lit) → Contains self.new.lits l ↔ Contains (map negation lits.now) l) }
    {
        self.clear();
        for lit in lits {
            self.mark(lit.negated())?;
        }
        Ok(())
    }
}
