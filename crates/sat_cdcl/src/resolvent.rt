// The clause that a conflict is turned into, literal by literal. Which literals it has is looked up
// in a table by variables, whose entries are tested where they are read: an old one says nothing.

ghost use Rattle.std.specs.Prelude.{◌≡◌, ◌<◌, [], Some, length, slice_get, IfOk, IfSome};
ghost use Rattle.sat_cdcl.specs.Resolvents.{Takes, Leaves};

use sat_base::{Lit, OutOfMemory};
use std::alloc::Global;
use std::marker::Model;

/// A clause that is being derived. Contracts see its literals.
#[derive(Debug, Drop)]
pub struct Resolvent {
    lits: Vec<Lit>,
    /// For each variable a place among the literals, where it stands if it does anywhere.
    places: Vec<usize>,
    /// How many of the literals became false after the last decision.
    recent: usize,
}

impl Model for Resolvent {
    ghost use Rattle.std.specs.Prelude.{List};
    ghost use Rattle.sat_base.specs.declared.literal.Lit.{Lit};

    ghost Value = { List Lit };

    ghost view = { λ r. r.lits.items };
}

/// The place of a literal among these, by a table of places that may be old.
fn found_at(lits: &[Lit], places: &[usize], lit: Lit) -> Option<usize>
    ensures { IfSome result (λ k. slice_get lits.now k ≡ Some lit) }
{
    let place = places.get(lit.var).copied()?;
    match lits.get(place).copied() {
        None => None,
        Some(there) if there == lit => Some(place),
        Some(_) => None,
    }
}

fn note_place(places: &mut Vec<usize>, var: usize, place: usize) {
    if var < places.len() {
        places[var] = place;
    }
}

/// Takes out the literal at a place; the last one takes that place.
fn take_out(lits: &mut Vec<Lit>, places: &mut Vec<usize>, place: usize)
    requires { place < length lits.old.items }
    ensures { Leaves lits.old.items lits.new.items place }
{
    let _out = lits.swap_remove(place);
    if let Some(moved) = lits.get(place).copied() {
        note_place(places, moved.var, place);
    }
}

impl Resolvent {
    /// No literal, and no variable. It takes no memory.
    pub fn new(alloc: Global) -> Resolvent
        ensures { result ≡ [] }
    {
        Resolvent {
            lits: Vec::new(alloc),
            places: Vec::new(alloc),
            recent: 0,
        }
    }

    /// One variable more.
    pub fn grow(&mut self) -> Result<(), OutOfMemory>
        ensures { self.new ≡ self.old }
    {
        self.places.push(0)?;
        Ok(())
    }

    /// Takes all literals out.
    pub fn clear(&mut self)
        ensures { self.new ≡ [] }
    {
        self.lits.clear();
        self.recent = 0;
    }

    /// The literals, lent.
    pub fn lits(&self) -> &[Lit]
        ensures { result.now ≡ self.now }
    {
        self.lits.as_slice()
    }

    /// How many of them were said to be recent.
    pub fn recent(&self) -> usize {
        self.recent
    }

    /// The place of a literal, if it is there.
    pub fn place(&self, lit: Lit) -> Option<usize>
        ensures { IfSome result (λ k. slice_get self.now k ≡ Some lit) }
    {
        found_at(self.lits.as_slice(), self.places.as_slice(), lit)
    }

    /// Puts a literal in, if it is not there; `recent` says whether it became false after the last
    /// decision. The answer says whether it is new.
    pub fn insert(&mut self, lit: Lit, recent: bool) -> Result<bool, OutOfMemory>
        ensures { IfOk result (λ _. Takes self.old self.new lit) }
    {
        if self.place(lit).is_some() {
            return Ok(false);
        }
        note_place(&mut self.places, lit.var, self.lits.len());
        self.lits.push(lit)?;
        if recent {
            self.recent = self.recent.saturating_add(1);
        }
        Ok(true)
    }

    /// Takes out the literal at a place; `recent` as it was said of it.
    pub fn remove(&mut self, place: usize, recent: bool)
        requires { place < length self.old }
        ensures { Leaves self.old self.new place }
    {
        take_out(&mut self.lits, &mut self.places, place);
        if recent {
            self.recent = self.recent.saturating_sub(1);
        }
    }
}
