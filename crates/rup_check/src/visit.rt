//! A look at one clause under the marked literals.

ghost use Rattle.std.specs.Prelude.{◌≡◌, IfOk};
ghost use Rattle.rup_check.specs.Stored.{present, StoredBelow};
ghost use Rattle.rup_check.specs.Propagating.{Extends, IsVisit};

use crate::look::{OpenLits, open_lits};
use crate::marks::Marks;
use crate::store::Store;
use sat_base::{Lit, OutOfMemory};

/// What a look at the clause of a number found.
#[derive(Clone, Copy, Debug)]
pub enum Visited {
    /// The clause was taken out.
    Gone,
    /// The negation of each of its literals is marked.
    Falsified,
    /// It forced a literal, which is marked now.
    Forced,
    /// It forces a literal that was marked before.
    Settled,
    /// The negations of these two literals of it are not marked.
    Open(Lit, Lit),
}

/// Looks at the clause of this number, and marks the literal that it forces, if there is one.
pub fn visit(store: &Store, marks: &mut Marks, id: usize) -> Result<Visited, OutOfMemory>
    requires { StoredBelow marks.old.vars store.now }
    ensures extends { Extends (present store.now) marks.old marks.new }
    ensures found { IfOk result (IsVisit store.now id marks.old marks.new) }
{
    match store.get(id) {
        None => Ok(Visited::Gone),
        Some(clause) => match open_lits(clause, marks) {
            OpenLits::Nothing => Ok(Visited::Falsified),
            OpenLits::One(lit) => {
                if marks.has(lit) {
                    return Ok(Visited::Settled);
                }
                marks.mark(lit)?;
                Ok(Visited::Forced)
            }
            OpenLits::Two(one, other) => Ok(Visited::Open(one, other)),
        },
    }
}
