//! Which literals of a clause are open under marked literals: those whose negations are not marked.

ghost use Rattle.std.specs.Prelude.{List, [], ◌∷◌, ◌++◌};
ghost use Rattle.std.specs.List.{Contains};
ghost use Rattle.sat_base.specs.declared.literal.Lit.{Lit};
ghost use Rattle.sat_base.specs.Logic.{negation, LitsBelow};
ghost use Rattle.rup_check.specs.Looking.{AreOpen};

use crate::marks::Marks;
use sat_base::Lit;

/// The literals of a clause whose negations are not marked, as far as two different ones.
#[derive(Clone, Copy, Debug)]
pub enum OpenLits {
    Nothing,
    One(Lit),
    Two(Lit, Lit),
}

/// The open literals after one more was found.
fn with_open(found: OpenLits, lit: Lit) -> OpenLits
    ensures { (lits front : List Lit) → AreOpen lits front found → (Contains lits (negation lit) → ⊥) → AreOpen lits (front ++ lit ∷ []) result }
{
    match found {
        OpenLits::Nothing => OpenLits::One(lit),
        OpenLits::One(other) => {
            if other == lit {
                OpenLits::One(other)
            } else {
                OpenLits::Two(other, lit)
            }
        }
        OpenLits::Two(one, other) => OpenLits::Two(one, other),
    }
}

/// The open literals of a clause.
pub fn open_lits(clause: &[Lit], marks: &Marks) -> OpenLits
    requires { LitsBelow marks.now.vars clause.now }
    ensures { AreOpen marks.now.lits clause.now result }
{
    let mut found = OpenLits::Nothing;
    for lit in clause {
        if marks.has(lit.negated()) {
            continue;
        }
        found = with_open(found, *lit);
        if let OpenLits::Two(one, other) = found {
            return OpenLits::Two(one, other);
        }
    }
    found
}
