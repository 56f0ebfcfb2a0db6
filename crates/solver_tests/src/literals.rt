//! Literals, and the test that lets a solver be called.

ghost use Rattle.std.specs.Prelude.{◌↔◌, IsTrue};
ghost use Rattle.sat_base.specs.Logic.{LitsBelow};

use sat_base::Lit;

pub fn positive(var: usize) -> Lit {
    Lit { var, neg: false }
}

pub fn negative(var: usize) -> Lit {
    Lit { var, neg: true }
}

/// Whether the variables of these literals are below this number.
pub fn all_below(lits: &[Lit], vars: usize) -> bool
    ensures { IsTrue result ↔ LitsBelow vars lits.now }
{
    lits.iter().all(|lit| lit.var < vars)
}
