// A clause as a list of literals, of which one at least is to be true.

ghost use Rattle.std.specs.Prelude.{◌≡◌, IfOk};

use crate::{Lit, OutOfMemory};
use std::alloc::Global;
use std::marker::Model;

/// A list of literals. An assignment satisfies it where it makes one of them true. Contracts see
/// the list.
#[derive(Debug, Drop)]
pub struct Clause {
    lits: Vec<Lit>,
}

impl Model for Clause {
    ghost use Rattle.std.specs.Prelude.{List};
    ghost use Rattle.sat_base.specs.declared.literal.Lit.{Lit};

    ghost Value = { List Lit };

    ghost view = { λ c. c.lits.items };
}

impl Clause {
    /// The clause of these literals.
    pub fn of(alloc: Global, lits: &[Lit]) -> Result<Clause, OutOfMemory>
        ensures { IfOk result (λ clause. clause ≡ lits.now) }
    {
        let lits = Vec::from_slice(alloc, lits)?;
        Ok(Clause { lits })
    }

    /// The literals, lent.
    pub fn lits(&self) -> &[Lit]
        ensures { result.now ≡ self.now }
    {
        self.lits.as_slice()
    }
}
