//! Whether a clause is RUP: the negations of its literals, propagated over the clauses that are there,
//! falsify one of these.

ghost use Rattle.std.specs.Prelude.{◌≡◌, ◌↔◌, IsTrue, IfOk};
ghost use Rattle.sat_base.specs.Logic.{LitsBelow};
ghost use Rattle.sat_base.specs.Certificates.{IsRup};
ghost use Rattle.rup_check.specs.Stored.{present, StoredBelow};

use crate::closing::close;
use crate::marks::Marks;
use crate::propagate::propagate;
use crate::store::Store;
use crate::watch::Hints;
use sat_base::{Lit, OutOfMemory};

/// Whether the clause is RUP for the clauses that are there. The marks are used up.
pub fn is_rup(
    store: &Store,
    marks: &mut Marks,
    hints: &mut Hints,
    clause: &[Lit],
) -> Result<bool, OutOfMemory>
    requires stored { StoredBelow marks.old.vars store.now }
    requires clause { LitsBelow marks.old.vars clause.now }
    ensures vars { marks.new.vars ≡ marks.old.vars }
    ensures rup { IfOk result (λ b. IsTrue b ↔ IsRup (present store.now) clause.now) }
{
    marks.set_to_negations(clause)?;
    if propagate(store, marks, hints)? {
        return Ok(true);
    }
    close(store, marks)
}
