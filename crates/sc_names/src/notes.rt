// Steps that note a fault and go on: a declaration with a fault is still declared.

ghost use Rattle.std.specs.Prelude.{◌≡◌};
ghost use Rattle.sc_names.specs.Notes as spec;

use sc_rules::{Fault, Walk, holds_or};

/// Notes a fault where the test does not hold.
pub fn note_unless(walk: &mut Walk, test: bool, f: Fault)
    ensures { spec.note_unless test f walk.old ≡ (tt, walk.new) }
{
    holds_or(walk, test, f);
}
