// Steps of typing: how a rule notes a fault. A rule that finds one notes it and gives nothing.

ghost use Rattle.std.specs.Prelude.{◌≡◌};
ghost use Rattle.sc_rules.specs.Walks as spec;

use crate::faults::{ill_typed_at, unsupported_at, with_fault};
use crate::{Fault, Walk};
use sc_base::{IllTyped, Pos, Unsupported};

/// Notes a fault, and gives nothing.
pub fn fault<A>(walk: &mut Walk, f: Fault) -> Option<A>
    ensures { spec.fault f walk.old ≡ (result, walk.new) }
{
    walk.first = with_fault(walk.first, f);
    None
}

/// Notes that something is not taken, and gives nothing.
pub fn unsupported<A>(walk: &mut Walk, kind: Unsupported, pos: Pos) -> Option<A>
    ensures { spec.unsupported kind pos walk.old ≡ (result, walk.new) }
{
    fault(walk, unsupported_at(kind, pos))
}

/// Notes that C does not allow something, and gives nothing.
pub fn ill_typed<A>(walk: &mut Walk, kind: IllTyped, pos: Pos) -> Option<A>
    ensures { spec.ill_typed kind pos walk.old ≡ (result, walk.new) }
{
    fault(walk, ill_typed_at(kind, pos))
}

/// Notes a fault where the test does not hold, and says whether it holds.
pub fn holds_or(walk: &mut Walk, test: bool, f: Fault) -> bool
    ensures { spec.holds_or test f walk.old ≡ (result, walk.new) }
{
    if test {
        true
    } else {
        walk.first = with_fault(walk.first, f);
        false
    }
}
