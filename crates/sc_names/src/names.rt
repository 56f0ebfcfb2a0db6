// Names in scope, and what they are declared as (C11 6.2.1, 6.7, 3). Each look-up is by hash.

ghost use Rattle.std.specs.Prelude.{◌≡◌};
ghost use Rattle.std.specs.Option.{option_copied};
ghost use Rattle.sc_rules.specs.Gives.{Gives};
ghost use Rattle.sc_rules.specs.Walks as walks;
ghost use Rattle.sc_names.specs.Names as spec;

use crate::notes::note_unless;
use sc_base::{IllTyped, NameId, OutOfMemory, Pos};
use sc_rules::{Entity, Walk, holds_or, ill_typed_at};

/// What a name means at this point.
pub fn name_means(walk: &Walk, name: NameId) -> Option<&Entity>
    ensures { walks.name_means name walk.now ≡ (option_copied result, walk.now) }
{
    walk.names.get(name)
}

/// What the innermost scope declares a name to be.
pub fn name_here(walk: &Walk, name: NameId) -> Option<&Entity>
    ensures { walks.name_here name walk.now ≡ (option_copied result, walk.now) }
{
    walk.names.get_here(name)
}

/// Declares a name in the innermost scope.
pub fn declare(walk: &mut Walk, name: NameId, what: Entity) -> Result<(), OutOfMemory>
    ensures { Gives (walks.declare name what walk.old) result walk.new }
{
    walk.names.declare(name, what)
}

/// Whether the innermost scope has not declared a name yet. Else there is a fault at that place.
pub fn new_here(walk: &mut Walk, name: NameId, at: Pos) -> bool
    ensures { spec.new_here name at walk.old ≡ (result, walk.new) }
{
    let new = walk.names.get_here(name).is_none();
    holds_or(walk, new, ill_typed_at(IllTyped::Again, at))
}

/// Declares a name where it is new.
pub fn declare_if(walk: &mut Walk, new: bool, name: NameId, what: Entity) -> Result<(), OutOfMemory>
    ensures { Gives (spec.declare_if new name what walk.old) result walk.new }
{
    if new {
        declare(walk, name, what)
    } else {
        Ok(())
    }
}

/// Declares a name as what it means from now on; `None` where it cannot stand beside what it is already, which is
/// a fault at that place.
pub fn declare_or(
    walk: &mut Walk,
    what: Option<Entity>,
    name: NameId,
    at: Pos,
) -> Result<(), OutOfMemory>
    ensures { Gives (spec.declare_or what name at walk.old) result walk.new }
{
    match what {
        None => {
            note_unless(walk, false, ill_typed_at(IllTyped::Again, at));
            Ok(())
        }
        Some(what) => declare(walk, name, what),
    }
}
