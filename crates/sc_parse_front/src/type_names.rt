//! The typedef names that were declared before.

ghost use Rattle.std.specs.Prelude.{◌≡◌, ◌≤◌, ℕ, [], ◌++◌, ◌∷◌, length, take, OnOk, OnErr};
ghost use Rattle.sc_tree.specs.Tokens.{is_type};
ghost use Rattle.sc_tree.specs.Units.{with_type};

use sc_base::{NameId, Numbers, OutOfMemory};
use std::alloc::Global;
use std::marker::Model;

/// The typedef names that were declared before. Contracts see the list of them, in the order in
/// which they were declared first.
#[derive(Debug, Drop)]
pub struct TypeNames {
    places: Numbers<u32>,
}

impl Model for TypeNames {
    ghost use Rattle.std.specs.Prelude.{List, map};
    ghost use Rattle.sc_base.specs.declared.pos.NameId.{NameId};
    ghost use Rattle.sc_parse_front.specs.TypeNames.{name_at};

    ghost Value = { List NameId };

    ghost view = { λ t. map name_at t.places };
}

impl TypeNames {
    /// None yet. It takes no memory.
    pub fn new(alloc: Global) -> TypeNames
        ensures { result ≡ [] }
    {
        TypeNames {
            places: Numbers::new(alloc),
        }
    }

    /// How many there are.
    pub fn len(&self) -> usize
        ensures { result ≡ length self.now }
    {
        self.places.len()
    }

    /// Whether the name is one of them.
    pub fn contains(&self, name: NameId) -> bool
        ensures { result ≡ is_type self.now name }
    {
        self.places.contains(&name.at)
    }

    /// One more, which goes behind the others where it is not there yet. Where memory is refused
    /// they stay as they were.
    pub fn declare(&mut self, name: NameId) -> Result<(), OutOfMemory>
        ensures ok { OnOk result (self.new ≡ with_type self.old name) }
        ensures err { OnErr result (self.new ≡ self.old) }
    {
        self.places.insert(name.at)?;
        Ok(())
    }

    /// Forgets all beyond the first so many.
    pub fn forget_beyond(&mut self, count: usize)
        ensures { self.new ≡ take count self.old }
    {
        self.places.truncate(count);
    }
}
