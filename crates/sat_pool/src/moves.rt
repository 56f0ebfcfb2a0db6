// Room for a compaction, and where each block went.

ghost use Rattle.std.specs.Prelude.{◌≡◌, ◌<◌, length, slice_index};

use crate::Ref;
use sat_base::Lit;
use std::marker::Model;

/// Room for the live blocks of a region, and a table of their new places. Contracts see how many
/// literals there is room for, and the table.
#[derive(Debug, Drop)]
pub struct Moves {
    pub(crate) list: Vec<Lit>,
    pub(crate) to: Vec<usize>,
}

impl Model for Moves {
    ghost use Rattle.std.specs.Prelude.{◌≡◌, [], vec_capacity};
    ghost use Rattle.sat_pool.specs.Region.{MovesState};

    ghost Value = { MovesState };

    ghost view = { λ m. record { room = vec_capacity m.list; places = m.to.items } };

    ghost invariant = { λ m. m.list.items ≡ [] };
}

impl Moves {
    /// The place of a clause after the compaction, of one that was live before it.
    pub fn place(&self, r: Ref) -> Ref
        requires { r.at < length self.now.places }
        ensures { result.at ≡ slice_index self.now.places r.at }
    {
        Ref { at: self.to[r.at] }
    }
}
