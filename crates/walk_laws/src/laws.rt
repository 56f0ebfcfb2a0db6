//! The law on walks.

ghost use Rattle.std.specs.Prelude.{◌≡◌, ℕ, true, List};
ghost use Rattle.reach_net.specs.Walks.{Reached};
ghost use Rattle.sc_world.specs.Shows.{Over, is_among, leads, reached};
ghost use Rattle.walk_laws.specs.Objects.{AreLocations, HasObjects};

/// The objects that are reached by as many steps as there are locations are just those to which a walk of any length leads.
pub fn walks_of_any_length()
    ensures sound { (o : Over) (ns : List ℕ) (t : ℕ) → is_among (reached o ns) t ≡ true → Reached (leads o) (is_among ns) t }
    ensures complete { (o : Over) (ns : List ℕ) (t : ℕ) → HasObjects o.layout → AreLocations o.layout ns
        → Reached (leads o) (is_among ns) t → is_among (reached o ns) t ≡ true }
{}
