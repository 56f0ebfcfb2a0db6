//! What the clauses on guarded sets mean for a caller: laws, with no code.
ghost use Rattle.std.specs.Prelude.{◌≡◌, ℕ, Bool, true, nat_eq, List};
ghost use Rattle.gl_sets.specs.declared.pairs.Pair.{Pair};
ghost use Rattle.bit_net.specs.declared.nodes.Node.{Node};
ghost use Rattle.bit_net.specs.Runs.{Grown};
ghost use Rattle.gl_sets.specs.Guards.{Points, guard, targets_differ};
ghost use Rattle.gl_sets.specs.Sets.{IsGood};

/// A set points to a target exactly where the guard of that target holds and no other does; so it points to one target at most.
pub fn points_are_guards()
    ensures guards { (v : ℕ → Bool) (ps : List Pair) (t u : ℕ) → Points v ps t → guard v ps u ≡ nat_eq t u }
    ensures points { (v : ℕ → Bool) (ps : List Pair) (t : ℕ) → targets_differ ps ≡ true → ((u : ℕ) → guard v ps u ≡ nat_eq t u) → Points v ps t }
    ensures one { (v : ℕ → Bool) (ps : List Pair) (t u : ℕ) → Points v ps t → Points v ps u → t ≡ u }
{}

/// A good set stays good while the net grows.
pub fn good_sets_stay_good()
    ensures { (old new : List Node) (ps : List Pair) → Grown old new → IsGood old ps → IsGood new ps }
{}
