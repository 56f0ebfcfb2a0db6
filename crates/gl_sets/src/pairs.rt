//! A guard and its target.

use bit_net::Gate;

/// A target under its guard: target 0 is null, target n + 1 is location n. The default stands in places of a set that hold no pair.
#[derive(Clone, Copy, Debug, PartialEq, Eq)]
pub struct Pair {
    pub guard: Gate,
    pub target: u32,
}

impl Default for Pair {
    ghost use Rattle.std.specs.Prelude.{◌≡◌};

    ghost is_default = { λ p. (p.guard.at ≡ 0) × (p.target ≡ 0) };

    fn default() -> Pair {
        Pair {
            guard: Gate { at: 0 },
            target: 0,
        }
    }
}
