//! What the clauses on gates mean for the value of a gate, and what a caller's proof may use of any net: laws, with no code.
ghost use Rattle.std.specs.Prelude.{◌≡◌, ℕ, ◌<◌, Bool, List, length, Some, slice_get};
ghost use Rattle.bit_net.specs.declared.nodes.Node.{Node};
ghost use Rattle.bit_net.specs.Value.{table, value};
ghost use Rattle.bit_net.specs.Circuit.{IsCircuit};
ghost use Rattle.bit_net.specs.Runs.{Runs, Grown, Gives, Always, Fits};

/// The values of a net's gates are a run of it; so `Gives` says the value of a gate, and `Grown` that earlier gates keep theirs.
pub fn values_are_runs()
    ensures runs { (ns : List Node) (choice : ℕ → Bool) → Runs ns choice (value choice ns) }
    ensures gives { (ns : List Node) (g : ℕ) (of : (ℕ → Bool) → (ℕ → Bool) → Bool) (choice : ℕ → Bool) → Gives ns g of → value choice ns g ≡ of choice (value choice ns) }
    ensures grown { (old new : List Node) (g : ℕ) (choice : ℕ → Bool) → Grown old new → g < length old → value choice new g ≡ value choice old g }
{}

/// In a circuit the runs are just the values that fit the truth table of each node.
pub fn runs_fit_tables()
    ensures fits { (ns : List Node) (choice v : ℕ → Bool) → IsCircuit ns → Runs ns choice v → Fits ns choice v }
    ensures runs { (ns : List Node) (choice v : ℕ → Bool) → IsCircuit ns → Fits ns choice v → Runs ns choice v }
{}

/// A net has grown from itself, and growth goes on over a net between two.
pub fn growth_composes()
    ensures same { (ns : List Node) → Grown ns ns }
    ensures composed { (first middle last : List Node) → Grown first middle → Grown middle last → Grown first last }
{}
