// How many nodes graphs have. Each law is the clause of a function that does nothing.

ghost use Rattle.std.specs.Prelude.{◌≡◌, ◌≤◌, ℕ, ◌+◌, ◌*◌, length};
ghost use Rattle.flow_sizes.specs.Loop.{LoopsAreCounted};
ghost use Rattle.flow_sizes.specs.Sizes.{GraphsAreSmall};

/// A graph has at most three nodes for each node of the tree with its loops unrolled, and two for the end.
pub fn graphs_are_small()
    ensures { GraphsAreSmall }
{}

/// The graph of a function with one loop, counted by hand: ten nodes, and eleven for each turn.
pub fn loops_are_counted()
    ensures { LoopsAreCounted }
{}
