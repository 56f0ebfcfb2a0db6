//! The work whose outputs the database keeps: an output for each function of a plan, which is made
//! from the outputs of the function's kept callees.

ghost use Rattle.std.specs.Prelude.{◌≡◌, ℕ, ◌<◌, List, length, map, IfOk};
ghost use Rattle.std.specs.Arc.{arc_value};

use sc_base::{OutOfMemory, RowList};

/// A work over a plan. `rows` are the plan's kept callees of each function, and `defined` says what
/// the output of each function is.
pub trait Work {
    ghost use Rattle.std.specs.Prelude.{ℕ, List};

    type Out: Send + Sync + Drop;

    ghost rows: { Self → List (List ℕ) };

    ghost defined: { Self → ℕ → Self.Out };

    ghost use Rattle.std.specs.Prelude.{◌≡◌, ◌<◌, length, map, IfOk};
    ghost use Rattle.std.specs.Arc.{arc_value};
    ghost use Rattle.plan_core.specs.Graph.{callees};

    /// The output of the function, from the outputs of its kept callees in their order.
    fn row(&self, function: u32, given: &RowList<Self::Out>) -> Result<Self::Out, OutOfMemory>
        requires inside { function < length (rows self.now) }
        requires given { map arc_value given.now.list.items ≡ map (defined self.now) (callees (rows self.now) function) }
        ensures { IfOk result (λ output. output ≡ defined self.now function) };
}
