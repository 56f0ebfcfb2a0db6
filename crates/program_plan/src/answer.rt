// Why there is no plan.

ghost use Rattle.std.specs.Prelude.{◌≡◌};
ghost use Rattle.program_plan.specs.declared.answer.PlanAnswer.TheVariants.{OutOfMemory as NoMemory};

use sc_base::{LimitKind, OutOfMemory};
use thiserror::Error;

/// Why there is no plan.
#[derive(Debug, Drop, Error)]
pub enum PlanAnswer {
    /// The call graph is too large: the limit that it passes, and its count.
    #[error("the call graph is too large")]
    Limit(LimitKind, u64),
    /// Memory was asked for and refused.
    #[error("out of memory")]
    OutOfMemory,
}

impl From<OutOfMemory> for PlanAnswer {
    ghost from_gives = { λ _ e. e ≡ NoMemory };

    fn from(_refused: OutOfMemory) -> PlanAnswer {
        PlanAnswer::OutOfMemory
    }
}
