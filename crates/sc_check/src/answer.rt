// Why there is no typed program.

ghost use Rattle.std.specs.Prelude.{◌≡◌};
ghost use Rattle.sc_check.specs.declared.answer.CheckAnswer.TheVariants.{OutOfMemory as NoMemory};

use sc_base::{LimitKind, NameId, Names, OutOfMemory};
use thiserror::Error;

/// Why there is no typed program.
#[derive(Debug, Drop, Error)]
pub enum CheckAnswer {
    /// A function has a second body: the texts of all names, and its name.
    #[error("a function has two bodies")]
    Duplicate(Names, NameId),
    /// The program is too large: a limit, and the count that passes it.
    #[error("the program is too large")]
    Limit(LimitKind, u64),
    /// Memory was asked for and refused.
    #[error("out of memory")]
    OutOfMemory,
}

impl From<OutOfMemory> for CheckAnswer {
    ghost from_gives = { λ _ e. e ≡ NoMemory };

    fn from(_refused: OutOfMemory) -> CheckAnswer {
        CheckAnswer::OutOfMemory
    }
}
