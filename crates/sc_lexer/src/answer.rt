//! What the lexer answers where it has no tokens.
#![tactic(auto)]

ghost use Rattle.std.specs.Prelude.{◌≡◌};
ghost use Rattle.sc_lexer.specs.declared.answer.LexAnswer.TheVariants.{OutOfMemory as NoMemory};

use sc_base::{OutOfMemory, Pos};
use thiserror::Error;

/// Why a file has no tokens.
#[derive(Clone, Copy, Debug, PartialEq, Eq, Error)]
pub enum LexAnswer {
    /// No token, comment or white space begins at this place: the first such place. A comment or
    /// literal that is not closed, or is closed in another line, begins nothing.
    #[error("nothing begins here")]
    Lexical(Pos),
    /// All of the file is tokens, and this is the first closing bracket that does not match the
    /// last one still open, or else the first opening bracket that is never closed.
    #[error("a bracket without its other half")]
    Unbalanced(Pos),
    /// Memory was asked for and refused.
    #[error("out of memory")]
    OutOfMemory,
}

impl From<OutOfMemory> for LexAnswer {
    ghost from_gives = { λ _ e. e ≡ NoMemory };

    fn from(_refused: OutOfMemory) -> LexAnswer {
        LexAnswer::OutOfMemory
    }
}
