// Why there is no input.

ghost use Rattle.std.specs.Prelude.{◌≡◌};
ghost use Rattle.sc_input.specs.declared.refusal.Refusal.TheVariants.{OutOfMemory as NoMemory};

use sc_base::{OutOfMemory, Pos};

/// Why there is no input.
#[derive(Clone, Copy, Debug, PartialEq, Eq)]
pub enum Refusal<'a> {
    /// More than 64 files are named: so many.
    Files(u64),
    /// The file of this name was not read.
    Unread(&'a str),
    /// All files together have more than 8,388,608 bytes.
    Bytes,
    /// This line breaks the form of a machine file.
    Machine(u32),
    /// The file of this name has no tokens: nothing begins at this place.
    Lexical(&'a str, Pos),
    /// The file of this name has a bracket without its other half, at this place.
    Unbalanced(&'a str, Pos),
    /// Memory was refused.
    OutOfMemory,
}

impl From<OutOfMemory> for Refusal<'_> {
    ghost from_gives = { λ _ e. e ≡ NoMemory };

    fn from(_refused: OutOfMemory) -> Self {
        Refusal::OutOfMemory
    }
}
