// What a replay says.

ghost use Rattle.std.specs.Prelude.{◌≡◌};

use sc_base::LimitKind;

/// What a replay says of the files that were read.
#[derive(Debug, Drop)]
pub enum Told {
    /// The run, in the form that was asked for.
    Run(Vec<u8>),
    /// A function of this name has a second body.
    Twice(Vec<u8>),
    /// A limit, and the count that passes it.
    Beyond(LimitKind, u64),
    /// No function has that name.
    NoFunction,
    /// The function is skipped.
    Skipped,
    /// No choice of the function is spelled so.
    BadChoice,
}
