// What a check says.

ghost use Rattle.std.specs.Prelude.{◌≡◌};

use sc_base::LimitKind;

/// What a check says of the files that were read.
#[derive(Debug, Drop)]
pub enum Said {
    /// The text of the whole check, and whether some function has a report.
    Whole(Vec<u8>, bool),
    /// A function of this name has a second body.
    Twice(Vec<u8>),
    /// A limit, and the count that passes it.
    Beyond(LimitKind, u64),
}
