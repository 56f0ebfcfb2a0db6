// Where a thing stands in the source text, and which name it has. Both are plain data that the
// trees of every later stage carry.

/// A place in a source file: the number of the file, and the line and the column, which both
/// count from 1. The column counts bytes.
#[derive(Clone, Copy, Debug, PartialEq, Eq)]
pub struct Pos {
    pub file: u32,
    pub line: u32,
    pub col: u32,
}

/// A name, as its place in the list of interned texts.
#[derive(Clone, Copy, Debug, PartialEq, Eq)]
pub struct NameId {
    pub at: u32,
}
