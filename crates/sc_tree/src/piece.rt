//! The pieces that the bytes of a file are cut into, before a place and the names make tokens of them.

use crate::Kind;

/// What a piece is.
#[derive(Clone, Copy, Debug, PartialEq, Eq)]
pub enum Form {
    /// White space, a comment, or a line that begins with `#`: no token.
    Blank,
    /// A word. Whether it is reserved, and else its number, its text says.
    Word,
    /// A token that its bytes alone fix.
    Known(Kind),
}

/// A piece: what it is, and how many bytes it has.
#[derive(Clone, Copy, Debug, PartialEq, Eq)]
pub struct Piece {
    pub form: Form,
    pub len: usize,
}

/// What begins a piece that has to be closed: a comment, a string literal or a character constant.
#[derive(Clone, Copy, Debug, PartialEq, Eq)]
pub enum Opening {
    /// `/*`
    BlockComment,
    /// `//`
    LineComment,
    /// `"` with its prefix, which is wide if it is `L`, `u` or `U`.
    Str { wide: bool },
    /// `'` with its prefix, which is plain if there is none.
    Char { plain: bool },
}

/// The suffix of an integer constant (C11 6.4.4.1).
#[derive(Clone, Copy, Debug, PartialEq, Eq)]
pub struct Suffix {
    /// It has a `u`.
    pub unsigned: bool,
    /// How many `l` it has, up to two.
    pub longs: u8,
}

/// The three kinds of brackets: `( )`, `[ ]` and `{ }`.
#[derive(Clone, Copy, Debug, PartialEq, Eq)]
pub enum Bracket {
    Round,
    Square,
    Curly,
}

/// What a token does to brackets and segments.
#[derive(Clone, Copy, Debug, PartialEq, Eq)]
pub enum Role {
    /// It opens a bracket.
    Opens(Bracket),
    /// It closes one.
    Closes(Bracket),
    /// A `;`.
    Semicolon,
    /// A word that leaves nothing.
    Nothing,
    /// A word that leaves nothing, nor does what follows it at once in brackets.
    Attribute,
    /// Any other token.
    Plain,
}

/// Where a token stands in its segment.
#[derive(Clone, Copy, Debug, PartialEq, Eq)]
pub struct Spot {
    /// How many brackets are open before it.
    pub depth: usize,
    /// The outermost of them is a `{` that began the segment or followed a `)`.
    pub is_body: bool,
    /// It begins the segment or follows a `)`.
    pub may_begin: bool,
}
