//! What is read of a segment before its body, and what a statement begins with.

use sc_base::Boxed;
use sc_tree::expr::Head;
use sc_tree::unit::FileDecl;

/// What a segment spells, before the body of a function is read.
#[derive(Drop)]
pub enum Outline {
    Decl(FileDecl),
    /// The head of a function. Its body is left to read.
    Function(Boxed<Head>),
}

/// What the reserved word that a statement begins with says that it is.
#[derive(Clone, Copy, Debug)]
pub enum Keyword {
    If,
    While,
    Do,
    For,
    Switch,
    Goto,
    Break,
    Continue,
    Return,
    /// No word of a statement.
    Other,
}
