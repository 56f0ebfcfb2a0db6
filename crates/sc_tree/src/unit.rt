//! What the segments of a file are (C11 6.9).

use crate::decl::Decl;
use crate::expr::Head;
use crate::stmt::Stmt;
use sc_base::{Boxed, List, Pos, Skip};

/// The segments of a file, in order.
#[derive(Drop)]
pub struct Unit {
    /// The number of the file.
    pub file: u32,
    pub segments: List<Segment>,
}

/// A segment: what it spells, or why it is skipped.
#[derive(Drop)]
pub enum Segment {
    Decl(FileDecl),
    Function(Boxed<Head>, Boxed<Body>),
    Skipped(Skip),
}

/// A declaration at file scope.
#[derive(Drop)]
pub enum FileDecl {
    /// The empty declaration, a lone `;`, with its place.
    Empty(Pos),
    Full(Boxed<Decl>),
}

/// The body of a function: its block, or why it is skipped.
#[derive(Drop)]
pub enum Body {
    Tree(Boxed<Stmt>),
    Skipped(Skip),
}
