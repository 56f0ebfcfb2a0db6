//! Declarations (C11 6.7) and initialisers (C11 6.7.9).

use crate::expr::{Declarator, Expr, Specs};
use sc_base::{Boxed, List, NameId, Pos};

/// A declaration: its specifiers, and its declarators in their order.
#[derive(Drop)]
pub struct Decl {
    /// Its first token.
    pub pos: Pos,
    pub specs: Specs,
    pub parts: List<InitDeclarator>,
}

/// A declarator with its initialiser where one is written.
#[derive(Drop)]
pub struct InitDeclarator {
    pub declarator: Declarator,
    pub init: Option<Boxed<Init>>,
}

/// An initialiser.
#[cycle(init)]
#[derive(Drop)]
pub enum Init {
    One(Boxed<Expr>),
    /// Those in braces, in their order.
    List(List<InitItem>),
}

/// An initialiser in braces, with its designators.
#[cycle(init)]
#[derive(Drop)]
pub struct InitItem {
    pub designators: List<Designator>,
    pub init: Init,
}

/// What an initialiser in braces is for.
#[derive(Drop)]
pub enum Designator {
    /// `. name`
    Field(NameId),
    /// `[ length ]`
    Index(Boxed<Expr>),
}
