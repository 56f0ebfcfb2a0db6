//! Statements (C11 6.8).

use crate::decl::Decl;
use crate::expr::Expr;
use sc_base::{Boxed, List, NameId, Pos};

/// A statement, one variant for each row of the grammar, with the place of its keyword, its name or
/// its first token. `case` and `default` stand among the items of a `switch` alone.
#[derive(Drop)]
pub enum Stmt {
    /// `{ items }`, with the places of both braces.
    Block(List<Stmt>, Pos, Pos),
    /// A declaration among the items of a block or a `switch`, with the place of its first token.
    Decl(Boxed<Decl>, Pos),
    /// `e ;` or `;`
    Expr(Option<Boxed<Expr>>, Pos),
    /// `if ( e ) s`, with `else s` where it stands.
    If(Boxed<Expr>, Boxed<Stmt>, Option<Boxed<Stmt>>, Pos),
    /// `while ( e ) s`
    While(Boxed<Expr>, Boxed<Stmt>, Pos),
    /// `do s while ( e ) ;`
    Do(Boxed<Stmt>, Boxed<Expr>, Pos),
    /// `for ( .. ) s`
    For(ForHead, Boxed<Stmt>, Pos),
    /// `switch ( e ) { items }`, with the places of its keyword and of its closing brace.
    Switch(Boxed<Expr>, Boxed<List<Stmt>>, Pos, Pos),
    /// `case e :`
    Case(Boxed<Expr>, Pos),
    /// `default :`
    Default(Pos),
    /// `goto name ;`
    Goto(NameId, Pos),
    /// `break ;`
    Break(Pos),
    /// `continue ;`
    Continue(Pos),
    /// `return e ;` or `return ;`
    Return(Option<Boxed<Expr>>, Pos),
    /// `name : s`
    Label(NameId, Boxed<Stmt>, Pos),
}

/// What stands in the first place of a `for`.
#[derive(Drop)]
pub enum ForStart {
    Nothing,
    Expr(Boxed<Expr>),
    /// A declaration, with the place of its first token.
    Decl(Boxed<Decl>, Pos),
}

/// What stands between the brackets of a `for`: `.. ; e ; e`, where each may be left out. (Boxed, so
/// that a statement is small.)
#[derive(Drop)]
pub struct ForHead {
    pub start: Boxed<ForStart>,
    pub test: Boxed<Option<Boxed<Expr>>>,
    pub step: Boxed<Option<Boxed<Expr>>>,
}
