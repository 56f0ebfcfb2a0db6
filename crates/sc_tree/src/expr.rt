//! Expressions (C11 6.5), and the specifiers and declarators that lead back to them: a cast and
//! `sizeof` name a type, an array has a length, a member a width, an enumerator a value.

use crate::ctype::CType;
use crate::op::{AssignOp, BinaryOp, Step, UnaryOp};
use crate::{IntToken, StrToken};
use sc_base::{Boxed, List, NameId, Pos};

/// Where an expression stands. Round brackets leave no node, and those that an expression begins
/// with belong to it, so its first token is told beside the one that stands for it.
#[derive(Clone, Copy, Debug, PartialEq, Eq)]
pub struct Place {
    /// The token that stands for it: its operator, its name, its constant, its opening bracket.
    pub token: Pos,
    /// Its first token.
    pub first: Pos,
}

/// An expression, one variant for each row of the grammar.
#[cycle(tree)]
#[derive(Drop)]
pub enum Expr {
    /// `a , b`
    Comma(Boxed<Expr>, Boxed<Expr>, Place),
    /// `a = b` and its kin.
    Assign(AssignOp, Boxed<Expr>, Boxed<Expr>, Place),
    /// `a ? b : c`
    Cond(Boxed<Expr>, Boxed<Expr>, Boxed<Expr>, Place),
    /// `a + b` and its kin.
    Binary(BinaryOp, Boxed<Expr>, Boxed<Expr>, Place),
    /// `( type ) a`
    Cast(Boxed<Head>, Boxed<Expr>, Place),
    /// `- a` and its kin.
    Unary(UnaryOp, Boxed<Expr>, Place),
    /// `++ a` or `-- a`
    PreInc(Step, Boxed<Expr>, Place),
    /// `sizeof a`
    SizeofExpr(Boxed<Expr>, Place),
    /// `sizeof ( type )`
    SizeofType(Boxed<Head>, Place),
    /// `a [ b ]`
    Index(Boxed<Expr>, Boxed<Expr>, Place),
    /// `a ( .. )` with its arguments.
    Call(Boxed<Expr>, List<Expr>, Place),
    /// `a . name`, or `a -> name` where the flag is set.
    Field(Boxed<Expr>, NameId, bool, Place),
    /// `a ++` or `a --`
    PostInc(Step, Boxed<Expr>, Place),
    Name(NameId, Place),
    Int(IntToken, Place),
    /// A character constant, as a signed char.
    Char(i8, Place),
    /// A constant that has no value here.
    Odd(Place),
    /// One or more string literals, which are one string.
    Str(List<StrToken>, Place),
}

/// Specifiers and a declarator: a parameter, a type in an expression, or the head of a function.
#[cycle(tree)]
#[derive(Drop)]
pub struct Head {
    /// Its first token.
    pub pos: Pos,
    pub specs: Specs,
    pub declarator: Declarator,
}

/// The words that may stand beside a type (C11 6.7.1 and 6.7.4).
#[derive(Clone, Copy, Debug, PartialEq, Eq)]
pub enum Storage {
    Typedef,
    Extern,
    Static,
    Inline,
}

/// Specifiers (C11 6.7): the storage words in their order, and the type.
#[cycle(tree)]
#[derive(Drop)]
pub struct Specs {
    pub storage: List<Storage>,
    pub base: Base,
}

/// The type that specifiers name (C11 6.7.2).
#[cycle(tree)]
#[derive(Drop)]
pub enum Base {
    /// What type words name.
    Words(CType),
    Struct(Boxed<Aggregate>),
    Enum(Boxed<EnumSpec>),
    /// A typedef name, with its place.
    Named(NameId, Pos),
}

/// A `struct` or `union` with its tag, its body or both (C11 6.7.2.1).
#[cycle(tree)]
#[derive(Drop)]
pub struct Aggregate {
    /// The place of its tag, or of its keyword where it has no tag.
    pub pos: Pos,
    pub union: bool,
    pub tag: Option<NameId>,
    pub body: Option<List<Member>>,
}

/// A line of members (C11 6.7.2.1).
#[cycle(tree)]
#[derive(Drop)]
pub struct Member {
    pub specs: Specs,
    pub parts: List<Part>,
}

/// One member of a line: its declarator, and its width where it is a bit field. One of the two is
/// there.
#[cycle(tree)]
#[derive(Drop)]
pub struct Part {
    pub declarator: Option<Boxed<Declarator>>,
    pub width: Option<Boxed<Expr>>,
}

/// An `enum` with its tag, its body or both (C11 6.7.2.2).
#[cycle(tree)]
#[derive(Drop)]
pub struct EnumSpec {
    /// The place of its tag, or of its keyword where it has no tag.
    pub pos: Pos,
    pub tag: Option<NameId>,
    pub body: Option<List<Enumerator>>,
}

/// An enumerator with its value where one is written.
#[cycle(tree)]
#[derive(Drop)]
pub struct Enumerator {
    pub pos: Pos,
    pub name: NameId,
    pub value: Option<Boxed<Expr>>,
}

/// A declarator (C11 6.7.6), from the outside in.
#[cycle(tree)]
#[derive(Drop)]
pub enum Declarator {
    /// The name and its place, or none in a type and in a parameter without a name.
    Name(Option<(NameId, Pos)>),
    /// `* d`
    Pointer(Boxed<Declarator>),
    /// `d [ ]` or `d [ length ]`
    Array(Boxed<Declarator>, Option<Boxed<Expr>>),
    /// `d ( .. )`: the parameters, `None` for empty brackets and an empty list for `( void )`; the
    /// flag is set where `...` stands behind them.
    Func(Boxed<Declarator>, Option<List<Head>>, bool),
}
