//! The words of the grammar that trees do not keep: levels of expressions, what a declarator may or
//! must name, what it declares, and the type words that specifiers gather. `specs/Grammar.antt`
//! defines with them which tokens spell which tree.

use crate::expr::{Base, Specs, Storage};
use sc_base::{List, NameId};

/// The levels of expressions (C11 6.5), from strong to weak. Each takes in the stronger ones.
#[derive(Clone, Copy, Debug, PartialEq, Eq)]
pub enum Level {
    /// Names, constants, strings and brackets.
    Primary,
    /// Indexing, calls, fields, `++` and `--` behind their operand.
    Postfix,
    /// The operators before their operand, and `sizeof`.
    Prefix,
    Cast,
    /// 0: an operand; from 1 to 10: the binary operators, from `* / %` to `||`.
    Operators(u8),
    /// `? :`
    Choice,
    Assignment,
    /// With commas.
    Whole,
}

/// What a declarator may or must name.
#[derive(Clone, Copy, Debug, PartialEq, Eq)]
pub enum Naming {
    /// A name that is no typedef name: in a declaration and at a function.
    Required,
    /// Any name: among the members of a `struct` or `union`.
    Member,
    /// A name that is no typedef name, or none: in a parameter.
    Optional,
    /// None: in a type.
    Absent,
}

/// What a declarator declares, by what stands directly round its name, brackets aside.
#[derive(Clone, Copy, Debug, PartialEq, Eq)]
pub enum Core {
    /// It has no name.
    Nameless,
    /// The name alone.
    Bare(NameId),
    /// The parameters of a function stand directly round the name; the flag is set where each of
    /// them has a name.
    Function(NameId, bool),
    /// A `*` or an array does.
    Other(NameId),
}

/// Whether specifiers have the body of a `struct`, `union` or `enum`.
#[derive(Clone, Copy, Debug, PartialEq, Eq)]
pub enum BodyForm {
    NoBody,
    /// A body.
    WithBody,
    /// The body of a `struct` or `union` that has no tag.
    Untagged,
}

/// A word of a type (C11 6.7.2).
#[derive(Clone, Copy, Debug, PartialEq, Eq)]
pub enum TypeWord {
    /// A word that other words than its own row's may not join.
    Main(MainWord),
    Short,
    Long,
    Int,
    Signed,
    Unsigned,
}

/// The words that name a type by themselves, beside `int`.
#[derive(Clone, Copy, Debug, PartialEq, Eq)]
pub enum MainWord {
    Void,
    /// `_Bool`
    Bool,
    Char,
    Float,
    Double,
    /// `__builtin_va_list`
    VaList,
}

/// How long an integer is said to be.
#[derive(Clone, Copy, Debug, PartialEq, Eq)]
pub enum Length {
    Plain,
    Short,
    Long,
    LongLong,
}

/// `signed` or `unsigned`.
#[derive(Clone, Copy, Debug, PartialEq, Eq)]
pub enum Sign {
    Signed,
    Unsigned,
}

/// The type words of some specifiers, whose order does not matter.
#[derive(Clone, Copy, Debug, PartialEq, Eq)]
pub struct TypeWords {
    pub main: Option<MainWord>,
    pub sign: Option<Sign>,
    pub length: Length,
    /// `int` is there.
    pub int: bool,
}

/// A piece of specifiers (C11 6.7).
#[derive(Drop)]
pub enum Piece {
    Storage(Storage),
    Word(TypeWord),
    /// A type by itself: a `struct`, a `union`, an `enum` or a typedef name.
    Whole(Base, BodyForm),
}

/// The type that the pieces of specifiers make so far.
#[derive(Drop)]
pub enum SoFar {
    Untyped,
    Words(TypeWords),
    Typed(Base, BodyForm),
}

/// The pieces of specifiers so far: the storage words in their order, and the type.
#[derive(Drop)]
pub struct Gathered {
    pub storage: List<Storage>,
    pub so_far: SoFar,
}

/// Specifiers that name a type.
#[derive(Drop)]
pub struct Specified {
    pub specs: Specs,
    /// Which body they have.
    pub form: BodyForm,
    /// `typedef` is among the storage words.
    pub typedef: bool,
}
