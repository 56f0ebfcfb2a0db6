//! What is read at the front of tokens.

ghost use Rattle.std.specs.Prelude.{◌≡◌, true};
ghost use Rattle.sc_parse_expr.specs.declared.found.Phrase.TheVariants as phrase;
ghost use Rattle.sc_parse_expr.specs.Reading.{are_specs, is_declarator, is_expr};

use sc_base::Boxed;
use sc_tree::expr::{Declarator, Expr, Head};
use sc_tree::grammar::{Core, Level, Naming, Specified};

/// What is wanted at the front of the tokens.
#[derive(Clone, Copy, Debug, PartialEq, Eq)]
pub enum Wanted {
    /// An expression of the level.
    Expr(Level),
    /// Specifiers that name a type.
    Specs,
    /// A declarator of the naming.
    Declarator(Naming),
}

/// What was read.
#[derive(Drop)]
pub enum Phrase {
    Expr(Operand),
    Specs(Specified),
    Declarator(Declared),
}

impl Phrase {
    /// The expression that it is.
    pub(crate) fn into_expr(self) -> Operand
        requires { is_expr self ≡ true }
        ensures { self ≡ phrase.Expr result }
    {
        match self {
            Phrase::Expr(it) => it,
            Phrase::Specs(_) | Phrase::Declarator(_) => unreachable!(),
        }
    }

    /// The specifiers that it is.
    pub(crate) fn into_specs(self) -> Specified
        requires { are_specs self ≡ true }
        ensures { self ≡ phrase.Specs result }
    {
        match self {
            Phrase::Specs(it) => it,
            Phrase::Expr(_) | Phrase::Declarator(_) => unreachable!(),
        }
    }

    /// The declarator that it is.
    pub(crate) fn into_declarator(self) -> Declared
        requires { is_declarator self ≡ true }
        ensures { self ≡ phrase.Declarator result }
    {
        match self {
            Phrase::Declarator(it) => it,
            Phrase::Expr(_) | Phrase::Specs(_) => unreachable!(),
        }
    }
}

/// An expression, and whether it is one that an assignment may stand behind: nothing weaker than
/// the operators before their operand.
#[derive(Drop)]
pub struct Operand {
    pub tree: Boxed<Expr>,
    pub unary: bool,
}

/// A declarator, and what it declares.
#[derive(Drop)]
pub struct Declared {
    pub declarator: Boxed<Declarator>,
    pub core: Core,
}

/// Specifiers and a declarator, and whether it has a name.
#[derive(Drop)]
pub struct Headed {
    pub head: Boxed<Head>,
    pub named: bool,
}

/// What was read, and the height of its tree.
#[derive(Debug, Drop)]
pub struct Found<T> {
    pub it: T,
    pub height: usize,
}
