// The names of expressions and declarators.

ghost use Rattle.std.specs.Prelude.{◌≡◌};
ghost use Rattle.sc_typing.specs.Tables as tables;
ghost use Rattle.sc_typing.specs.Typing as spec;

use crate::Tables;
use sc_base::{NameId, Pos};
use sc_tree::expr::{Declarator, Expr, Place};

impl Tables<'_> {
    /// The name that an expression is, with its place, where it is a bare one.
    pub fn bare_name(&self, e: &Expr) -> Option<(NameId, Place)>
        ensures { (spec.typing (tables.here_of self.now) e.now).name ≡ result }
    {
        match e {
            Expr::Name(name, p) => Some((*name, *p)),
            Expr::Comma(_, _, _)
            | Expr::Assign(_, _, _, _)
            | Expr::Cond(_, _, _, _)
            | Expr::Binary(_, _, _, _)
            | Expr::Cast(_, _, _)
            | Expr::Unary(_, _, _)
            | Expr::PreInc(_, _, _)
            | Expr::SizeofExpr(_, _)
            | Expr::SizeofType(_, _)
            | Expr::Index(_, _, _)
            | Expr::Call(_, _, _)
            | Expr::Field(_, _, _, _)
            | Expr::PostInc(_, _, _)
            | Expr::Int(_, _)
            | Expr::Char(_, _)
            | Expr::Odd(_)
            | Expr::Str(_, _) => None,
        }
    }

    /// The name that a declarator declares, with its place; `None` where it declares none.
    pub fn declared_name(&self, d: &Declarator) -> Option<(NameId, Pos)>
        ensures { (spec.declaring (tables.here_of self.now) d.now).name ≡ result }
    {
        match d {
            Declarator::Name(name) => *name,
            Declarator::Pointer(inner) => self.declared_name(inner.get()),
            Declarator::Array(inner, _) => self.declared_name(inner.get()),
            Declarator::Func(inner, _, _) => self.declared_name(inner.get()),
        }
    }

    /// Whether a declarator is the bare name.
    pub fn is_bare(&self, d: &Declarator) -> bool
        ensures { (spec.declaring (tables.here_of self.now) d.now).bare ≡ result }
    {
        match d {
            Declarator::Name(_) => true,
            Declarator::Pointer(_) | Declarator::Array(_, _) | Declarator::Func(_, _, _) => false,
        }
    }
}
