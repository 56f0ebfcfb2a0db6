//! The operands of operators.

ghost use Rattle.std.specs.Prelude.{◌≡◌};
ghost use Rattle.run_values.specs.Seen.{want_of};
ghost use Rattle.expr_fits.specs.Around.{exp_of};
ghost use Rattle.expr_fits.specs.Operands as spec;

use crate::around::{Around, type_of};
use crate::types::{object_wanted, operand_wanted, right_wanted, unless_array};
use run_values::Want;
use sc_typed::{TExpr, What};

/// How many operands an expression has that are walked before its operator acts.
#[derive(Clone, Copy, Debug, PartialEq, Eq)]
pub enum Arity {
    Nullary,
    Unary,
    Binary,
}

/// How many operands an expression has. A comma, a condition and a call have none in this sense.
pub fn arity_of(around: &Around, e: &TExpr) -> Arity
    ensures { result ≡ spec.arity_of (exp_of around.now e.now) }
{
    match &e.what {
        What::Assign(_, _, _, _) => Arity::Binary,
        What::Binary(_, _, _) => Arity::Binary,
        What::Index(_, _) => Arity::Binary,
        What::Cast(_) | What::Convert(_) => Arity::Unary,
        What::Unary(_, _) => Arity::Unary,
        What::PreInc(_, _) | What::PostInc(_, _) => Arity::Unary,
        What::Field(_, _, _, _) => Arity::Unary,
        What::Comma(_, _) | What::Cond(_, _, _) | What::Call(_, _) => Arity::Nullary,
        What::SizeofExpr(_, _) | What::SizeofType(_) => Arity::Nullary,
        What::Int(_) | What::Char(_) => Arity::Nullary,
        What::Param(_) | What::Local(_) | What::Global(_) => Arity::Nullary,
        What::Function(_, _) | What::Str(_) => Arity::Nullary,
        What::Temp(_) | What::TempPlace(_) => Arity::Nullary,
    }
}

/// What is wanted of the first operand.
pub fn first_wanted(around: &Around, e: &TExpr) -> Want
    ensures { want_of result ≡ spec.first_wanted (exp_of around.now e.now) }
{
    match &e.what {
        What::Assign(_, _, _, _) => Want::Place,
        What::Cast(a) | What::Convert(a) => unless_array(type_of(around, a.get())),
        What::Unary(op, _) => operand_wanted(*op),
        What::PreInc(_, _) | What::PostInc(_, _) => Want::Place,
        What::Index(a, _) => unless_array(type_of(around, a.get())),
        What::Field(_, _, _, arrow) => object_wanted(*arrow),
        What::Binary(_, _, _) | What::Comma(_, _) => Want::Value,
        What::Cond(_, _, _) | What::Call(_, _) => Want::Value,
        What::SizeofExpr(_, _) | What::SizeofType(_) => Want::Value,
        What::Int(_) | What::Char(_) => Want::Value,
        What::Param(_) | What::Local(_) | What::Global(_) => Want::Value,
        What::Function(_, _) | What::Str(_) => Want::Value,
        What::Temp(_) | What::TempPlace(_) => Want::Value,
    }
}

/// What is wanted of the second operand.
pub fn second_wanted(around: &Around, e: &TExpr) -> Want
    ensures { want_of result ≡ spec.second_wanted (exp_of around.now e.now) }
{
    match &e.what {
        What::Assign(_, _, _, _) => right_wanted(None, &e.ctype),
        What::Binary(_, _, _) | What::Index(_, _) => Want::Value,
        What::Cast(_) | What::Convert(_) => Want::Value,
        What::Unary(_, _) | What::Field(_, _, _, _) => Want::Value,
        What::PreInc(_, _) | What::PostInc(_, _) => Want::Value,
        What::Comma(_, _) | What::Cond(_, _, _) | What::Call(_, _) => Want::Value,
        What::SizeofExpr(_, _) | What::SizeofType(_) => Want::Value,
        What::Int(_) | What::Char(_) => Want::Value,
        What::Param(_) | What::Local(_) | What::Global(_) => Want::Value,
        What::Function(_, _) | What::Str(_) => Want::Value,
        What::Temp(_) | What::TempPlace(_) => Want::Value,
    }
}
