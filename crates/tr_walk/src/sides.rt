//! The operands of constructs: of each is known that it can be walked.

ghost use Rattle.std.specs.Prelude.{◌≡◌, true};
ghost use Rattle.sc_typed.specs.declared.expr.TExpr.{out-TExpr};
ghost use Rattle.sc_typed.specs.declared.expr.What.TheVariants as what;
ghost use Rattle.sc_world.specs.Eval as eval;
ghost use Rattle.run_values.specs.Seen.{want_of};
ghost use Rattle.expr_fits.specs.Around.{exp_of};
ghost use Rattle.expr_fits.specs.Fits.{CanWalk};
ghost use Rattle.expr_fits.specs.Operands as operand;
ghost use Rattle.expr_fits.specs.declared.operands.Arity.TheVariants as arity;

use expr_fits::{Around, first_wanted, second_wanted};
use run_values::Want;
use sc_base::Boxed;
use sc_typed::TExpr;

/// An operand, and what is wanted of it.
#[derive(Clone, Copy)]
pub struct Operand<'e> {
    pub want: Want,
    pub e: &'e TExpr,
}

/// The left side of a comma.
pub fn comma_left<'e>(
    around: &Around,
    want: Want,
    e: &TExpr,
    a: &'e Boxed<TExpr>,
    b: &Boxed<TExpr>,
) -> &'e TExpr
    requires can { CanWalk around.now (want_of want) (exp_of around.now e.now) }
    requires is { (out-TExpr e.now).what ≡ what.Comma a.now b.now }
    ensures can { CanWalk around.now eval.Value (exp_of around.now result.now) }
    ensures same { result.now ≡ a.now }
{
    a.get()
}

/// The right side of a comma.
pub fn comma_right<'e>(
    around: &Around,
    want: Want,
    e: &TExpr,
    a: &Boxed<TExpr>,
    b: &'e Boxed<TExpr>,
) -> &'e TExpr
    requires can { CanWalk around.now (want_of want) (exp_of around.now e.now) }
    requires is { (out-TExpr e.now).what ≡ what.Comma a.now b.now }
    ensures can { CanWalk around.now (want_of want) (exp_of around.now result.now) }
    ensures same { result.now ≡ b.now }
{
    b.get()
}

/// The first operand of an operator.
pub fn first<'e>(around: &Around, want: Want, e: &TExpr, a: &'e Boxed<TExpr>) -> Operand<'e>
    requires can { CanWalk around.now (want_of want) (exp_of around.now e.now) }
    requires some { operand.has_operands (operand.arity_of (exp_of around.now e.now)) ≡ true }
    requires is { operand.first_operand (exp_of around.now e.now) ≡ exp_of around.now a.now }
    ensures can { CanWalk around.now (want_of result.want) (exp_of around.now result.e.now) }
    ensures same { result.e.now ≡ a.now }
    ensures wanted { want_of result.want ≡ operand.first_wanted (exp_of around.now e.now) }
    ensures operand { exp_of around.now result.e.now ≡ operand.first_operand (exp_of around.now e.now) }
{
    let want = first_wanted(around, e);
    Operand { want, e: a.get() }
}

/// The second operand of an operator.
pub fn second<'e>(around: &Around, want: Want, e: &TExpr, b: &'e Boxed<TExpr>) -> Operand<'e>
    requires can { CanWalk around.now (want_of want) (exp_of around.now e.now) }
    requires two { operand.arity_of (exp_of around.now e.now) ≡ arity.Binary }
    requires is { operand.second_operand (exp_of around.now e.now) ≡ exp_of around.now b.now }
    ensures can { CanWalk around.now (want_of result.want) (exp_of around.now result.e.now) }
    ensures same { result.e.now ≡ b.now }
    ensures wanted { want_of result.want ≡ operand.second_wanted (exp_of around.now e.now) }
    ensures operand { exp_of around.now result.e.now ≡ operand.second_operand (exp_of around.now e.now) }
{
    let want = second_wanted(around, e);
    Operand { want, e: b.get() }
}
