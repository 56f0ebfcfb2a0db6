// Which expressions of nodes have gates.

ghost use Rattle.std.specs.Prelude.{◌≡◌, ℕ};
ghost use Rattle.sc_flow.specs.Over.{over};
ghost use Rattle.sc_flow.specs.Seen.{expression, truth};
ghost use Rattle.sc_world.specs.View.{type};
ghost use Rattle.expr_fits.specs.Around.{exp_of, source_of};
ghost use Rattle.expr_fits.specs.Fits as fits;
ghost use Rattle.tr_flow.specs.Taken as spec;

use expr_fits::{Arity, Around, arity_of};
use run_entry::integer_bits;
use run_exprs::character;
use run_values::is_logical;
use sc_flow::Expression;
use sc_tree::ctype::CType;
use sc_typed::{TExpr, What};

// Whether it has no call and no branch, and names no temp.
fn is_bare(around: &Around, e: &TExpr) -> bool
    ensures { result ≡ spec.is_bare (exp_of around.now e.now) }
{
    match &e.what {
        What::Comma(a, b) => is_bare(around, a.get()) && is_bare(around, b.get()),
        What::Assign(_, _, a, b) => is_bare(around, a.get()) && is_bare(around, b.get()),
        What::Binary(op, a, b) => {
            !is_logical(*op) && (is_bare(around, a.get()) && is_bare(around, b.get()))
        }
        What::Index(a, b) => is_bare(around, a.get()) && is_bare(around, b.get()),
        What::Cast(a) | What::Convert(a) => is_bare(around, a.get()),
        What::Unary(_, a) => is_bare(around, a.get()),
        What::PreInc(_, a) | What::PostInc(_, a) => is_bare(around, a.get()),
        What::SizeofExpr(a, _) => is_bare(around, a.get()),
        What::Field(a, _, _, _) => is_bare(around, a.get()),
        What::Cond(_, _, _) | What::Call(_, _) => false,
        What::SizeofType(_) | What::Int(_) | What::Char(_) => true,
        What::Param(_) | What::Local(_) | What::Global(_) => true,
        What::Function(_, _) | What::Str(_) => true,
        What::Temp(_) | What::TempPlace(_) => false,
    }
}

// Whether it may stand over kept operands.
fn is_over(around: &Around, e: &TExpr) -> bool
    ensures { result ≡ spec.is_over (exp_of around.now e.now) }
{
    match &e.what {
        What::Assign(_, _, _, _) => true,
        What::Binary(_, _, _) | What::Index(_, _) => true,
        What::Cast(_) | What::Convert(_) | What::Unary(_, _) => true,
        What::PreInc(_, _) | What::PostInc(_, _) => true,
        What::SizeofExpr(_, _) | What::Field(_, _, _, _) => true,
        What::Comma(_, _) | What::Cond(_, _, _) | What::Call(_, _) => false,
        What::SizeofType(_) | What::Int(_) | What::Char(_) => false,
        What::Param(_) | What::Local(_) | What::Global(_) => false,
        What::Function(_, _) | What::Str(_) | What::Temp(_) | What::TempPlace(_) => false,
    }
}

// Whether the temps of a node's expression are those that the node names.
fn names_temps(around: &Around, e: &Expression) -> bool
    ensures { result ≡ spec.names_temps (source_of around.now).structs e.now }
{
    match e {
        Expression::Source(e) => is_bare(around, e),
        Expression::Over(e, _, _) => is_over(around, e),
        Expression::Temp(_, _) | Expression::TempPlace(_, _) => true,
        Expression::Former(_, _) | Expression::Truth(_, _) | Expression::Nothing => true,
    }
}

// Whether it is a number of the width of the type.
fn fits_width(around: &Around, t: &CType, n: u64) -> bool
    ensures { result ≡ fits.fits_width (source_of around.now) (type t.now) n }
{
    sc_types::fits(integer_bits(around.here, t), n)
}

// Whether its constants are numbers of their widths.
fn constants_fit(around: &Around, e: &TExpr) -> bool
    ensures { result ≡ fits.constants_fit (source_of around.now) (exp_of around.now e.now) }
{
    let t = &e.ctype;
    match &e.what {
        What::Comma(a, b) => constants_fit(around, a.get()) && constants_fit(around, b.get()),
        What::Assign(_, _, a, b) => {
            constants_fit(around, a.get()) && constants_fit(around, b.get())
        }
        What::Binary(_, a, b) => constants_fit(around, a.get()) && constants_fit(around, b.get()),
        What::Index(a, b) => constants_fit(around, a.get()) && constants_fit(around, b.get()),
        What::Cast(a) | What::Convert(a) => constants_fit(around, a.get()),
        What::Unary(_, a) => constants_fit(around, a.get()),
        What::PreInc(_, a) | What::PostInc(_, a) => constants_fit(around, a.get()),
        What::Field(a, _, _, _) => constants_fit(around, a.get()),
        What::SizeofExpr(_, n) | What::SizeofType(n) | What::Int(n) => fits_width(around, t, *n),
        What::Char(c) => fits_width(around, t, character(*c)),
        What::Cond(_, _, _) | What::Call(_, _) => true,
        What::Param(_) | What::Local(_) | What::Global(_) => true,
        What::Function(_, _) | What::Str(_) => true,
        What::Temp(_) | What::TempPlace(_) => true,
    }
}

// The same of an expression over kept operands: these are no constants.
#[tactic(auto, using(crate::proofs::Over::constants_alone, crate::proofs::Over::constants_over))]
fn constants_fit_over(around: &Around, e: &TExpr) -> bool
    ensures { (x y : ℕ) → result ≡ fits.constants_fit (source_of around.now) (over (exp_of around.now e.now) x y) }
{
    match arity_of(around, e) {
        Arity::Nullary => constants_fit(around, e),
        Arity::Unary | Arity::Binary => true,
    }
}

// 1 or 0.
fn number_for(holds: bool) -> u64
    ensures { result ≡ truth holds }
{
    if holds { 1 } else { 0 }
}

// Whether the constants of a node's expression are numbers of their widths.
fn node_constants_fit(around: &Around, e: &Expression) -> bool
    ensures { result ≡ fits.constants_fit (source_of around.now) (expression (source_of around.now).structs e.now) }
{
    match e {
        Expression::Source(e) => constants_fit(around, e),
        Expression::Over(e, _, _) => constants_fit_over(around, e),
        Expression::Temp(_, _) | Expression::TempPlace(_, _) => true,
        Expression::Former(_, _) => true,
        Expression::Truth(holds, t) => fits_width(around, t, number_for(*holds)),
        Expression::Nothing => true,
    }
}

/// Whether the expression of a node has gates, if it fits.
pub fn takes(around: &Around, e: &Expression) -> bool
    ensures { result ≡ spec.takes (source_of around.now) e.now }
{
    names_temps(around, e) && node_constants_fit(around, e)
}

/// Whether the expression of a node has its type with it.
pub fn has_type(e: &Expression) -> bool
    ensures { result ≡ spec.has_type e.now }
{
    match e {
        Expression::Source(_) | Expression::Over(_, _, _) => true,
        Expression::Temp(_, _) | Expression::TempPlace(_, _) | Expression::Truth(_, _) => true,
        Expression::Former(_, _) | Expression::Nothing => false,
    }
}
