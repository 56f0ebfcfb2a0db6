// Which statements fit the layout (C11 6.8).

ghost use Rattle.std.specs.Prelude.{◌≡◌, ◌<◌, ◌^◌, length};
ghost use Rattle.sc_world.specs.Tree as tree;
ghost use Rattle.sc_world.specs.View.{type};
ghost use Rattle.function_fits.specs.Functions as spec;
ghost use Rattle.function_fits.specs.Laid.{exp_if_of, exp_of, layout_of, source_of, stm_of, stms_of};

use crate::declarations::{declarators_fit, start_fits};
use crate::expressions::{fits, is_scalar};
use crate::laid::{Laid, type_of};
use run_values::Want;
use run_world::same_type;
use sc_base::List;
use sc_gather::is_integer;
use sc_tree::ctype::CType;
use sc_typed::{TExpr, TStmt};

// An expression that is tested.
fn test_fits(laid: &Laid, e: &TExpr) -> bool
    requires few { length (layout_of laid.now).locations < 2 ^ 32 }
    ensures { result ≡ spec.test_fits (layout_of laid.now) (exp_of laid.now e.now) }
{
    fits(laid, Want::Value, e) && is_scalar(type_of(laid, e))
}

fn test_fits_if(laid: &Laid, e: &Option<TExpr>) -> bool
    requires few { length (layout_of laid.now).locations < 2 ^ 32 }
    ensures { result ≡ spec.test_fits_if (layout_of laid.now) (exp_if_of laid.now e.now) }
{
    match e {
        None => true,
        Some(e) => test_fits(laid, e),
    }
}

// An expression whose value is dropped.
fn fits_if(laid: &Laid, e: &Option<TExpr>) -> bool
    requires few { length (layout_of laid.now).locations < 2 ^ 32 }
    ensures { result ≡ spec.fits_if (layout_of laid.now) (exp_if_of laid.now e.now) }
{
    match e {
        None => true,
        Some(e) => fits(laid, Want::Value, e),
    }
}

// The number of a `switch`.
fn number_fits(laid: &Laid, e: &TExpr) -> bool
    requires few { length (layout_of laid.now).locations < 2 ^ 32 }
    ensures { result ≡ spec.number_fits (layout_of laid.now) (exp_of laid.now e.now) }
{
    fits(laid, Want::Value, e) && is_integer(type_of(laid, e))
}

// Whether the function has a result of that type; one that is not there has none.
#[tactic(auto, unfolding(sc_gather::specs::Seen::source_of, sc_world::specs::Programs::source_by))]
fn gives(laid: &Laid, t: &CType) -> bool
    ensures { result ≡ tree.same_type (type t.now) (source_of laid.now).result }
{
    match laid.function.function() {
        None => matches!(t, CType::Void),
        Some(function) => same_type(t, &function.result),
    }
}

// What is returned.
fn return_fits(laid: &Laid, e: &Option<TExpr>) -> bool
    requires few { length (layout_of laid.now).locations < 2 ^ 32 }
    ensures { result ≡ spec.return_fits (source_of laid.now) (layout_of laid.now) (exp_if_of laid.now e.now) }
{
    match e {
        None => true,
        Some(e) => fits(laid, Want::Value, e) && gives(laid, type_of(laid, e)),
    }
}

/// Whether a statement fits.
#[cycle(statement)]
pub fn statement_fits(laid: &Laid, s: &TStmt) -> bool
    requires few { length (layout_of laid.now).locations < 2 ^ 32 }
    ensures { result ≡ spec.statement_fits (source_of laid.now) (layout_of laid.now) (stm_of laid.now s.now) }
{
    match s {
        TStmt::Block(xs, _, _) => statements_fit(laid, xs),
        TStmt::Decl(ds, _) => declarators_fit(laid, ds.as_slice()),
        TStmt::Expr(e, _) => fits_if(laid, e),
        TStmt::If(e, x, y, _) => match y {
            None => test_fits(laid, e) && statement_fits(laid, x.get()),
            Some(y) => {
                test_fits(laid, e)
                    && (statement_fits(laid, x.get()) && statement_fits(laid, y.get()))
            }
        },
        TStmt::While(e, x, _) => test_fits(laid, e) && statement_fits(laid, x.get()),
        TStmt::Do(x, e, _) => statement_fits(laid, x.get()) && test_fits(laid, e),
        TStmt::For(first, e, step, x, _) => {
            start_fits(laid, first)
                && (test_fits_if(laid, e) && (fits_if(laid, step) && statement_fits(laid, x.get())))
        }
        TStmt::Switch(e, xs, _, _) => number_fits(laid, e) && statements_fit(laid, xs),
        TStmt::Case(_, _, _) | TStmt::Default(_) | TStmt::Goto(_, _) => true,
        TStmt::Break(_) | TStmt::Continue(_) => true,
        TStmt::Return(e, _) => return_fits(laid, e),
        TStmt::Label(_, x, _) => statement_fits(laid, x.get()),
    }
}

// Whether the items of a block or a `switch` fit.
#[cycle(statement)]
fn statements_fit(laid: &Laid, xs: &List<TStmt>) -> bool
    requires few { length (layout_of laid.now).locations < 2 ^ 32 }
    ensures { result ≡ spec.statements_fit (source_of laid.now) (layout_of laid.now) (stms_of laid.now xs.now) }
{
    for x in xs.as_slice() {
        if !statement_fits(laid, x) {
            return false;
        }
    }
    true
}
