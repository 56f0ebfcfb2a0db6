// Which declarations in a body fit the layout (C11 6.7, 6.7.9).

ghost use Rattle.std.specs.Prelude.{◌≡◌, ◌<◌, ◌^◌, length};
ghost use Rattle.sc_world.specs.View.{type};
ghost use Rattle.function_fits.specs.Functions as spec;
ghost use Rattle.function_fits.specs.Laid.{decs_of, exp_of, given_of, givens_of, init_of, layout_of, source_of, start_of};

use crate::expressions::fits;
use crate::laid::{Laid, has_type, type_of};
use crate::parts::{is_local_there, local_at, part_at};
use expr_fits::right_wanted;
use run_values::Want;
use sc_tree::ctype::CType;
use sc_typed::{Declared, TDeclarator, TExpr, TForStart, TInit, TInitItem};

// Whether an expression fits that sets something to its value.
fn value_fits(laid: &Laid, e: &TExpr) -> bool
    requires few { length (layout_of laid.now).locations < 2 ^ 32 }
    ensures { result ≡ spec.value_fits (layout_of laid.now) (exp_of laid.now e.now) }
{
    fits(laid, right_wanted(None, type_of(laid, e)), e)
}

// Whether it sets what is there, by its type.
fn sets_part(laid: &Laid, at: u32, e: &TExpr) -> bool
    requires few { length (layout_of laid.now).locations < 2 ^ 32 }
    ensures { result ≡ spec.sets_part (layout_of laid.now) at (exp_of laid.now e.now) }
{
    value_fits(laid, e) && has_type(laid, at, type_of(laid, e))
}

// Whether what a way leads to has that type, if it leads to anything.
fn has_type_if(laid: &Laid, at: Option<u32>, t: &CType) -> bool
    ensures { result ≡ spec.has_type_if (layout_of laid.now) at (type t.now) }
{
    match at {
        None => true,
        Some(at) => has_type(laid, at, t),
    }
}

// A value in braces.
fn item_fits(laid: &Laid, at: u32, item: &TInitItem) -> bool
    requires few { length (layout_of laid.now).locations < 2 ^ 32 }
    ensures { result ≡ spec.item_fits (source_of laid.now) (layout_of laid.now) at (given_of laid.now item.now) }
{
    let e = &item.value;
    value_fits(laid, e) && has_type_if(laid, part_at(laid, at, &item.way), type_of(laid, e))
}

fn items_fit(laid: &Laid, at: u32, items: &[TInitItem]) -> bool
    requires few { length (layout_of laid.now).locations < 2 ^ 32 }
    ensures { result ≡ spec.items_fit (source_of laid.now) (layout_of laid.now) at (givens_of laid.now items.now) }
{
    for item in items {
        if !item_fits(laid, at, item) {
            return false;
        }
    }
    true
}

fn init_fits(laid: &Laid, at: u32, init: &Option<TInit>) -> bool
    requires few { length (layout_of laid.now).locations < 2 ^ 32 }
    ensures { result ≡ spec.init_fits (source_of laid.now) (layout_of laid.now) at (init_of laid.now init.now) }
{
    match init {
        None => true,
        Some(init) => match init {
            TInit::One(e) => sets_part(laid, at, e),
            TInit::Braces(items) => items_fit(laid, at, items.as_slice()),
        },
    }
}

fn declared_fits(laid: &Laid, declared: Declared, init: &Option<TInit>) -> bool
    requires few { length (layout_of laid.now).locations < 2 ^ 32 }
    ensures { result ≡ spec.declared_fits (source_of laid.now) (layout_of laid.now) declared (init_of laid.now init.now) }
{
    match declared {
        Declared::Local(n) => {
            is_local_there(laid, n) && init_fits(laid, local_at(laid, n), init)
        },
        Declared::Global(_) | Declared::Function => true,
    }
}

/// Whether declarators fit: each local is there, and each value has the type of what it sets.
pub fn declarators_fit(laid: &Laid, declarators: &[TDeclarator]) -> bool
    requires few { length (layout_of laid.now).locations < 2 ^ 32 }
    ensures { result ≡ spec.declarators_fit (source_of laid.now) (layout_of laid.now) (decs_of laid.now declarators.now) }
{
    for d in declarators {
        if !declared_fits(laid, d.declared, &d.init) {
            return false;
        }
    }
    true
}

/// What stands in the first place of `for`.
pub fn start_fits(laid: &Laid, start: &TForStart) -> bool
    requires few { length (layout_of laid.now).locations < 2 ^ 32 }
    ensures { result ≡ spec.start_fits (source_of laid.now) (layout_of laid.now) (start_of laid.now start.now) }
{
    match start {
        TForStart::Nothing => true,
        TForStart::Expr(e) => fits(laid, Want::Value, e),
        TForStart::Decl(ds, _) => declarators_fit(laid, ds.as_slice()),
    }
}
