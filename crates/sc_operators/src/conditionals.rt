// `? :` and the comma operator (C11 6.5.15, 6.5.17).
//
// An operand that a branch does not use is dropped by a call of `drop`, as in `binary`.

ghost use Rattle.std.specs.Prelude.{◌≡◌, IfOk, Some};
ghost use Rattle.sc_rules.specs.Gives.{Gives};
ghost use Rattle.sc_rules.specs.Conversions.{to as in_type};
ghost use Rattle.sc_operators.specs.Conditionals as spec;

use crate::binary::both_boxed;
use sc_base::{Boxed, IllTyped, OutOfMemory, Unsupported};
use sc_manners::{both_integers, some_pointer};
use sc_rules::{Walk, common_of, ill_typed, node, to, unsupported};
use sc_tree::ctype::{CType, Widths};
use sc_tree::expr::Place;
use sc_typed::{TExpr, What};
use sc_types::{
    copy_type, is_aggregate, is_null_constant, is_pointer, is_scalar, is_void, is_void_pointer,
};
use std::alloc::Global;

// The type of `? :` where both arms are pointers or null constants.
fn pointer_arms(
    alloc: Global,
    w: Widths,
    b: &TExpr,
    c: &TExpr,
) -> Result<Option<CType>, OutOfMemory>
    ensures { IfOk result (λ x. x ≡ spec.pointer_arms w b.now c.now) }
{
    if is_pointer(&b.ctype) && is_pointer(&c.ctype) {
        let arm = if is_void_pointer(&c.ctype) { c } else { b };
        Ok(Some(copy_type(alloc, &arm.ctype)?))
    } else if is_null_constant(w, b) && is_null_constant(w, c) {
        Ok(Some(CType::Ptr(Boxed::new(alloc, CType::Void)?)))
    } else {
        Ok(None)
    }
}

// Whether exactly the first is a null constant, and the second a pointer.
fn follows_pointer(w: Widths, b: &TExpr, c: &TExpr) -> bool
    ensures { result ≡ spec.follows_pointer w b.now c.now }
{
    is_null_constant(w, b) && (!is_null_constant(w, c) && is_pointer(&c.ctype))
}

// The type of `? :` by its arms, where one is a pointer.
fn mixed_arms(alloc: Global, w: Widths, b: &TExpr, c: &TExpr) -> Result<Option<CType>, OutOfMemory>
    ensures { IfOk result (λ x. x ≡ spec.mixed_arms w b.now c.now) }
{
    if follows_pointer(w, b, c) {
        Ok(Some(copy_type(alloc, &c.ctype)?))
    } else if follows_pointer(w, c, b) {
        Ok(Some(copy_type(alloc, &b.ctype)?))
    } else {
        pointer_arms(alloc, w, b, c)
    }
}

// The type of `? :` by its arms.
fn arms_type(alloc: Global, w: Widths, b: &TExpr, c: &TExpr) -> Result<Option<CType>, OutOfMemory>
    ensures { IfOk result (λ x. x ≡ spec.arms_type w b.now c.now) }
{
    if both_integers(b, c) {
        Ok(Some(CType::Int(common_of(w, b, c))))
    } else if is_void(&b.ctype) && is_void(&c.ctype) {
        Ok(Some(CType::Void))
    } else if some_pointer(b, c) {
        mixed_arms(alloc, w, b, c)
    } else {
        Ok(None)
    }
}

// An arm of `a ? b : c` in the type of the whole.
fn arm(alloc: Global, t: &CType, e: TExpr) -> Result<Boxed<TExpr>, OutOfMemory>
    ensures { IfOk result (λ x. x ≡ in_type t.now e) }
{
    let e = to(alloc, t, e)?;
    Ok(Boxed::new(alloc, e)?)
}

// Both arms of `a ? b : c` in the type of the whole.
fn both_arms(
    alloc: Global,
    t: &CType,
    b: TExpr,
    c: TExpr,
) -> Result<(Boxed<TExpr>, Boxed<TExpr>), OutOfMemory>
    ensures { IfOk result (λ x. x ≡ (in_type t.now b, in_type t.now c)) }
{
    match arm(alloc, t, b) {
        Err(e) => {
            drop(c);
            Err(e)
        }
        Ok(b) => Ok((b, arm(alloc, t, c)?)),
    }
}

// `a ? b : c` with both arms in one type.
fn chosen(
    alloc: Global,
    t: CType,
    p: Place,
    a: TExpr,
    b: TExpr,
    c: TExpr,
) -> Result<TExpr, OutOfMemory>
    ensures { IfOk result (λ x. x ≡ spec.chosen t p a b c) }
{
    match both_arms(alloc, &t, b, c) {
        Err(e) => {
            drop(a);
            Err(e)
        }
        Ok((b, c)) => {
            let a = Boxed::new(alloc, a)?;
            Ok(node(What::Cond(a, b, c), t, p))
        }
    }
}

// `a ? b : c`, where its type is known.
fn conditional_to(
    alloc: Global,
    walk: &mut Walk,
    t: Option<CType>,
    p: Place,
    a: TExpr,
    b: TExpr,
    c: TExpr,
) -> Result<Option<TExpr>, OutOfMemory>
    ensures { Gives (spec.conditional_to t p a b c walk.old) result walk.new }
{
    match t {
        None => {
            drop(a);
            drop(b);
            drop(c);
            Ok(ill_typed(walk, IllTyped::Operand, p.token))
        }
        Some(t) => {
            if is_scalar(&a.ctype) {
                Ok(Some(chosen(alloc, t, p, a, b, c)?))
            } else {
                drop(a);
                drop(b);
                drop(c);
                Ok(ill_typed(walk, IllTyped::Operand, p.token))
            }
        }
    }
}

// An operand that is a struct or union is not taken.
fn no_aggregate(walk: &mut Walk, e: Option<TExpr>) -> Option<TExpr>
    ensures { spec.no_aggregate e walk.old ≡ (result, walk.new) }
{
    match e {
        None => None,
        Some(e) => {
            if is_aggregate(&e.ctype) {
                let at = e.place.first;
                drop(e);
                unsupported(walk, Unsupported::Struct, at)
            } else {
                Some(e)
            }
        }
    }
}

// `a ? b : c`, where the first two have types.
fn with_third(
    alloc: Global,
    walk: &mut Walk,
    w: Widths,
    p: Place,
    a: TExpr,
    b: TExpr,
    c: Option<TExpr>,
) -> Result<Option<TExpr>, OutOfMemory>
    ensures { Gives (spec.conditional_of w p (Some a) (Some b) c walk.old) result walk.new }
{
    match c {
        None => {
            drop(a);
            drop(b);
            Ok(None)
        }
        Some(c) => match arms_type(alloc, w, &b, &c) {
            Err(e) => {
                drop(a);
                drop(b);
                drop(c);
                Err(e)
            }
            Ok(t) => conditional_to(alloc, walk, t, p, a, b, c),
        },
    }
}

// `a ? b : c`, where the first has a type.
fn with_second(
    alloc: Global,
    walk: &mut Walk,
    w: Widths,
    p: Place,
    a: TExpr,
    b: Option<TExpr>,
    c: Option<TExpr>,
) -> Result<Option<TExpr>, OutOfMemory>
    ensures { Gives (spec.conditional_of w p (Some a) b c walk.old) result walk.new }
{
    match b {
        None => {
            drop(a);
            drop(c);
            Ok(None)
        }
        Some(b) => with_third(alloc, walk, w, p, a, b, c),
    }
}

// `a ? b : c`, where all of them have types.
fn conditional_of(
    alloc: Global,
    walk: &mut Walk,
    w: Widths,
    p: Place,
    a: Option<TExpr>,
    b: Option<TExpr>,
    c: Option<TExpr>,
) -> Result<Option<TExpr>, OutOfMemory>
    ensures { Gives (spec.conditional_of w p a b c walk.old) result walk.new }
{
    match a {
        None => {
            drop(b);
            drop(c);
            Ok(None)
        }
        Some(a) => with_second(alloc, walk, w, p, a, b, c),
    }
}

/// `a ? b : c` of values (C11 6.5.15). An operand in which a fault stands is `None`; the others are judged.
pub fn conditional(
    alloc: Global,
    walk: &mut Walk,
    w: Widths,
    p: Place,
    a: Option<TExpr>,
    b: Option<TExpr>,
    c: Option<TExpr>,
) -> Result<Option<TExpr>, OutOfMemory>
    ensures { Gives (spec.conditional w p a b c walk.old) result walk.new }
{
    let a = no_aggregate(walk, a);
    let b = no_aggregate(walk, b);
    let c = no_aggregate(walk, c);
    conditional_of(alloc, walk, w, p, a, b, c)
}

/// `a , b` of values (C11 6.5.17).
pub fn comma(alloc: Global, p: Place, a: TExpr, b: TExpr) -> Result<TExpr, OutOfMemory>
    ensures { IfOk result (λ x. x ≡ spec.comma p a b) }
{
    match copy_type(alloc, &b.ctype) {
        Err(e) => {
            drop(a);
            drop(b);
            Err(e)
        }
        Ok(t) => {
            let (a, b) = both_boxed(alloc, a, b)?;
            Ok(node(What::Comma(a, b), t, p))
        }
    }
}
