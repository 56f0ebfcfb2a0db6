// Conversions (C11 6.3): what becomes of an expression where its value is taken, where it meets another one,
// and where it is assigned, passed or returned.
//
// An expression that a branch does not use is dropped by a call of `drop`: each drop that is not written out costs the
// check of its function ten seconds, and several of them more than their sum.

ghost use Rattle.std.specs.Prelude.{◌≡◌, IfOk};
ghost use Rattle.sc_tree.specs.declared.ctype.CType.TheVariants as ty;
ghost use Rattle.sc_typed.specs.Types as types;
ghost use Rattle.sc_rules.specs.Gives.{Gives};
ghost use Rattle.sc_rules.specs.Conversions as spec;
ghost use Rattle.sc_rules.specs.Plain as plain;

use crate::Walk;
use crate::steps::{ill_typed, unsupported};
use sc_base::{Boxed, IllTyped, OutOfMemory, Pos, Unsupported};
use sc_tree::ctype::{CType, IntKind, OpaqueKind, Widths};
use sc_tree::expr::Place;
use sc_typed::{TExpr, What};
use sc_types::{
    common, copy_signature, copy_type, is_bool, is_integer, is_null_integer, is_pointer, is_void,
    promoted_kind, same,
};
use std::alloc::Global;

/// An expression of that form, type and place.
pub fn node(what: What, ctype: CType, place: Place) -> TExpr
    ensures { result ≡ spec.node what ctype place }
{
    TExpr { what, ctype, place }
}

/// The value of an expression in another type.
pub fn convert(alloc: Global, e: TExpr, t: CType) -> Result<TExpr, OutOfMemory>
    ensures { IfOk result (λ x. x ≡ spec.convert e t) }
{
    let place = e.place;
    Ok(node(What::Convert(Boxed::new(alloc, e)?), t, place))
}

/// The value of an expression in a type, converted where it has not that type already.
pub fn to(alloc: Global, t: &CType, e: TExpr) -> Result<TExpr, OutOfMemory>
    ensures { IfOk result (λ x. x ≡ spec.to t.now e) }
{
    if same(&e.ctype, t) {
        Ok(e)
    } else {
        match copy_type(alloc, t) {
            Err(fault) => {
                drop(e);
                Err(fault)
            }
            Ok(t) => convert(alloc, e, t),
        }
    }
}

/// The value of an expression as an integer of that kind.
pub fn to_kind(alloc: Global, kind: IntKind, e: TExpr) -> Result<TExpr, OutOfMemory>
    ensures { IfOk result (λ x. x ≡ spec.to (ty.Int kind) e) }
{
    let t = CType::Int(kind);
    if same(&e.ctype, &t) {
        Ok(e)
    } else {
        convert(alloc, e, t)
    }
}

/// The integer promotions (C11 6.3.1.1).
pub fn promote(alloc: Global, e: TExpr) -> Result<TExpr, OutOfMemory>
    ensures { IfOk result (λ x. x ≡ spec.promote e) }
{
    let kind = promoted_kind(&e.ctype);
    to_kind(alloc, kind, e)
}

/// The kind in which two operands meet (C11 6.3.1.8).
pub fn common_of(w: Widths, a: &TExpr, b: &TExpr) -> IntKind
    ensures { spec.common_of w a.now b.now ≡ ty.Int result }
{
    common(w, promoted_kind(&a.ctype), promoted_kind(&b.ctype))
}

/// What a value of an opaque type is refused as.
pub fn opaque_fault(kind: OpaqueKind) -> Unsupported
    ensures { result ≡ spec.opaque_fault kind }
{
    match kind {
        OpaqueKind::VaList => Unsupported::VaList,
        OpaqueKind::Float | OpaqueKind::Double | OpaqueKind::LongDouble => Unsupported::Float,
    }
}

// What an array or a function becomes where its value is taken.
fn decayed_type(alloc: Global, t: &CType) -> Result<Option<CType>, OutOfMemory>
    ensures { IfOk result (λ x. x ≡ spec.decayed_type t.now) }
{
    match t {
        CType::Array(element, _) => {
            let element = copy_type(alloc, element.get())?;
            Ok(Some(CType::Ptr(Boxed::new(alloc, element)?)))
        }
        CType::Func(signature) => {
            let signature = copy_signature(alloc, signature.get())?;
            let function = CType::Func(Boxed::new(alloc, signature)?);
            Ok(Some(CType::Ptr(Boxed::new(alloc, function)?)))
        }
        CType::Void
        | CType::Bool
        | CType::Int(_)
        | CType::Ptr(_)
        | CType::Struct(_)
        | CType::Union(_)
        | CType::Opaque(_) => Ok(None),
    }
}

/// An expression whose array became the pointer to its first element, or whose function the pointer to it
/// (C11 6.3.2.1).
pub fn decayed(alloc: Global, e: TExpr) -> Result<TExpr, OutOfMemory>
    ensures { IfOk result (λ x. x ≡ spec.decayed e) }
{
    match decayed_type(alloc, &e.ctype) {
        Err(fault) => {
            drop(e);
            Err(fault)
        }
        Ok(None) => Ok(e),
        Ok(Some(t)) => convert(alloc, e, t),
    }
}

/// Which kind of opaque type it is; `None` of any other type.
pub fn opaque_kind(t: &CType) -> Option<OpaqueKind>
    ensures { result ≡ spec.opaque_kind t.now }
{
    match t {
        CType::Opaque(kind) => Some(*kind),
        _ => None,
    }
}

// Whether a value of that type stays as it is: of all types but arrays, functions and opaque types.
fn is_plain(t: &CType) -> bool
    ensures { result ≡ plain.is_plain t.now }
{
    match t {
        CType::Array(_, _) | CType::Func(_) | CType::Opaque(_) => false,
        CType::Void
        | CType::Bool
        | CType::Int(_)
        | CType::Ptr(_)
        | CType::Struct(_)
        | CType::Union(_) => true,
    }
}

// The value of an expression of any type.
fn any_value(alloc: Global, walk: &mut Walk, e: TExpr) -> Result<Option<TExpr>, OutOfMemory>
    ensures { Gives (spec.value e walk.old) result walk.new }
{
    let opaque = opaque_kind(&e.ctype);
    let e = decayed(alloc, e)?;
    match opaque {
        None => Ok(Some(e)),
        Some(kind) => {
            let first = e.place.first;
            drop(e);
            Ok(unsupported(walk, opaque_fault(kind), first))
        }
    }
}

/// The value of an expression (C11 6.3.2.1). One of an opaque type is not taken.
#[tactic(auto, using(crate::proofs::Plain::plain_value))]
pub fn value(alloc: Global, walk: &mut Walk, e: TExpr) -> Result<Option<TExpr>, OutOfMemory>
    ensures { Gives (spec.value e walk.old) result walk.new }
{
    if is_plain(&e.ctype) {
        Ok(Some(e))
    } else {
        any_value(alloc, walk, e)
    }
}

/// Whether a value converts to a type without a cast (C11 6.5.16.1).
pub fn converts(w: Widths, e: &TExpr, t: &CType) -> bool
    ensures { result ≡ spec.converts w e.now t.now }
{
    if same(&e.ctype, t) {
        !is_void(t)
    } else if is_integer(&e.ctype) {
        is_integer(t) || (is_pointer(t) && is_null_integer(w, e))
    } else {
        is_pointer(&e.ctype) && (is_pointer(t) || is_bool(t))
    }
}

// A value as one of a type, where it is known whether it converts.
fn converted_or(
    alloc: Global,
    walk: &mut Walk,
    allowed: bool,
    kind: IllTyped,
    at: Pos,
    t: &CType,
    e: TExpr,
) -> Result<Option<TExpr>, OutOfMemory>
    ensures { Gives (spec.converted_or allowed kind at t.now e walk.old) result walk.new }
{
    if allowed {
        Ok(Some(to(alloc, t, e)?))
    } else {
        drop(e);
        Ok(ill_typed(walk, kind, at))
    }
}

/// A value as one of a type, as by assignment (C11 6.5.16.1). One that does not convert is a fault of that
/// kind at that place; an integer as a value of an opaque type is not taken.
pub fn converted(
    alloc: Global,
    walk: &mut Walk,
    w: Widths,
    kind: IllTyped,
    at: Pos,
    t: &CType,
    e: TExpr,
) -> Result<Option<TExpr>, OutOfMemory>
    ensures { Gives (spec.converted w kind at t.now e walk.old) result walk.new }
{
    match opaque_kind(t) {
        None => {
            let allowed = converts(w, &e, t);
            converted_or(alloc, walk, allowed, kind, at, t, e)
        }
        Some(opaque) => {
            if is_integer(&e.ctype) {
                let first = e.place.first;
                drop(e);
                Ok(unsupported(walk, opaque_fault(opaque), first))
            } else {
                drop(e);
                Ok(ill_typed(walk, kind, at))
            }
        }
    }
}
