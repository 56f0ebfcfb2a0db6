// Integer constants, operators before one operand, casts, `sizeof` and indexing (C11 6.4.4.1, 6.5.2.1, 6.5.3,
// 6.5.4).
//
// An operand that a branch does not use is dropped by a call of `drop`: each drop that is not written out costs the
// check of its function ten seconds, and several of them more than their sum.

ghost use Rattle.std.specs.Prelude.{◌≡◌, IfOk};
ghost use Rattle.sc_tree.specs.declared.ctype.CType.TheVariants as ty;
ghost use Rattle.sc_typed.specs.Types as types;
ghost use Rattle.sc_typed.specs.declared.expr.What.TheVariants as what;
ghost use Rattle.sc_rules.specs.Gives.{Gives};
ghost use Rattle.sc_rules.specs.Conversions.{node as node_of, opaque_kind as opaque_of};
ghost use Rattle.sc_unary.specs.Operators as spec;

use sc_base::{Boxed, IllTyped, OutOfMemory, Unsupported};
use sc_rules::{Walk, converts, ill_typed, node, opaque_kind, promote, unsupported};
use sc_tree::ctype::{CType, IntKind, Widths};
use sc_tree::expr::Place;
use sc_tree::op::UnaryOp;
use sc_tree::token::IntToken;
use sc_typed::{TExpr, What};
use sc_types::{
    constant_kind, copy_type, is_function, is_integer, is_lvalue, is_pointer, is_scalar, is_void,
    promoted_kind, target,
};
use std::alloc::Global;

/// The type of `sizeof` (C11 6.5.3.4, 7.19).
pub fn size_type(w: Widths) -> CType
    ensures { result ≡ spec.size_type w }
{
    match w {
        Widths::Ilp32 => CType::Int(IntKind::UInt),
        Widths::Lp64 => CType::Int(IntKind::ULong),
    }
}

// The number of a constant, if 64 bits hold it.
fn token_value(t: IntToken) -> Option<u64>
    ensures { result ≡ spec.token_value t }
{
    if t.fits { Some(t.value) } else { None }
}

// A constant of a kind, where a kind holds it.
fn int_of_kind(walk: &mut Walk, kind: Option<IntKind>, n: u64, p: Place) -> Option<TExpr>
    ensures { spec.int_of_kind kind n p walk.old ≡ (result, walk.new) }
{
    match kind {
        None => unsupported(walk, Unsupported::Wide, p.token),
        Some(kind) => Some(node(What::Int(n), CType::Int(kind), p)),
    }
}

/// An integer constant in the first kind of its list that holds it (C11 6.4.4.1); one that none holds is not
/// taken.
pub fn int_constant(walk: &mut Walk, w: Widths, t: IntToken, p: Place) -> Option<TExpr>
    ensures { spec.int_constant w t p walk.old ≡ (result, walk.new) }
{
    match token_value(t) {
        None => unsupported(walk, Unsupported::Wide, p.token),
        Some(n) => {
            let kind = constant_kind(w, t.decimal, t.unsigned, u32::from(t.longs), n);
            int_of_kind(walk, kind, n, p)
        }
    }
}

// `op a` of type `t`.
fn prefixed(alloc: Global, op: UnaryOp, a: TExpr, t: CType, p: Place) -> Result<TExpr, OutOfMemory>
    ensures { IfOk result (λ x. x ≡ node_of (what.Unary op a) t p) }
{
    let a = Boxed::new(alloc, a)?;
    Ok(node(What::Unary(op, a), t, p))
}

// The type of pointers to objects of a type.
fn pointer_to(alloc: Global, t: &CType) -> Result<CType, OutOfMemory>
    ensures { IfOk result (λ x. x ≡ ty.Ptr t.now) }
{
    let pointed = copy_type(alloc, t)?;
    Ok(CType::Ptr(Boxed::new(alloc, pointed)?))
}

// `& a`: the operand is an lvalue or a function.
fn address(alloc: Global, walk: &mut Walk, p: Place, a: TExpr) -> Result<Option<TExpr>, OutOfMemory>
    ensures { Gives (spec.address p a walk.old) result walk.new }
{
    if is_lvalue(&a) || is_function(&a.ctype) {
        match pointer_to(alloc, &a.ctype) {
            Err(e) => {
                drop(a);
                Err(e)
            }
            Ok(t) => Ok(Some(prefixed(alloc, UnaryOp::Address, a, t, p)?)),
        }
    } else {
        drop(a);
        Ok(ill_typed(walk, IllTyped::Lvalue, p.token))
    }
}

// A copy of what a pointer points to.
fn copy_target(alloc: Global, t: &CType) -> Result<Option<CType>, OutOfMemory>
    ensures { IfOk result (λ x. x ≡ types.target t.now) }
{
    match target(t) {
        None => Ok(None),
        Some(pointed) => Ok(Some(copy_type(alloc, pointed)?)),
    }
}

// `* a`
fn deref(alloc: Global, walk: &mut Walk, p: Place, a: TExpr) -> Result<Option<TExpr>, OutOfMemory>
    ensures { Gives (spec.deref p a walk.old) result walk.new }
{
    match copy_target(alloc, &a.ctype) {
        Err(e) => {
            drop(a);
            Err(e)
        }
        Ok(None) => {
            drop(a);
            Ok(ill_typed(walk, IllTyped::Operand, p.token))
        }
        Ok(Some(t)) => Ok(Some(prefixed(alloc, UnaryOp::Deref, a, t, p)?)),
    }
}

// `! a`
fn negation(
    alloc: Global,
    walk: &mut Walk,
    p: Place,
    a: TExpr,
) -> Result<Option<TExpr>, OutOfMemory>
    ensures { Gives (spec.negation p a walk.old) result walk.new }
{
    if is_scalar(&a.ctype) {
        Ok(Some(prefixed(alloc, UnaryOp::Not, a, CType::Int(IntKind::Int), p)?))
    } else {
        drop(a);
        Ok(ill_typed(walk, IllTyped::Operand, p.token))
    }
}

// `~ a`, and `+ a` and `- a` of what is no pointer.
fn promoting(
    alloc: Global,
    walk: &mut Walk,
    op: UnaryOp,
    p: Place,
    a: TExpr,
) -> Result<Option<TExpr>, OutOfMemory>
    ensures { Gives (spec.promoting op p a walk.old) result walk.new }
{
    if is_integer(&a.ctype) {
        let kind = promoted_kind(&a.ctype);
        let a = promote(alloc, a)?;
        Ok(Some(prefixed(alloc, op, a, CType::Int(kind), p)?))
    } else {
        drop(a);
        Ok(ill_typed(walk, IllTyped::Operand, p.token))
    }
}

// `+ a` and `- a`
fn signing(
    alloc: Global,
    walk: &mut Walk,
    op: UnaryOp,
    p: Place,
    a: TExpr,
) -> Result<Option<TExpr>, OutOfMemory>
    ensures { Gives (spec.signing op p a walk.old) result walk.new }
{
    if is_pointer(&a.ctype) {
        drop(a);
        Ok(unsupported(walk, Unsupported::Arith, p.token))
    } else {
        promoting(alloc, walk, op, p, a)
    }
}

/// `op a`: with `&` of what stands as it is, else of a value.
pub fn unary(
    alloc: Global,
    walk: &mut Walk,
    op: UnaryOp,
    p: Place,
    a: TExpr,
) -> Result<Option<TExpr>, OutOfMemory>
    ensures { Gives (spec.unary op p a walk.old) result walk.new }
{
    match op {
        UnaryOp::Address => address(alloc, walk, p, a),
        UnaryOp::Deref => deref(alloc, walk, p, a),
        UnaryOp::Not => negation(alloc, walk, p, a),
        UnaryOp::Plus | UnaryOp::Minus => signing(alloc, walk, op, p, a),
        UnaryOp::Complement => promoting(alloc, walk, op, p, a),
    }
}

// Whether a cast makes a value of an opaque type of an integer.
fn is_opaque_of_integer(t: &CType, e: &TExpr) -> bool
    ensures { result ≡ spec.is_opaque_of_integer t.now e.now (opaque_of t.now) }
{
    match opaque_kind(t) {
        None => false,
        Some(_) => is_integer(&e.ctype),
    }
}

// Whether a value may be cast to a type.
fn may_cast(w: Widths, t: &CType, e: &TExpr) -> bool
    ensures { result ≡ spec.may_cast w t.now e.now }
{
    is_opaque_of_integer(t, e) || (is_void(t) || (is_scalar(t) && converts(w, e, t)))
}

/// `( t ) e` of a value (C11 6.5.4). A pointer is cast to pointers alone, and a null constant to each of them.
pub fn cast(
    alloc: Global,
    walk: &mut Walk,
    w: Widths,
    p: Place,
    t: CType,
    e: TExpr,
) -> Result<Option<TExpr>, OutOfMemory>
    ensures { Gives (spec.cast w p t e walk.old) result walk.new }
{
    if may_cast(w, &t, &e) {
        let e = Boxed::new(alloc, e)?;
        Ok(Some(node(What::Cast(e), t, p)))
    } else if is_pointer(&e.ctype) || is_pointer(&t) {
        drop(e);
        drop(t);
        Ok(unsupported(walk, Unsupported::Cast, p.token))
    } else {
        drop(e);
        drop(t);
        Ok(ill_typed(walk, IllTyped::Operand, p.token))
    }
}

/// `sizeof e`, where the type of `e`, which stands as it is, has that size (C11 6.5.3.4).
pub fn size_of_expression(
    alloc: Global,
    walk: &mut Walk,
    w: Widths,
    size: Option<u64>,
    p: Place,
    e: TExpr,
) -> Result<Option<TExpr>, OutOfMemory>
    ensures { Gives (spec.size_of_expression w size p e walk.old) result walk.new }
{
    match size {
        None => {
            drop(e);
            Ok(ill_typed(walk, IllTyped::Incomplete, p.token))
        }
        Some(n) => {
            let e = Boxed::new(alloc, e)?;
            Ok(Some(node(What::SizeofExpr(e, n), size_type(w), p)))
        }
    }
}

/// `sizeof ( type )`, where the type has that size (C11 6.5.3.4).
pub fn size_of_type(walk: &mut Walk, w: Widths, size: Option<u64>, p: Place) -> Option<TExpr>
    ensures { spec.size_of_type w size p walk.old ≡ (result, walk.new) }
{
    match size {
        None => ill_typed(walk, IllTyped::Incomplete, p.token),
        Some(n) => Some(node(What::SizeofType(n), size_type(w), p)),
    }
}

// A copy of the type of the elements of an array, or of the objects that a pointer points to.
fn copy_element(alloc: Global, t: &CType) -> Result<Option<CType>, OutOfMemory>
    ensures { IfOk result (λ x. x ≡ spec.element t.now) }
{
    match t {
        CType::Array(element, _) => Ok(Some(copy_type(alloc, element.get())?)),
        CType::Ptr(pointed) => {
            if is_function(pointed.get()) {
                Ok(None)
            } else {
                Ok(Some(copy_type(alloc, pointed.get())?))
            }
        }
        CType::Void
        | CType::Bool
        | CType::Int(_)
        | CType::Struct(_)
        | CType::Union(_)
        | CType::Func(_)
        | CType::Opaque(_) => Ok(None),
    }
}

// `a [ k ]` of type `t`.
fn indexed(alloc: Global, t: CType, p: Place, a: TExpr, k: TExpr) -> Result<TExpr, OutOfMemory>
    ensures { IfOk result (λ x. x ≡ node_of (what.Index a k) t p) }
{
    match Boxed::new(alloc, a) {
        Err(e) => {
            drop(t);
            drop(k);
            Err(e)
        }
        Ok(a) => {
            let k = Boxed::new(alloc, k)?;
            Ok(node(What::Index(a, k), t, p))
        }
    }
}

/// `a [ k ]` (C11 6.5.2.1), where `a` is an array that stands as it is or a pointer, and `k` a value.
pub fn index(
    alloc: Global,
    walk: &mut Walk,
    p: Place,
    a: TExpr,
    k: TExpr,
) -> Result<Option<TExpr>, OutOfMemory>
    ensures { Gives (spec.index p a k walk.old) result walk.new }
{
    match copy_element(alloc, &a.ctype) {
        Err(e) => {
            drop(a);
            drop(k);
            Err(e)
        }
        Ok(None) => {
            drop(a);
            drop(k);
            Ok(ill_typed(walk, IllTyped::Operand, p.token))
        }
        Ok(Some(t)) => {
            if is_integer(&k.ctype) {
                Ok(Some(indexed(alloc, t, p, a, k)?))
            } else {
                drop(t);
                drop(a);
                drop(k);
                Ok(ill_typed(walk, IllTyped::Operand, p.token))
            }
        }
    }
}
