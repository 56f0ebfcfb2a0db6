// Operators between two operands (C11 6.5.5 to 6.5.14), by the manner in which they treat them.
//
// An operand that a branch does not use is dropped by a call of `drop`: each drop that is not written out costs the
// check of its function ten seconds, and several of them more than their sum.

ghost use Rattle.std.specs.Prelude.{◌≡◌, IfOk};
ghost use Rattle.sc_tree.specs.declared.ctype.CType.TheVariants as ty;
ghost use Rattle.sc_typed.specs.declared.expr.What.TheVariants as what;
ghost use Rattle.sc_rules.specs.Gives.{Gives};
ghost use Rattle.sc_rules.specs.Conversions.{node, to, promote, type_of};
ghost use Rattle.sc_operators.specs.Binary as spec;

use sc_base::{Boxed, IllTyped, OutOfMemory, Unsupported};
use sc_manners::{Manner, both_integers, manner_of, some_pointer};
use sc_rules::{Walk, common_of, ill_typed, promote, to, to_kind, unsupported};
use sc_tree::ctype::{CType, IntKind, Widths};
use sc_tree::expr::Place;
use sc_tree::op::BinaryOp;
use sc_typed::{TExpr, What};
use sc_types::{is_null_constant, is_pointer, is_scalar, promoted_kind};
use std::alloc::Global;

// Both operands on the heap.
pub fn both_boxed(
    alloc: Global,
    a: TExpr,
    b: TExpr,
) -> Result<(Boxed<TExpr>, Boxed<TExpr>), OutOfMemory>
    ensures { IfOk result (λ x. x ≡ (a, b)) }
{
    match Boxed::new(alloc, a) {
        Err(e) => {
            drop(b);
            Err(e)
        }
        Ok(a) => Ok((a, Boxed::new(alloc, b)?)),
    }
}

// `a op b` of type `t`.
fn operation(
    alloc: Global,
    op: BinaryOp,
    a: TExpr,
    b: TExpr,
    t: CType,
    p: Place,
) -> Result<TExpr, OutOfMemory>
    ensures { IfOk result (λ x. x ≡ node (what.Binary op a b) t p) }
{
    let (a, b) = both_boxed(alloc, a, b)?;
    Ok(TExpr {
        what: What::Binary(op, a, b),
        ctype: t,
        place: p,
    })
}

// Both operands in one kind.
fn both_to_kind(
    alloc: Global,
    kind: IntKind,
    a: TExpr,
    b: TExpr,
) -> Result<(TExpr, TExpr), OutOfMemory>
    ensures { IfOk result (λ x. x ≡ (to (ty.Int kind) a, to (ty.Int kind) b)) }
{
    match to_kind(alloc, kind, a) {
        Err(e) => {
            drop(b);
            Err(e)
        }
        Ok(a) => match to_kind(alloc, kind, b) {
            Err(e) => {
                drop(a);
                Err(e)
            }
            Ok(b) => Ok((a, b)),
        },
    }
}

// `a op b` of type `t`, with both operands in one kind.
fn operation_in(
    alloc: Global,
    kind: IntKind,
    op: BinaryOp,
    a: TExpr,
    b: TExpr,
    t: CType,
    p: Place,
) -> Result<TExpr, OutOfMemory>
    ensures { IfOk result (λ x. x ≡ node (what.Binary op (to (ty.Int kind) a) (to (ty.Int kind) b)) t p) }
{
    let (a, b) = both_to_kind(alloc, kind, a, b)?;
    operation(alloc, op, a, b, t, p)
}

// Both operands in their common kind, which is the kind of the result.
fn on_common(
    alloc: Global,
    walk: &mut Walk,
    w: Widths,
    op: BinaryOp,
    p: Place,
    a: TExpr,
    b: TExpr,
) -> Result<Option<TExpr>, OutOfMemory>
    ensures { Gives (spec.on_common w op p a b walk.old) result walk.new }
{
    if both_integers(&a, &b) {
        let kind = common_of(w, &a, &b);
        let t = CType::Int(kind);
        Ok(Some(operation_in(alloc, kind, op, a, b, t, p)?))
    } else {
        drop(a);
        drop(b);
        Ok(ill_typed(walk, IllTyped::Operand, p.token))
    }
}

// Both operands in their common kind, and an `int` as the result.
fn compared(
    alloc: Global,
    walk: &mut Walk,
    w: Widths,
    op: BinaryOp,
    p: Place,
    a: TExpr,
    b: TExpr,
) -> Result<Option<TExpr>, OutOfMemory>
    ensures { Gives (spec.compared w op p a b walk.old) result walk.new }
{
    if both_integers(&a, &b) {
        let kind = common_of(w, &a, &b);
        let t = CType::Int(IntKind::Int);
        Ok(Some(operation_in(alloc, kind, op, a, b, t, p)?))
    } else {
        drop(a);
        drop(b);
        Ok(ill_typed(walk, IllTyped::Operand, p.token))
    }
}

// `+` and `-`: arithmetic on pointers is not taken.
fn additive(
    alloc: Global,
    walk: &mut Walk,
    w: Widths,
    op: BinaryOp,
    p: Place,
    a: TExpr,
    b: TExpr,
) -> Result<Option<TExpr>, OutOfMemory>
    ensures { Gives (spec.additive w op p a b walk.old) result walk.new }
{
    if some_pointer(&a, &b) {
        drop(a);
        drop(b);
        Ok(unsupported(walk, Unsupported::Arith, p.token))
    } else {
        on_common(alloc, walk, w, op, p, a, b)
    }
}

// `<` and its kin: the order of pointers is not taken.
fn ordering(
    alloc: Global,
    walk: &mut Walk,
    w: Widths,
    op: BinaryOp,
    p: Place,
    a: TExpr,
    b: TExpr,
) -> Result<Option<TExpr>, OutOfMemory>
    ensures { Gives (spec.ordering w op p a b walk.old) result walk.new }
{
    if some_pointer(&a, &b) {
        drop(a);
        drop(b);
        Ok(unsupported(walk, Unsupported::Order, p.token))
    } else {
        compared(alloc, walk, w, op, p, a, b)
    }
}

// Whether an operand may be compared with a pointer.
fn is_comparable(w: Widths, e: &TExpr) -> bool
    ensures { result ≡ spec.is_comparable w e.now }
{
    is_pointer(&e.ctype) || is_null_constant(w, e)
}

// Whether the left operand goes to the right one's type.
fn left_follows(w: Widths, a: &TExpr, b: &TExpr) -> bool
    ensures { result ≡ spec.left_follows w a.now b.now }
{
    !is_pointer(&a.ctype) || (is_null_constant(w, a) && !is_null_constant(w, b))
}

// An operand in the type of another one, and that one.
fn to_type_of(alloc: Global, goes: TExpr, stays: TExpr) -> Result<(TExpr, TExpr), OutOfMemory>
    ensures { IfOk result (λ x. x ≡ (to (type_of stays) goes, stays)) }
{
    match to(alloc, &stays.ctype, goes) {
        Err(e) => {
            drop(stays);
            Err(e)
        }
        Ok(gone) => Ok((gone, stays)),
    }
}

// Two pointers, or a pointer and a null constant, compared: one goes to the other's type.
fn pointers_compared(
    alloc: Global,
    w: Widths,
    op: BinaryOp,
    p: Place,
    a: TExpr,
    b: TExpr,
) -> Result<TExpr, OutOfMemory>
    ensures { IfOk result (λ x. x ≡ spec.pointers_compared w op p a b) }
{
    let int = CType::Int(IntKind::Int);
    if left_follows(w, &a, &b) {
        let (a, b) = to_type_of(alloc, a, b)?;
        operation(alloc, op, a, b, int, p)
    } else {
        let (b, a) = to_type_of(alloc, b, a)?;
        operation(alloc, op, a, b, int, p)
    }
}

// `==` and `!=` with a pointer.
fn pointer_equality(
    alloc: Global,
    walk: &mut Walk,
    w: Widths,
    op: BinaryOp,
    p: Place,
    a: TExpr,
    b: TExpr,
) -> Result<Option<TExpr>, OutOfMemory>
    ensures { Gives (spec.pointer_equality w op p a b walk.old) result walk.new }
{
    if is_comparable(w, &a) && is_comparable(w, &b) {
        Ok(Some(pointers_compared(alloc, w, op, p, a, b)?))
    } else {
        drop(a);
        drop(b);
        Ok(ill_typed(walk, IllTyped::Operand, p.token))
    }
}

// `==` and `!=`.
fn equality(
    alloc: Global,
    walk: &mut Walk,
    w: Widths,
    op: BinaryOp,
    p: Place,
    a: TExpr,
    b: TExpr,
) -> Result<Option<TExpr>, OutOfMemory>
    ensures { Gives (spec.equality w op p a b walk.old) result walk.new }
{
    if some_pointer(&a, &b) {
        pointer_equality(alloc, walk, w, op, p, a, b)
    } else {
        compared(alloc, walk, w, op, p, a, b)
    }
}

// Both operands promoted.
fn both_promoted(alloc: Global, a: TExpr, b: TExpr) -> Result<(TExpr, TExpr), OutOfMemory>
    ensures { IfOk result (λ x. x ≡ (promote a, promote b)) }
{
    match promote(alloc, a) {
        Err(e) => {
            drop(b);
            Err(e)
        }
        Ok(a) => match promote(alloc, b) {
            Err(e) => {
                drop(a);
                Err(e)
            }
            Ok(b) => Ok((a, b)),
        },
    }
}

// `<<` and `>>`: each operand promoted, and the left one's kind as that of the result.
fn shifting(
    alloc: Global,
    walk: &mut Walk,
    op: BinaryOp,
    p: Place,
    a: TExpr,
    b: TExpr,
) -> Result<Option<TExpr>, OutOfMemory>
    ensures { Gives (spec.shifting op p a b walk.old) result walk.new }
{
    if both_integers(&a, &b) {
        let t = CType::Int(promoted_kind(&a.ctype));
        let (a, b) = both_promoted(alloc, a, b)?;
        Ok(Some(operation(alloc, op, a, b, t, p)?))
    } else {
        drop(a);
        drop(b);
        Ok(ill_typed(walk, IllTyped::Operand, p.token))
    }
}

// `&&` and `||`: both operands compared with 0 or null.
fn logical(
    alloc: Global,
    walk: &mut Walk,
    op: BinaryOp,
    p: Place,
    a: TExpr,
    b: TExpr,
) -> Result<Option<TExpr>, OutOfMemory>
    ensures { Gives (spec.logical op p a b walk.old) result walk.new }
{
    if is_scalar(&a.ctype) && is_scalar(&b.ctype) {
        Ok(Some(operation(alloc, op, a, b, CType::Int(IntKind::Int), p)?))
    } else {
        drop(a);
        drop(b);
        Ok(ill_typed(walk, IllTyped::Operand, p.token))
    }
}

/// `a op b` of two values: each converted as the operator asks, or the fault of operands that it does not take.
pub fn binary_operation(
    alloc: Global,
    walk: &mut Walk,
    w: Widths,
    op: BinaryOp,
    p: Place,
    a: TExpr,
    b: TExpr,
) -> Result<Option<TExpr>, OutOfMemory>
    ensures { Gives (spec.binary w op p a b walk.old) result walk.new }
{
    match manner_of(op) {
        Manner::Logical => logical(alloc, walk, op, p, a, b),
        Manner::Equality => equality(alloc, walk, w, op, p, a, b),
        Manner::Ordering => ordering(alloc, walk, w, op, p, a, b),
        Manner::Shifting => shifting(alloc, walk, op, p, a, b),
        Manner::Additive => additive(alloc, walk, w, op, p, a, b),
        Manner::Arithmetic => on_common(alloc, walk, w, op, p, a, b),
    }
}
