// `++`, `--` (C11 6.5.2.4, 6.5.3.1) and assignment (C11 6.5.16).
//
// An operand that a branch does not use is dropped by a call of `drop`: each drop that is not written out costs the
// check of its function ten seconds, and several of them more than their sum.

ghost use Rattle.std.specs.Prelude.{◌≡◌, IfOk};
ghost use Rattle.sc_rules.specs.Gives.{Gives};
ghost use Rattle.sc_rules.specs.Conversions.{node as node_of, type_of};
ghost use Rattle.sc_typed.specs.declared.expr.What.TheVariants as what;
ghost use Rattle.sc_assignments.specs.Assignments as spec;

use sc_base::{Boxed, IllTyped, OutOfMemory, Unsupported};
use sc_manners::{Manner, both_integers, manner_of, some_pointer};
use sc_rules::{
    Walk, common_of, converted, decayed, holds_or, ill_typed, ill_typed_at, node, opaque_fault,
    opaque_kind, promote, to_kind, unsupported, unsupported_at,
};
use sc_tree::ctype::{CType, OpaqueKind, Widths};
use sc_tree::expr::Place;
use sc_tree::op::{AssignOp, BinaryOp, Step};
use sc_typed::{TExpr, What};
use sc_types::{copy_type, is_integer, is_lvalue, is_pointer, promoted_kind};
use std::alloc::Global;

/// The type in which an assignment works, and its right side converted to it.
#[derive(Drop)]
pub struct Working {
    pub ctype: CType,
    pub right: TExpr,
}

// Whether `++` and `--` take a type.
fn stepped(walk: &mut Walk, t: &CType, p: Place) -> bool
    ensures { spec.stepped t.now p walk.old ≡ (result, walk.new) }
{
    if is_pointer(t) {
        holds_or(walk, false, unsupported_at(Unsupported::Arith, p.token))
    } else {
        holds_or(
            walk,
            is_integer(t),
            ill_typed_at(IllTyped::Operand, p.token),
        )
    }
}

// Whether `++` and `--` take an expression that stands as it is.
fn may_step(walk: &mut Walk, a: &TExpr, p: Place) -> bool
    ensures { spec.may_step a.now p walk.old ≡ (result, walk.new) }
{
    let counts = stepped(walk, &a.ctype, p);
    let names = holds_or(walk, is_lvalue(a), ill_typed_at(IllTyped::Lvalue, p.token));
    counts && names
}

// The same, where an object of an opaque type is not taken.
fn steps_unless(walk: &mut Walk, opaque: Option<OpaqueKind>, a: &TExpr, p: Place) -> bool
    ensures { spec.steps_unless opaque a.now p walk.old ≡ (result, walk.new) }
{
    match opaque {
        None => may_step(walk, a, p),
        Some(kind) => holds_or(walk, false, unsupported_at(opaque_fault(kind), p.first)),
    }
}

// The operand of `++` or `--`, where it is taken.
fn step_operand(
    alloc: Global,
    walk: &mut Walk,
    p: Place,
    a: TExpr,
) -> Result<Option<TExpr>, OutOfMemory>
    ensures { Gives (spec.step_operand p a walk.old) result walk.new }
{
    let opaque = opaque_kind(&a.ctype);
    let a = decayed(alloc, a)?;
    if steps_unless(walk, opaque, &a, p) {
        Ok(Some(a))
    } else {
        drop(a);
        Ok(None)
    }
}

// An expression on the heap, and a copy of its type.
fn boxed_with_type(alloc: Global, a: TExpr) -> Result<(Boxed<TExpr>, CType), OutOfMemory>
    ensures { IfOk result (λ x. x ≡ (a, type_of a)) }
{
    match copy_type(alloc, &a.ctype) {
        Err(e) => {
            drop(a);
            Err(e)
        }
        Ok(t) => Ok((Boxed::new(alloc, a)?, t)),
    }
}

/// `++ a` or `-- a`, where `a` stands as it is.
pub fn pre_increment(
    alloc: Global,
    walk: &mut Walk,
    step: Step,
    p: Place,
    a: TExpr,
) -> Result<Option<TExpr>, OutOfMemory>
    ensures { Gives (spec.pre_increment step p a walk.old) result walk.new }
{
    match step_operand(alloc, walk, p, a)? {
        None => Ok(None),
        Some(a) => {
            let (a, t) = boxed_with_type(alloc, a)?;
            Ok(Some(node(What::PreInc(step, a), t, p)))
        }
    }
}

/// `a ++` or `a --`, where `a` stands as it is.
pub fn post_increment(
    alloc: Global,
    walk: &mut Walk,
    step: Step,
    p: Place,
    a: TExpr,
) -> Result<Option<TExpr>, OutOfMemory>
    ensures { Gives (spec.post_increment step p a walk.old) result walk.new }
{
    match step_operand(alloc, walk, p, a)? {
        None => Ok(None),
        Some(a) => {
            let (a, t) = boxed_with_type(alloc, a)?;
            Ok(Some(node(What::PostInc(step, a), t, p)))
        }
    }
}

// The operator that `+=` and its kin work with; none of `=`.
fn assigned_operator(op: AssignOp) -> Option<BinaryOp>
    ensures { result ≡ spec.assigned_operator op }
{
    match op {
        AssignOp::Set => None,
        AssignOp::Mul => Some(BinaryOp::Mul),
        AssignOp::Div => Some(BinaryOp::Div),
        AssignOp::Rem => Some(BinaryOp::Rem),
        AssignOp::Add => Some(BinaryOp::Add),
        AssignOp::Sub => Some(BinaryOp::Sub),
        AssignOp::ShiftLeft => Some(BinaryOp::ShiftLeft),
        AssignOp::ShiftRight => Some(BinaryOp::ShiftRight),
        AssignOp::BitAnd => Some(BinaryOp::BitAnd),
        AssignOp::BitXor => Some(BinaryOp::BitXor),
        AssignOp::BitOr => Some(BinaryOp::BitOr),
    }
}

fn is_additive(m: Manner) -> bool
    ensures { result ≡ spec.is_additive m }
{
    match m {
        Manner::Additive => true,
        Manner::Logical
        | Manner::Equality
        | Manner::Ordering
        | Manner::Shifting
        | Manner::Arithmetic => false,
    }
}

// A shift promotes each side alone, any other operator brings both to their common kind.
fn working_by(
    alloc: Global,
    m: Manner,
    w: Widths,
    a: &TExpr,
    b: TExpr,
) -> Result<Working, OutOfMemory>
    ensures { IfOk result (λ x. x ≡ spec.working_by m w a.now b) }
{
    match m {
        Manner::Shifting => {
            let kind = promoted_kind(&a.ctype);
            let right = promote(alloc, b)?;
            Ok(Working {
                ctype: CType::Int(kind),
                right,
            })
        }
        Manner::Logical
        | Manner::Equality
        | Manner::Ordering
        | Manner::Additive
        | Manner::Arithmetic => {
            let kind = common_of(w, a, &b);
            let right = to_kind(alloc, kind, b)?;
            Ok(Working {
                ctype: CType::Int(kind),
                right,
            })
        }
    }
}

// `a op= b`: how it works.
fn compound(
    alloc: Global,
    walk: &mut Walk,
    w: Widths,
    op: BinaryOp,
    p: Place,
    a: &TExpr,
    b: TExpr,
) -> Result<Option<Working>, OutOfMemory>
    ensures { Gives (spec.compound w op p a.now b walk.old) result walk.new }
{
    let m = manner_of(op);
    if is_additive(m) && some_pointer(a, &b) {
        drop(b);
        Ok(unsupported(walk, Unsupported::Arith, p.token))
    } else if both_integers(a, &b) {
        Ok(Some(working_by(alloc, m, w, a, b)?))
    } else {
        drop(b);
        Ok(ill_typed(walk, IllTyped::Operand, p.token))
    }
}

// `a = b`: it works in the type of `a`.
fn working_if(
    alloc: Global,
    right: Option<TExpr>,
    t: &CType,
) -> Result<Option<Working>, OutOfMemory>
    ensures { IfOk result (λ x. x ≡ spec.working_if right t.now) }
{
    match right {
        None => Ok(None),
        Some(right) => match copy_type(alloc, t) {
            Err(e) => {
                drop(right);
                Err(e)
            }
            Ok(ctype) => Ok(Some(Working { ctype, right })),
        },
    }
}

// How an assignment works, by the operator in it.
fn working_for(
    alloc: Global,
    walk: &mut Walk,
    w: Widths,
    op: Option<BinaryOp>,
    p: Place,
    a: &TExpr,
    b: TExpr,
) -> Result<Option<Working>, OutOfMemory>
    ensures { Gives (spec.working_for w op p a.now b walk.old) result walk.new }
{
    match op {
        None => {
            let right = converted(alloc, walk, w, IllTyped::Operand, p.token, &a.ctype, b)?;
            working_if(alloc, right, &a.ctype)
        }
        Some(op) => compound(alloc, walk, w, op, p, a, b),
    }
}

// The assignment to an object.
fn assign(
    alloc: Global,
    op: AssignOp,
    p: Place,
    a: TExpr,
    working: Working,
) -> Result<TExpr, OutOfMemory>
    ensures { IfOk result (λ x. x ≡ node_of (what.Assign op working.ctype a working.right) (type_of a) p) }
{
    match boxed_with_type(alloc, a) {
        Err(e) => {
            drop(working);
            Err(e)
        }
        Ok((a, t)) => {
            let Working { ctype, right } = working;
            let right = Boxed::new(alloc, right)?;
            Ok(node(What::Assign(op, ctype, a, right), t, p))
        }
    }
}

// The assignment, where its left side names an object and its right side converts.
fn assigned(
    alloc: Global,
    names: bool,
    op: AssignOp,
    p: Place,
    a: TExpr,
    right: Option<Working>,
) -> Result<Option<TExpr>, OutOfMemory>
    ensures { IfOk result (λ x. x ≡ spec.assigned names op p a right) }
{
    match right {
        None => {
            drop(a);
            Ok(None)
        }
        Some(working) => {
            if names {
                Ok(Some(assign(alloc, op, p, a, working)?))
            } else {
                drop(a);
                drop(working);
                Ok(None)
            }
        }
    }
}

// How an assignment works, where its right side has a type.
fn assign_value(
    alloc: Global,
    walk: &mut Walk,
    w: Widths,
    op: AssignOp,
    p: Place,
    a: &TExpr,
    b: Option<TExpr>,
) -> Result<Option<Working>, OutOfMemory>
    ensures { Gives (spec.assign_value w op p a.now b walk.old) result walk.new }
{
    match b {
        None => Ok(None),
        Some(b) => working_for(alloc, walk, w, assigned_operator(op), p, a, b),
    }
}

// An assignment to what is of no opaque type.
fn assignment_of(
    alloc: Global,
    walk: &mut Walk,
    w: Widths,
    op: AssignOp,
    p: Place,
    a: TExpr,
    b: Option<TExpr>,
) -> Result<Option<TExpr>, OutOfMemory>
    ensures { Gives (spec.assignment_of w op p a b walk.old) result walk.new }
{
    let names = holds_or(walk, is_lvalue(&a), ill_typed_at(IllTyped::Lvalue, p.token));
    match assign_value(alloc, walk, w, op, p, &a, b) {
        Err(e) => {
            drop(a);
            Err(e)
        }
        Ok(right) => assigned(alloc, names, op, p, a, right),
    }
}

// An object of an opaque type is not assigned to.
fn opaque_assigned(walk: &mut Walk, kind: OpaqueKind, p: Place, a: &TExpr) -> Option<TExpr>
    ensures { spec.opaque_assigned kind p a.now walk.old ≡ (result, walk.new) }
{
    holds_or(walk, is_lvalue(a), ill_typed_at(IllTyped::Lvalue, p.token));
    unsupported(walk, opaque_fault(kind), p.first)
}

/// `a = b` and its kin. `a` stands as it is; `b` is a value, `None` where a fault stands in it, which leaves the
/// rest to be judged.
pub fn assignment(
    alloc: Global,
    walk: &mut Walk,
    w: Widths,
    op: AssignOp,
    p: Place,
    a: TExpr,
    b: Option<TExpr>,
) -> Result<Option<TExpr>, OutOfMemory>
    ensures { Gives (spec.assignment w op p a b walk.old) result walk.new }
{
    match opaque_kind(&a.ctype) {
        None => match decayed(alloc, a) {
            Err(e) => {
                drop(b);
                Err(e)
            }
            Ok(a) => assignment_of(alloc, walk, w, op, p, a, b),
        },
        Some(kind) => {
            let refused = opaque_assigned(walk, kind, p, &a);
            drop(a);
            drop(b);
            Ok(refused)
        }
    }
}
