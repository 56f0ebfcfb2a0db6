// Integer constant expressions (C11 6.6), null pointer constants (C11 6.3.2.3), lvalues (C11 6.3.2.1)
// and the types of constants (C11 6.4.4.1).

ghost use Rattle.std.specs.Prelude.{◌≡◌, ◌<◌, ◌≤◌, ◌^◌, IfSome, IsTrue, nat_eq, not, ◌&&◌};
ghost use Rattle.sc_tree.specs.declared.op.BinaryOp.TheVariants as op;
ghost use Rattle.sc_typed.specs.declared.expr.TExpr.{out-TExpr};
ghost use Rattle.sc_typed.specs.Constants as spec;
ghost use Rattle.sc_typed.specs.Types as types;

use crate::arith::{computed, converted, fits, number, of_one, takes, truth, wrapped};
use crate::kinds::{is_signed, kind_bits, rank};
use crate::types::{has_sign, is_function, is_integer, is_void_pointer, value_bits};
use sc_tree::ctype::{CType, IntKind, Widths};
use sc_tree::op::{BinaryOp, UnaryOp};
use sc_typed::{Program, TExpr, What};

// What folding makes of an expression: whether all of it is built as a constant is, and then its bits,
// none where a division or a shift in it has no value.
#[derive(Clone, Copy)]
struct Outcome {
    form: bool,
    value: Option<u64>,
}

// A number at a width, if the width holds it.
fn at_width(bits: u32, value: Option<u64>) -> Option<u64>
    requires { bits ≤ 64 }
    ensures value { result ≡ spec.at_width bits value }
    ensures bound { IfSome result (λ n. n < 2 ^ bits) }
{
    match value {
        None => None,
        Some(n) => { if fits(bits, n) { Some(n) } else { None } }
    }
}

// What is made of an expression of type `t` that has or has not the form of a constant.
fn if_form(w: Widths, form: bool, t: &CType, value: Option<u64>) -> Outcome
    ensures value { spec.if_form w form t.now value ≡ spec.folding t.now result.form result.value }
    ensures bound { IfSome result.value (λ n. n < 2 ^ types.value_bits w t.now) }
{
    if form {
        Outcome {
            form,
            value: at_width(value_bits(w, t), value),
        }
    } else {
        Outcome { form, value: None }
    }
}

// Whether an expression of type `t` is an operand of a constant.
fn is_operand(t: &CType, e: Outcome) -> bool
    ensures { result ≡ spec.is_operand (spec.folding t.now e.form e.value) }
{
    e.form && is_integer(t)
}

// An operator on two values of type `t`, the right one maybe of another type.
fn applied(w: Widths, op: BinaryOp, t: &CType, a: Option<u64>, b: Option<u64>) -> Option<u64>
    requires integer { IsTrue (types.is_integer t.now) }
    requires bound { IfSome a (λ n. n < 2 ^ types.value_bits w t.now) }
    ensures { result ≡ spec.applied w op t.now a b }
{
    match (a, b) {
        (None, _) | (Some(_), None) => None,
        (Some(m), Some(n)) => {
            let bits = value_bits(w, t);
            let sign = has_sign(t);
            if fits(bits, n) && takes(op, bits, sign, m, n) {
                Some(computed(op, bits, sign, m, n))
            } else {
                None
            }
        }
    }
}

// The truth of a value.
fn truth_if(a: Option<u64>) -> Option<u64>
    ensures { result ≡ spec.truth_if a }
{
    match a {
        None => None,
        Some(n) => Some(truth(n != 0)),
    }
}

fn and_then(a: Option<u64>, b: Option<u64>) -> Option<u64>
    ensures { result ≡ spec.and_then a b }
{
    match a {
        None => None,
        Some(0) => Some(0),
        Some(_) => truth_if(b),
    }
}

fn or_else(a: Option<u64>, b: Option<u64>) -> Option<u64>
    ensures { result ≡ spec.or_else a b }
{
    match a {
        None => None,
        Some(0) => truth_if(b),
        Some(_) => Some(1),
    }
}

// An operator on two values; `&&` and `||` look at the right one only where they need it.
fn binary_value(w: Widths, op: BinaryOp, t: &CType, a: Option<u64>, b: Option<u64>) -> Option<u64>
    requires integer { IsTrue (types.is_integer t.now) }
    requires bound { IfSome a (λ n. n < 2 ^ types.value_bits w t.now) }
    ensures { result ≡ spec.binary_value w op t.now a b }
{
    match op {
        BinaryOp::And => and_then(a, b),
        BinaryOp::Or => or_else(a, b),
        BinaryOp::BitOr
        | BinaryOp::BitXor
        | BinaryOp::BitAnd
        | BinaryOp::Equal
        | BinaryOp::NotEqual
        | BinaryOp::Less
        | BinaryOp::Greater
        | BinaryOp::LessEqual
        | BinaryOp::GreaterEqual
        | BinaryOp::ShiftLeft
        | BinaryOp::ShiftRight
        | BinaryOp::Add
        | BinaryOp::Sub
        | BinaryOp::Mul
        | BinaryOp::Div
        | BinaryOp::Rem => applied(w, op, t, a, b),
    }
}

// The value of `a ? b : c`.
fn chosen_value(a: Option<u64>, b: Option<u64>, c: Option<u64>) -> Option<u64>
    ensures { result ≡ spec.chosen_value a b c }
{
    match a {
        None => None,
        Some(0) => c,
        Some(_) => b,
    }
}

fn unary_value(w: Widths, op: UnaryOp, t: &CType, a: Option<u64>) -> Option<u64>
    requires integer { IsTrue (types.is_integer t.now) }
    requires bound { IfSome a (λ n. n < 2 ^ types.value_bits w t.now) }
    ensures { result ≡ spec.unary_value w op t.now a }
{
    match a {
        None => None,
        Some(n) => Some(of_one(op, value_bits(w, t), n)),
    }
}

fn converted_value(w: Widths, from: &CType, to: &CType, a: Option<u64>) -> Option<u64>
    ensures { result ≡ spec.converted_value w from.now to.now a }
{
    match a {
        None => None,
        Some(n) => Some(converted(w, from, to, n)),
    }
}

// Whether an operator before its operand stands in constants.
fn is_constant_operator(op: UnaryOp) -> bool
    ensures { result ≡ spec.is_constant_operator op }
{
    match op {
        UnaryOp::Address | UnaryOp::Deref => false,
        UnaryOp::Plus | UnaryOp::Minus | UnaryOp::Complement | UnaryOp::Not => true,
    }
}

// A conversion of `e`, which has type `from`, to type `to`.
fn folded_conversion(w: Widths, from: &CType, e: Outcome, to: &CType) -> Outcome
    ensures value { spec.folded_conversion w (spec.folding from.now e.form e.value) to.now
        ≡ spec.folding to.now result.form result.value }
    ensures bound { IfSome result.value (λ n. n < 2 ^ types.value_bits w to.now) }
{
    let form = is_operand(from, e) && is_integer(to);
    if_form(w, form, to, converted_value(w, from, to, e.value))
}

// `op a` of type `t`, where `a` has type `from`.
fn folded_unary(w: Widths, op: UnaryOp, from: &CType, a: Outcome, t: &CType) -> Outcome
    requires { IfSome a.value (λ n. n < 2 ^ types.value_bits w from.now) }
    ensures value { spec.folded_unary w op (spec.folding from.now a.form a.value) t.now
        ≡ spec.folding t.now result.form result.value }
    ensures bound { IfSome result.value (λ n. n < 2 ^ types.value_bits w t.now) }
{
    if is_constant_operator(op) && is_operand(from, a) {
        if_form(w, true, t, unary_value(w, op, from, a.value))
    } else {
        if_form(w, false, t, None)
    }
}

// An operand of an operator, with its type.
#[derive(Clone, Copy)]
struct Side<'a> {
    ctype: &'a CType,
    outcome: Outcome,
}

// `a op b` of type `t`.
fn folded_binary(w: Widths, op: BinaryOp, a: Side, b: Side, t: &CType) -> Outcome
    requires { IfSome a.outcome.value (λ n. n < 2 ^ types.value_bits w a.ctype.now) }
    ensures value { spec.folded_binary w op
        (spec.folding a.entry.ctype.now a.entry.outcome.form a.entry.outcome.value)
        (spec.folding b.entry.ctype.now b.entry.outcome.form b.entry.outcome.value) t.now
        ≡ spec.folding t.now result.form result.value }
    ensures bound { IfSome result.value (λ n. n < 2 ^ types.value_bits w t.now) }
{
    if is_operand(a.ctype, a.outcome) && is_operand(b.ctype, b.outcome) {
        if_form(
            w,
            true,
            t,
            binary_value(w, op, a.ctype, a.outcome.value, b.outcome.value),
        )
    } else {
        if_form(w, false, t, None)
    }
}

// `a ? b : c` of type `t`.
fn folded_choice(w: Widths, a: Side, b: Side, c: Side, t: &CType) -> Outcome
    ensures value { spec.folded_choice w
        (spec.folding a.entry.ctype.now a.entry.outcome.form a.entry.outcome.value)
        (spec.folding b.entry.ctype.now b.entry.outcome.form b.entry.outcome.value)
        (spec.folding c.entry.ctype.now c.entry.outcome.form c.entry.outcome.value) t.now
        ≡ spec.folding t.now result.form result.value }
    ensures bound { IfSome result.value (λ n. n < 2 ^ types.value_bits w t.now) }
{
    let form = is_operand(a.ctype, a.outcome)
        && (is_operand(b.ctype, b.outcome) && is_operand(c.ctype, c.outcome));
    let value = chosen_value(a.outcome.value, b.outcome.value, c.outcome.value);
    if_form(w, form, t, value)
}

// What folding makes of an expression.
fn folded(w: Widths, e: &TExpr) -> Outcome
    ensures value { spec.folded w e.now ≡ spec.folding (out-TExpr e.now).ctype result.form result.value }
    ensures bound { IfSome result.value (λ n. n < 2 ^ types.value_bits w (out-TExpr e.now).ctype) }
{
    let t = &e.ctype;
    match &e.what {
        What::Cond(a, b, c) => {
            let a = a.get();
            let b = b.get();
            let c = c.get();
            let x = folded(w, a);
            let y = folded(w, b);
            let z = folded(w, c);
            let first = Side {
                ctype: &a.ctype,
                outcome: x,
            };
            let second = Side {
                ctype: &b.ctype,
                outcome: y,
            };
            let third = Side {
                ctype: &c.ctype,
                outcome: z,
            };
            folded_choice(w, first, second, third, t)
        }
        What::Binary(op, a, b) => {
            let a = a.get();
            let b = b.get();
            let x = folded(w, a);
            let y = folded(w, b);
            let left = Side {
                ctype: &a.ctype,
                outcome: x,
            };
            let right = Side {
                ctype: &b.ctype,
                outcome: y,
            };
            folded_binary(w, *op, left, right, t)
        }
        What::Unary(op, a) => {
            let a = a.get();
            let x = folded(w, a);
            folded_unary(w, *op, &a.ctype, x, t)
        }
        What::Cast(a) | What::Convert(a) => {
            let a = a.get();
            let x = folded(w, a);
            folded_conversion(w, &a.ctype, x, t)
        }
        What::SizeofExpr(_, n) | What::SizeofType(n) | What::Int(n) => {
            if_form(w, true, t, Some(*n))
        }
        What::Char(c) => if_form(w, true, t, Some(wrapped(32, i128::from(*c)))),
        What::Comma(_, _)
        | What::Assign(_, _, _, _)
        | What::PreInc(_, _)
        | What::PostInc(_, _)
        | What::Index(_, _)
        | What::Call(_, _)
        | What::Field(_, _, _, _)
        | What::Param(_)
        | What::Local(_)
        | What::Global(_)
        | What::Function(_, _)
        | What::Str(_)
        | What::Temp(_)
        | What::TempPlace(_) => if_form(w, false, t, None),
    }
}

/// The bits of an integer constant expression at the width of its type; `None` exactly where the
/// expression is none (C11 6.6). `&&`, `||` and `? :` evaluate only what they need, but all of the
/// expression has the form of a constant.
pub fn constant_bits(w: Widths, e: &TExpr) -> Option<u64>
    ensures value { result ≡ spec.constant_bits w e.now }
    ensures bound { IfSome result (λ n. n < 2 ^ types.value_bits w (out-TExpr e.now).ctype) }
{
    let outcome = folded(w, e);
    if is_operand(&e.ctype, outcome) {
        outcome.value
    } else {
        None
    }
}

/// The number of an integer constant expression; `None` exactly where the expression is none (C11 6.6).
pub fn constant(program: &Program, e: &TExpr) -> Option<i128>
    ensures { result ≡ spec.constant program.now.widths e.now }
{
    match constant_bits(program.widths, e) {
        None => None,
        Some(n) => Some(number(program.widths, &e.ctype, n)),
    }
}

/// Whether an expression is an integer constant expression of value 0, which converts to any pointer.
pub fn is_null_integer(w: Widths, e: &TExpr) -> bool
    ensures { result ≡ spec.is_null_integer w e.now }
{
    constant_bits(w, e) == Some(0)
}

// Whether an expression is an integer constant expression of value 0, cast to `void *`.
fn casts_null(w: Widths, e: &TExpr) -> bool
    ensures { result ≡ spec.casts_null w (out-TExpr e.now).ctype (spec.form_of e.now) }
{
    match &e.what {
        What::Cast(a) => is_void_pointer(&e.ctype) && is_null_integer(w, a.get()),
        _ => false,
    }
}

/// Whether an expression is a null pointer constant (C11 6.3.2.3, 3).
pub fn is_null_constant(w: Widths, e: &TExpr) -> bool
    ensures { result ≡ spec.is_null_constant w e.now }
{
    is_null_integer(w, e) || casts_null(w, e)
}

/// Whether an expression names an object (C11 6.3.2.1).
pub fn is_lvalue(e: &TExpr) -> bool
    ensures { result ≡ spec.is_lvalue e.now }
{
    match &e.what {
        What::Unary(UnaryOp::Deref, _) => !is_function(&e.ctype),
        What::Field(a, _, _, arrow) => *arrow || is_lvalue(a.get()),
        What::Index(_, _)
        | What::Param(_)
        | What::Local(_)
        | What::Global(_)
        | What::Str(_)
        | What::TempPlace(_) => true,
        What::Comma(_, _)
        | What::Assign(_, _, _, _)
        | What::Cond(_, _, _)
        | What::Binary(_, _, _)
        | What::Cast(_)
        | What::Unary(_, _)
        | What::PreInc(_, _)
        | What::PostInc(_, _)
        | What::SizeofExpr(_, _)
        | What::SizeofType(_)
        | What::Call(_, _)
        | What::Function(_, _)
        | What::Int(_)
        | What::Char(_)
        | What::Convert(_)
        | What::Temp(_) => false,
    }
}

// Whether a kind holds a number.
fn holds(w: Widths, n: u64, kind: IntKind) -> bool
    ensures { result ≡ spec.holds w n kind }
{
    let bits = kind_bits(w, kind);
    fits(if is_signed(kind) { bits - 1 } else { bits }, n)
}

// Whether a kind stands in the list of a constant that has `longs` letters `l`.
fn is_listed(decimal: bool, unsigned: bool, longs: u32, kind: IntKind) -> bool
    ensures { result ≡ spec.is_listed decimal unsigned longs kind }
{
    longs < rank(kind)
        && if unsigned {
            !is_signed(kind)
        } else {
            is_signed(kind) || !decimal
        }
}

/// The kind of an integer constant (C11 6.4.4.1): `decimal` where it is written so, `unsigned` where it
/// has a `u`, `longs` the number of its letters `l`. `None` exactly where no kind of its list holds it.
pub fn constant_kind(
    w: Widths,
    decimal: bool,
    unsigned: bool,
    longs: u32,
    value: u64,
) -> Option<IntKind>
    ensures { result ≡ spec.constant_kind w decimal unsigned longs value }
{
    let kinds = [
        IntKind::Int,
        IntKind::UInt,
        IntKind::Long,
        IntKind::ULong,
        IntKind::LongLong,
        IntKind::ULongLong,
    ];
    kinds.iter().copied().find(|kind| is_listed(decimal, unsigned, longs, *kind)
        && holds(w, value, *kind))
}
