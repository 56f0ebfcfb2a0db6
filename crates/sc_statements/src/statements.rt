// Rules of statements (C11 6.8) on expressions that have their types.

ghost use Rattle.std.specs.Prelude.{◌≡◌, IfOk};
ghost use Rattle.std.specs.Option.{option_copied};
ghost use Rattle.sc_rules.specs.Gives.{Gives};
ghost use Rattle.sc_statements.specs.Statements as spec;

use crate::forms::made;
use sc_base::{Boxed, IllTyped, OutOfMemory, Pos};
use sc_rules::{Walk, converted, ill_typed, promote};
use sc_tree::ctype::{CType, Widths};
use sc_typed::{TExpr, TStmt};
use sc_types::{constant_bits, converted as number_converted, is_integer, is_scalar, is_void};
use std::alloc::Global;

/// The value of a condition, whose keyword stands at that place. It takes no memory.
pub fn scalar(walk: &mut Walk, at: Pos, e: TExpr) -> Option<TExpr>
    ensures { spec.scalar at e walk.old ≡ (result, walk.new) }
{
    if is_scalar(&e.ctype) {
        Some(e)
    } else {
        ill_typed(walk, IllTyped::Operand, at)
    }
}

/// The number of a `switch`, whose keyword stands at that place, promoted (C11 6.8.4.2).
pub fn switched(
    alloc: Global,
    walk: &mut Walk,
    at: Pos,
    e: TExpr,
) -> Result<Option<TExpr>, OutOfMemory>
    ensures { Gives (spec.switched at e walk.old) result walk.new }
{
    if is_integer(&e.ctype) {
        Ok(Some(promote(alloc, e)?))
    } else {
        drop(e);
        Ok(ill_typed(walk, IllTyped::Operand, at))
    }
}

/// `case e :` with the number of `e`, if that is a constant, in a `switch` over a number of that type; `None` where the
/// expression of the `switch` has a fault.
pub fn case_number(
    alloc: Global,
    walk: &mut Walk,
    w: Widths,
    at: Pos,
    t: Option<&CType>,
    e: TExpr,
    n: Option<u64>,
) -> Result<Option<Boxed<TStmt>>, OutOfMemory>
    ensures { Gives (spec.case_number w at (option_copied t.entry) e n walk.old) result walk.new }
{
    match n {
        None => {
            drop(e);
            Ok(ill_typed(walk, IllTyped::Constant, at))
        }
        Some(n) => match t {
            None => {
                drop(e);
                Ok(None)
            }
            Some(t) => {
                let n = number_converted(w, &e.ctype, t, n);
                made(alloc, TStmt::Case(n, e, at))
            }
        },
    }
}

/// `case e :` in a `switch` over a number of that type; `None` where the expression of the `switch` has a fault. An
/// expression that is no constant is a fault at that place.
pub fn case_of(
    alloc: Global,
    walk: &mut Walk,
    w: Widths,
    at: Pos,
    t: Option<&CType>,
    e: TExpr,
) -> Result<Option<Boxed<TStmt>>, OutOfMemory>
    ensures { Gives (spec.case_of w at (option_copied t.entry) e walk.old) result walk.new }
{
    let n = constant_bits(w, &e);
    case_number(alloc, walk, w, at, t, e, n)
}

/// A `break` or `continue` at that place, where it stands in what it leaves (C11 6.8.6). It takes no memory.
pub fn jump(walk: &mut Walk, allowed: bool, s: Boxed<TStmt>, at: Pos) -> Option<Boxed<TStmt>>
    ensures { spec.jump allowed s at walk.old ≡ (result, walk.new) }
{
    if allowed {
        Some(s)
    } else {
        ill_typed(walk, IllTyped::Constant, at)
    }
}

fn returned(alloc: Global, at: Pos, e: Option<TExpr>) -> Result<Option<Boxed<TStmt>>, OutOfMemory>
    ensures { IfOk result (λ x. x ≡ spec.returned at e) }
{
    match e {
        None => Ok(None),
        Some(e) => made(alloc, TStmt::Return(Some(e), at)),
    }
}

// `return e ;` in a function without a result.
fn return_void(
    alloc: Global,
    walk: &mut Walk,
    at: Pos,
    e: TExpr,
) -> Result<Option<Boxed<TStmt>>, OutOfMemory>
    ensures { Gives (spec.return_void at e walk.old) result walk.new }
{
    if is_void(&e.ctype) {
        made(alloc, TStmt::Return(Some(e), at))
    } else {
        Ok(ill_typed(walk, IllTyped::Return, at))
    }
}

/// `return e ;` in a function with that result, if it is known (C11 6.8.6.4).
pub fn return_as(
    alloc: Global,
    walk: &mut Walk,
    w: Widths,
    at: Pos,
    t: Option<&CType>,
    e: TExpr,
) -> Result<Option<Boxed<TStmt>>, OutOfMemory>
    ensures { Gives (spec.return_as w at (option_copied t.entry) e walk.old) result walk.new }
{
    match t {
        None => {
            drop(e);
            Ok(None)
        }
        Some(t) => {
            if is_void(t) {
                return_void(alloc, walk, at, e)
            } else {
                let e = converted(alloc, walk, w, IllTyped::Return, at, t, e)?;
                returned(alloc, at, e)
            }
        }
    }
}
