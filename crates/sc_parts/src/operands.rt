// Operators on operands in which a fault may stand (C11 6.5): a rule is judged where all its operands have types.
//
// An operand that a branch does not use is dropped by a call of `drop`: each drop that is not written out costs the
// check of its function ten seconds, and several of them more than their sum.

ghost use Rattle.std.specs.Prelude.{◌≡◌};
ghost use Rattle.sc_rules.specs.Conversions as conversions;
ghost use Rattle.sc_rules.specs.Gives.{Gives};
ghost use Rattle.sc_rules.specs.Walks.{given, both};
ghost use Rattle.sc_assignments.specs.Assignments as assignments;
ghost use Rattle.sc_operators.specs.Binary as binaries;
ghost use Rattle.sc_unary.specs.Members as members;
ghost use Rattle.sc_unary.specs.Operators as unaries;
ghost use Rattle.sc_calls.specs.Calls as calls;
ghost use Rattle.sc_parts.specs.Operands as spec;

use sc_assignments::{assignment, post_increment, pre_increment};
use sc_base::{NameId, OutOfMemory};
use sc_calls::callee;
use sc_names::size_now;
use sc_operators::{binary_operation, comma};
use sc_rules::{Walk, value};
use sc_tree::ctype::{CType, Widths};
use sc_tree::expr::Place;
use sc_tree::op::{AssignOp, BinaryOp, Step, UnaryOp};
use sc_typed::TExpr;
use sc_types::{is_aggregate, is_array};
use sc_unary::{cast, field, index, size_of_expression, size_of_type, unary};
use std::alloc::Global;

/// The value of an expression.
pub fn valued(
    alloc: Global,
    walk: &mut Walk,
    x: Option<TExpr>,
) -> Result<Option<TExpr>, OutOfMemory>
    ensures { Gives (given x conversions.value walk.old) result walk.new }
{
    match x {
        None => Ok(None),
        Some(x) => value(alloc, walk, x),
    }
}

/// What is called.
pub fn called(
    alloc: Global,
    walk: &mut Walk,
    x: Option<TExpr>,
) -> Result<Option<TExpr>, OutOfMemory>
    ensures { Gives (given x calls.callee walk.old) result walk.new }
{
    match x {
        None => Ok(None),
        Some(x) => callee(alloc, walk, x),
    }
}

/// `x , y`
pub fn comma_of(
    alloc: Global,
    walk: &mut Walk,
    p: Place,
    x: Option<TExpr>,
    y: Option<TExpr>,
) -> Result<Option<TExpr>, OutOfMemory>
    ensures { Gives (both x y (spec.comma_of p) walk.old) result walk.new }
{
    let Some(x) = x else {
        drop(y);
        return Ok(None);
    };
    let Some(y) = y else {
        drop(x);
        return Ok(None);
    };
    Ok(Some(comma(alloc, p, x, y)?))
}

/// `x = y` and its kin, where `y` is a value.
pub fn assignment_to(
    alloc: Global,
    walk: &mut Walk,
    w: Widths,
    op: AssignOp,
    p: Place,
    x: Option<TExpr>,
    y: Option<TExpr>,
) -> Result<Option<TExpr>, OutOfMemory>
    ensures { Gives (given x (spec.assigned w op p y) walk.old) result walk.new }
{
    match x {
        None => {
            drop(y);
            Ok(None)
        }
        Some(x) => assignment(alloc, walk, w, op, p, x, y),
    }
}

/// `x op y` of values.
pub fn binary_of(
    alloc: Global,
    walk: &mut Walk,
    w: Widths,
    op: BinaryOp,
    p: Place,
    x: Option<TExpr>,
    y: Option<TExpr>,
) -> Result<Option<TExpr>, OutOfMemory>
    ensures { Gives (both x y (binaries.binary w op p) walk.old) result walk.new }
{
    let Some(x) = x else {
        drop(y);
        return Ok(None);
    };
    let Some(y) = y else {
        drop(x);
        return Ok(None);
    };
    binary_operation(alloc, walk, w, op, p, x, y)
}

/// `( t ) x` of a value.
pub fn cast_of(
    alloc: Global,
    walk: &mut Walk,
    w: Widths,
    p: Place,
    t: Option<CType>,
    x: Option<TExpr>,
) -> Result<Option<TExpr>, OutOfMemory>
    ensures { Gives (both t x (unaries.cast w p) walk.old) result walk.new }
{
    let Some(t) = t else {
        drop(x);
        return Ok(None);
    };
    let Some(x) = x else {
        drop(t);
        return Ok(None);
    };
    cast(alloc, walk, w, p, t, x)
}

/// `op x`
pub fn unary_of(
    alloc: Global,
    walk: &mut Walk,
    op: UnaryOp,
    p: Place,
    x: Option<TExpr>,
) -> Result<Option<TExpr>, OutOfMemory>
    ensures { Gives (given x (unaries.unary op p) walk.old) result walk.new }
{
    match x {
        None => Ok(None),
        Some(x) => unary(alloc, walk, op, p, x),
    }
}

/// `++ x` and `-- x`
pub fn pre_increment_of(
    alloc: Global,
    walk: &mut Walk,
    step: Step,
    p: Place,
    x: Option<TExpr>,
) -> Result<Option<TExpr>, OutOfMemory>
    ensures { Gives (given x (assignments.pre_increment step p) walk.old) result walk.new }
{
    match x {
        None => Ok(None),
        Some(x) => pre_increment(alloc, walk, step, p, x),
    }
}

/// `x ++` and `x --`
pub fn post_increment_of(
    alloc: Global,
    walk: &mut Walk,
    step: Step,
    p: Place,
    x: Option<TExpr>,
) -> Result<Option<TExpr>, OutOfMemory>
    ensures { Gives (given x (assignments.post_increment step p) walk.old) result walk.new }
{
    match x {
        None => Ok(None),
        Some(x) => post_increment(alloc, walk, step, p, x),
    }
}

/// `sizeof x`
pub fn sizeof_of(
    alloc: Global,
    walk: &mut Walk,
    w: Widths,
    p: Place,
    x: Option<TExpr>,
) -> Result<Option<TExpr>, OutOfMemory>
    ensures { Gives (given x (spec.sizeof_value w p) walk.old) result walk.new }
{
    match x {
        None => Ok(None),
        Some(x) => {
            let size = size_now(walk, w, &x.ctype);
            size_of_expression(alloc, walk, w, size, p, x)
        }
    }
}

/// `sizeof ( t )`
pub fn sizeof_type_of(walk: &mut Walk, w: Widths, p: Place, t: Option<CType>) -> Option<TExpr>
    ensures { given t (spec.sizeof_type w p) walk.old ≡ (result, walk.new) }
{
    match t {
        None => None,
        Some(t) => {
            let size = size_now(walk, w, &t);
            size_of_type(walk, w, size, p)
        }
    }
}

/// What stands before `[`: an array stays one, anything else is a value.
pub fn indexed(
    alloc: Global,
    walk: &mut Walk,
    x: Option<TExpr>,
) -> Result<Option<TExpr>, OutOfMemory>
    ensures { Gives (given x spec.indexed walk.old) result walk.new }
{
    match x {
        None => Ok(None),
        Some(x) => {
            if is_array(&x.ctype) {
                Ok(Some(x))
            } else {
                value(alloc, walk, x)
            }
        }
    }
}

/// `x [ y ]`, where `y` is a value.
pub fn index_of(
    alloc: Global,
    walk: &mut Walk,
    p: Place,
    x: Option<TExpr>,
    y: Option<TExpr>,
) -> Result<Option<TExpr>, OutOfMemory>
    ensures { Gives (both x y (unaries.index p) walk.old) result walk.new }
{
    let Some(x) = x else {
        drop(y);
        return Ok(None);
    };
    let Some(y) = y else {
        drop(x);
        return Ok(None);
    };
    index(alloc, walk, p, x, y)
}

/// What stands before `.` or `->`: a struct before `.` stays one, anything else is a value.
pub fn accessed(
    alloc: Global,
    walk: &mut Walk,
    arrow: bool,
    x: Option<TExpr>,
) -> Result<Option<TExpr>, OutOfMemory>
    ensures { Gives (given x (spec.accessed arrow) walk.old) result walk.new }
{
    match x {
        None => Ok(None),
        Some(x) => {
            if !arrow && is_aggregate(&x.ctype) {
                Ok(Some(x))
            } else {
                value(alloc, walk, x)
            }
        }
    }
}

/// `x . name` and `x -> name`
pub fn field_of(
    alloc: Global,
    walk: &mut Walk,
    name: NameId,
    arrow: bool,
    p: Place,
    x: Option<TExpr>,
) -> Result<Option<TExpr>, OutOfMemory>
    ensures { Gives (given x (members.field name arrow p) walk.old) result walk.new }
{
    match x {
        None => Ok(None),
        Some(x) => field(alloc, walk, name, arrow, p, x),
    }
}
