// Operators on values (C11 6.5.3 to 6.5.14).

ghost use Rattle.std.specs.Prelude.{◌≡◌, nat_eq, Ok};
ghost use Rattle.sc_world.specs.Eval as spec;
ghost use Rattle.sc_world.specs.View.{type};
ghost use Rattle.run_world.specs.Seen as seen;

use crate::conversions::has_sign;
use run_entry::integer_bits;
use run_world::{Ended, Here, Value, World};
use sc_tree::ctype::CType;
use sc_tree::op::{BinaryOp, UnaryOp};
use sc_types::{computed, of_one, takes, truth};
use sc_world::Reason;

// Why an operator that does not take two numbers sets a run aside.
fn not_taken(op: BinaryOp) -> Reason
    ensures { result ≡ spec.not_taken op }
{
    match op {
        BinaryOp::Div | BinaryOp::Rem => Reason::Divide,
        BinaryOp::Mul
        | BinaryOp::Add
        | BinaryOp::Sub
        | BinaryOp::ShiftLeft
        | BinaryOp::ShiftRight
        | BinaryOp::Less
        | BinaryOp::Greater
        | BinaryOp::LessEqual
        | BinaryOp::GreaterEqual
        | BinaryOp::Equal
        | BinaryOp::NotEqual
        | BinaryOp::BitAnd
        | BinaryOp::BitXor
        | BinaryOp::BitOr
        | BinaryOp::And
        | BinaryOp::Or => Reason::Shift,
    }
}

// An operator on two numbers of a type.
fn on_numbers(
    here: &Here,
    world: &World,
    op: BinaryOp,
    operands: &CType,
    result_type: &CType,
    a: u64,
    b: u64,
) -> Result<Value, Ended>
    ensures { seen.Does seen.cell (spec.on_numbers (seen.env here.now) op (type operands.now) (type result_type.now) a b (seen.world world.now))
        result (seen.world world.now) }
{
    let bits = integer_bits(here, operands);
    let sign = has_sign(operands);
    if !takes(op, bits, sign, a, b) {
        return Err(Ended::Aside(not_taken(op)));
    }
    Ok(Value::Number(
        integer_bits(here, result_type),
        computed(op, bits, sign, a, b),
    ))
}

// Whether two pointers are equal: both null, or to one location.
fn same_target(a: Option<u32>, b: Option<u32>) -> bool
    ensures { result ≡ nat_eq (seen.target a) (seen.target b) }
{
    match (a, b) {
        (None, None) => true,
        (Some(m), Some(n)) => m == n,
        (None, Some(_)) | (Some(_), None) => false,
    }
}

fn is_equality(op: BinaryOp) -> bool
    ensures { result ≡ spec.is_equality op }
{
    matches!(op, BinaryOp::Equal)
}

// Two pointers are compared as equal or not.
fn on_pointers(
    here: &Here,
    world: &World,
    op: BinaryOp,
    result_type: &CType,
    a: Option<u32>,
    b: Option<u32>,
) -> Value
    ensures { spec.on_pointers (seen.env here.now) op (type result_type.now) (seen.target a) (seen.target b) (seen.world world.now)
        ≡ (Ok (seen.cell result), seen.world world.now) }
{
    let same = same_target(a, b);
    let holds = if is_equality(op) { same } else { !same };
    Value::Number(integer_bits(here, result_type), truth(holds))
}

/// An operator on two values of one type; nothing of a number and a pointer. What the operator does not take sets the
/// run aside. The world stays.
pub fn operated(
    here: &Here,
    world: &World,
    op: BinaryOp,
    operands: &CType,
    result_type: &CType,
    a: Value,
    b: Value,
) -> Result<Value, Ended>
    ensures { seen.Does seen.cell (spec.operated (seen.env here.now) op (type operands.now) (type result_type.now) (seen.cell a) (seen.cell b)
        (seen.world world.now)) result (seen.world world.now) }
{
    match (a, b) {
        (Value::Number(_, m), Value::Number(_, n)) => on_numbers(
            here,
            world,
            op,
            operands,
            result_type,
            m,
            n,
        ),
        (Value::Pointer(p), Value::Pointer(q)) => Ok(on_pointers(
            here,
            world,
            op,
            result_type,
            p,
            q,
        )),
        (Value::Number(_, _), Value::Pointer(_) | Value::Nothing) => Ok(Value::Nothing),
        (Value::Pointer(_), Value::Number(_, _) | Value::Nothing) => Ok(Value::Nothing),
        (Value::Nothing, _) => Ok(Value::Nothing),
    }
}

/// `+`, `-` and `~`, on a promoted operand (C11 6.5.3.3).
pub fn signed_as(here: &Here, op: UnaryOp, t: &CType, value: Value) -> Value
    ensures { seen.cell result ≡ spec.signed_as (seen.env here.now) op (type t.now) (seen.cell value) }
{
    match value {
        Value::Number(_, n) => {
            let bits = integer_bits(here, t);
            Value::Number(bits, of_one(op, bits, n))
        }
        Value::Pointer(_) | Value::Nothing => value,
    }
}

/// The truth of a test, as 0 or 1 of that type.
pub fn truth_cell(here: &Here, t: &CType, holds: bool) -> Value
    ensures { seen.cell result ≡ spec.truth_cell (seen.env here.now) (type t.now) holds }
{
    Value::Number(integer_bits(here, t), truth(holds))
}

/// Whether it is `&&` or `||`.
pub fn is_logical(op: BinaryOp) -> bool
    ensures { result ≡ spec.is_logical op }
{
    matches!(op, BinaryOp::And | BinaryOp::Or)
}

/// Whether `&&` or `||` needs its right operand, by whether the left one is true (C11 6.5.13, 6.5.14).
pub fn needs_right(op: BinaryOp, left: bool) -> bool
    ensures { result ≡ spec.needs_right op left }
{
    match op {
        BinaryOp::Or => !left,
        BinaryOp::Mul
        | BinaryOp::Div
        | BinaryOp::Rem
        | BinaryOp::Add
        | BinaryOp::Sub
        | BinaryOp::ShiftLeft
        | BinaryOp::ShiftRight
        | BinaryOp::Less
        | BinaryOp::Greater
        | BinaryOp::LessEqual
        | BinaryOp::GreaterEqual
        | BinaryOp::Equal
        | BinaryOp::NotEqual
        | BinaryOp::BitAnd
        | BinaryOp::BitXor
        | BinaryOp::BitOr
        | BinaryOp::And => left,
    }
}
