// Which types the parts of an expression have.

ghost use Rattle.std.specs.Prelude.{◌≡◌};
ghost use Rattle.sc_world.specs.Tree as tree;
ghost use Rattle.sc_world.specs.View.{type};
ghost use Rattle.run_laws.specs.Fits as laws;
ghost use Rattle.run_values.specs.Seen.{want_of};
ghost use Rattle.expr_fits.specs.Here as here;

use run_values::{Want, is_array, is_logical};
use run_world::same_type;
use sc_gather::{is_integer, is_pointer, is_void};
use sc_tree::ctype::CType;
use sc_tree::op::{BinaryOp, UnaryOp};

/// Whether only the value is wanted.
pub fn is_read(want: Want) -> bool
    ensures { result ≡ here.is_read (want_of want) }
{
    matches!(want, Want::Value)
}

fn is_scalar(t: &CType) -> bool
    ensures { result ≡ laws.is_scalar (type t.now) }
{
    is_integer(t) || is_pointer(t)
}

fn is_bool(t: &CType) -> bool
    ensures { result ≡ tree.is_bool (type t.now) }
{
    matches!(t, CType::Bool)
}

fn is_function(t: &CType) -> bool
    ensures { result ≡ laws.is_function (type t.now) }
{
    matches!(t, CType::Func(_))
}

/// Whether strings or functions have that type, whose locations are stubs.
pub fn may_be_stub(t: &CType) -> bool
    ensures { result ≡ laws.may_be_stub (type t.now) }
{
    matches!(t, CType::Array(_, _) | CType::Func(_))
}

/// What is wanted of a part that may be an array: of an array its place.
pub fn unless_array(t: &CType) -> Want
    ensures { want_of result ≡ laws.unless_array (type t.now) }
{
    if is_array(t) {
        Want::Place
    } else {
        Want::Value
    }
}

/// What is wanted of the right side of an assignment.
pub fn right_wanted(op: Option<BinaryOp>, t: &CType) -> Want
    ensures { want_of result ≡ here.right_wanted op (type t.now) }
{
    match op {
        None => if is_scalar(t) {
            Want::Value
        } else {
            Want::Place
        },
        Some(_) => Want::Value,
    }
}

/// What is wanted of the operand of a sign.
pub fn operand_wanted(op: UnaryOp) -> Want
    ensures { want_of result ≡ here.operand_wanted op }
{
    match op {
        UnaryOp::Address => Want::Place,
        UnaryOp::Deref | UnaryOp::Not | UnaryOp::Plus | UnaryOp::Minus | UnaryOp::Complement =>
            Want::Value,
    }
}

/// What is wanted of what stands before `->` or `.`.
pub fn object_wanted(arrow: bool) -> Want
    ensures { want_of result ≡ here.object_wanted arrow }
{
    if arrow { Want::Value } else { Want::Place }
}

fn compares_pointers(op: BinaryOp) -> bool
    ensures { result ≡ laws.compares_pointers op }
{
    matches!(op, BinaryOp::Equal | BinaryOp::NotEqual)
}

fn in_one_type(op: BinaryOp) -> bool
    ensures { result ≡ laws.in_one_type op }
{
    !matches!(
        op,
        BinaryOp::ShiftLeft | BinaryOp::ShiftRight | BinaryOp::And | BinaryOp::Or
    )
}

fn gives_truth(op: BinaryOp) -> bool
    ensures { result ≡ laws.gives_truth op }
{
    matches!(
        op,
        BinaryOp::Less
            | BinaryOp::Greater
            | BinaryOp::LessEqual
            | BinaryOp::GreaterEqual
            | BinaryOp::Equal
            | BinaryOp::NotEqual
            | BinaryOp::And
            | BinaryOp::Or
    )
}

fn operands_fit(op: BinaryOp, left: &CType, right: &CType) -> bool
    ensures { result ≡ laws.operands_fit op (type left.now) (type right.now) }
{
    if is_logical(op) {
        is_scalar(left) && is_scalar(right)
    } else {
        (is_integer(left) && is_integer(right))
            || (compares_pointers(op) && (is_pointer(left) && is_pointer(right)))
    }
}

fn types_meet(op: BinaryOp, left: &CType, right: &CType, whole: &CType) -> bool
    ensures { result ≡ here.types_meet op (type left.now) (type right.now) (type whole.now) }
{
    (!(in_one_type(op) && is_integer(left)) || same_type(left, right))
        && (gives_truth(op) || same_type(whole, left))
}

/// Whether an operator takes operands of these types, and gives the other one.
pub fn binary_fits(op: BinaryOp, left: &CType, right: &CType, whole: &CType) -> bool
    ensures { result ≡ here.binary_fits op (type left.now) (type right.now) (type whole.now) }
{
    is_integer(whole) && (operands_fit(op, left, right) && types_meet(op, left, right, whole))
}

/// Whether an assignment, where the operator works in the first type, has sides of these types.
pub fn assign_fits(
    op: Option<BinaryOp>,
    works: &CType,
    left: &CType,
    right: &CType,
    whole: &CType,
) -> bool
    ensures { result ≡ here.assign_fits op (type works.now) (type left.now) (type right.now) (type whole.now) }
{
    match op {
        None => same_type(left, whole) && same_type(right, whole),
        Some(op) => {
            same_type(left, whole)
                && (is_integer(whole)
                    && (is_integer(works)
                        && (is_integer(right) && types_meet(op, works, right, works))))
        }
    }
}

/// Whether a sign takes an operand of that type, and gives the other one.
pub fn unary_fits(op: UnaryOp, want: Want, operand: &CType, whole: &CType) -> bool
    ensures { result ≡ here.unary_fits op (want_of want) (type operand.now) (type whole.now) }
{
    match op {
        UnaryOp::Address => is_read(want) && is_pointer(whole),
        UnaryOp::Deref => is_pointer(operand),
        UnaryOp::Not => is_read(want) && (is_scalar(operand) && is_integer(whole)),
        UnaryOp::Plus | UnaryOp::Minus | UnaryOp::Complement => {
            is_read(want) && (same_type(operand, whole) && is_integer(whole))
        }
    }
}

/// Whether `++` and `--` count in that type.
pub fn count_fits(want: Want, operand: &CType, whole: &CType) -> bool
    ensures { result ≡ here.count_fits (want_of want) (type operand.now) (type whole.now) }
{
    is_read(want) && (same_type(operand, whole) && is_integer(whole))
}

fn converts_to(from: &CType, to: &CType) -> bool
    ensures { result ≡ laws.converts_to (type from.now) (type to.now) }
{
    if is_void(to) {
        true
    } else if is_array(from) {
        is_pointer(to)
    } else if is_integer(from) {
        is_scalar(to)
    } else {
        (is_pointer(from) || is_function(from)) && (is_pointer(to) || is_bool(to))
    }
}

/// Whether a value of the one type is converted to the other.
pub fn conversion_fits(want: Want, from: &CType, to: &CType) -> bool
    ensures { result ≡ here.conversion_fits (want_of want) (type from.now) (type to.now) }
{
    is_read(want) && converts_to(from, to)
}

/// Whether a constant has that type.
pub fn number_fits(want: Want, t: &CType) -> bool
    ensures { result ≡ here.number_fits (want_of want) (type t.now) }
{
    is_read(want) && is_integer(t)
}
