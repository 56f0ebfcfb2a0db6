// The manner of an operator between two operands (C11 6.5.5 to 6.5.14), and what is asked of its operands.

ghost use Rattle.std.specs.Prelude.{◌≡◌};
ghost use Rattle.sc_manners.specs.Manners as spec;

use sc_tree::op::BinaryOp;
use sc_typed::TExpr;
use sc_types::{is_integer, is_pointer};

/// The manner in which an operator treats its operands.
#[derive(Clone, Copy)]
pub enum Manner {
    /// `&&`, `||`: numbers or pointers.
    Logical,
    /// `==`, `!=`: numbers in their common kind, or pointers.
    Equality,
    /// `<` and its kin: numbers in their common kind.
    Ordering,
    /// `<<`, `>>`: each side promoted alone.
    Shifting,
    /// `+`, `-`: numbers in their common kind; of pointers not taken.
    Additive,
    /// The others: numbers in their common kind.
    Arithmetic,
}

/// The manner of an operator.
pub fn manner_of(op: BinaryOp) -> Manner
    ensures { result ≡ spec.manner_of op }
{
    match op {
        BinaryOp::And | BinaryOp::Or => Manner::Logical,
        BinaryOp::Equal | BinaryOp::NotEqual => Manner::Equality,
        BinaryOp::Less | BinaryOp::Greater | BinaryOp::LessEqual | BinaryOp::GreaterEqual => {
            Manner::Ordering
        }
        BinaryOp::ShiftLeft | BinaryOp::ShiftRight => Manner::Shifting,
        BinaryOp::Add | BinaryOp::Sub => Manner::Additive,
        BinaryOp::BitOr
        | BinaryOp::BitXor
        | BinaryOp::BitAnd
        | BinaryOp::Mul
        | BinaryOp::Div
        | BinaryOp::Rem => Manner::Arithmetic,
    }
}

/// Whether both operands are of integer types.
pub fn both_integers(a: &TExpr, b: &TExpr) -> bool
    ensures { result ≡ spec.both_integers a.now b.now }
{
    is_integer(&a.ctype) && is_integer(&b.ctype)
}

/// Whether one of the operands is a pointer.
pub fn some_pointer(a: &TExpr, b: &TExpr) -> bool
    ensures { result ≡ spec.some_pointer a.now b.now }
{
    is_pointer(&a.ctype) || is_pointer(&b.ctype)
}
