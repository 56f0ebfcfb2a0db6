// What is asked of trees.

ghost use Rattle.std.specs.Prelude.{◌≡◌};
ghost use Rattle.sc_world.specs.Eval as eval;
ghost use Rattle.sc_world.specs.Tree as tree;
ghost use Rattle.sc_world.specs.View as view;
ghost use Rattle.flow_graph.specs.Expressions as spec;
ghost use Rattle.sc_flow.specs.Seen as seen;
ghost use Rattle.sc_flow.specs.Steps as steps;

use crate::node::Want;
use sc_gather::{Context, is_integer, is_pointer};
use sc_tree::ctype::CType;
use sc_tree::op::{AssignOp, BinaryOp};
use sc_typed::{TExpr, What};

/// Whether it is `&&` or `||`.
pub fn is_logical(op: BinaryOp) -> bool
    ensures { result ≡ eval.is_logical op }
{
    matches!(op, BinaryOp::And | BinaryOp::Or)
}

/// Whether values of that type stand in one cell.
pub fn is_scalar(t: &CType) -> bool
    ensures { result ≡ spec.is_scalar (view.type t.now) }
{
    is_integer(t) || is_pointer(t)
}

/// What is kept of the right side of `=`.
pub fn right_want(t: &CType) -> Want
    ensures { seen.want_of result ≡ steps.right_want (view.type t.now) }
{
    if is_scalar(t) {
        Want::Value
    } else {
        Want::Place
    }
}

/// What is kept of an operand that may be an array.
pub fn operand_want(here: &Context, a: &TExpr) -> Want
    ensures { seen.want_of result ≡ steps.operand_want (view.exp (seen.structs_of here.now) a.now) }
{
    if is_array(here.type_of(a)) {
        Want::Place
    } else {
        Want::Value
    }
}

/// What is kept of what stands before `->`, with the flag, or `.`.
pub fn arrow_want(arrow: bool) -> Want
    ensures { seen.want_of result ≡ steps.arrow_want arrow }
{
    if arrow { Want::Value } else { Want::Place }
}

fn is_array(t: &CType) -> bool
    ensures { result ≡ tree.is_array (view.type t.now) }
{
    matches!(t, CType::Array(_, _))
}

/// The operator of `+=` and its kin; none of `=`.
pub fn operator(op: AssignOp) -> Option<BinaryOp>
    ensures { result ≡ view.operator op }
{
    match op {
        AssignOp::Set => None,
        AssignOp::Mul => Some(BinaryOp::Mul),
        AssignOp::Div => Some(BinaryOp::Div),
        AssignOp::Rem => Some(BinaryOp::Rem),
        AssignOp::Add => Some(BinaryOp::Add),
        AssignOp::Sub => Some(BinaryOp::Sub),
        AssignOp::ShiftLeft => Some(BinaryOp::ShiftLeft),
        AssignOp::ShiftRight => Some(BinaryOp::ShiftRight),
        AssignOp::BitAnd => Some(BinaryOp::BitAnd),
        AssignOp::BitXor => Some(BinaryOp::BitXor),
        AssignOp::BitOr => Some(BinaryOp::BitOr),
    }
}

/// Whether a function that is called stands there by its name.
pub fn is_name(here: &Context, e: &TExpr) -> bool
    ensures { result ≡ eval.is_name (view.exp (seen.structs_of here.now) e.now) }
{
    match &e.what {
        What::Function(_, _) => true,
        What::Comma(_, _) | What::Binary(_, _, _) | What::Index(_, _) => false,
        What::Assign(_, _, _, _) | What::Cond(_, _, _) => false,
        What::Cast(_) | What::Unary(_, _) | What::Convert(_) => false,
        What::PreInc(_, _) | What::PostInc(_, _) => false,
        What::SizeofExpr(_, _) | What::SizeofType(_) => false,
        What::Call(_, _) | What::Field(_, _, _, _) => false,
        What::Param(_) | What::Local(_) | What::Global(_) | What::Str(_) => false,
        What::Int(_) | What::Char(_) => false,
        What::Temp(_) | What::TempPlace(_) => false,
    }
}

/// Whether an expression has no call, no `&&`, no `||` and no `? :`, so that one node does for it.
pub fn is_easy(here: &Context, e: &TExpr) -> bool
    ensures { result ≡ spec.easy (view.exp (seen.structs_of here.now) e.now) }
{
    match &e.what {
        What::Comma(a, b) | What::Assign(_, _, a, b) | What::Index(a, b) => {
            is_easy(here, a.get()) && is_easy(here, b.get())
        }
        What::Binary(op, a, b) => {
            !is_logical(*op) && (is_easy(here, a.get()) && is_easy(here, b.get()))
        }
        What::Cast(a) | What::Convert(a) | What::Unary(_, a) => is_easy(here, a.get()),
        What::PreInc(_, a) | What::PostInc(_, a) => is_easy(here, a.get()),
        What::SizeofExpr(a, _) | What::Field(a, _, _, _) => is_easy(here, a.get()),
        What::SizeofType(_) | What::Param(_) | What::Local(_) | What::Global(_) => true,
        What::Function(_, _) | What::Int(_) | What::Char(_) | What::Str(_) => true,
        What::Cond(_, _, _) | What::Call(_, _) | What::Temp(_) | What::TempPlace(_) => false,
    }
}
