// What names, constants and strings stand for, and what of a tree evaluation asks.

ghost use Rattle.std.specs.Prelude.{◌≡◌, slice_index_or};
ghost use Rattle.run_store.specs.Concrete as store;
ghost use Rattle.sc_typed.specs.Arith as arith;
ghost use Rattle.sc_world.specs.Tree as tree;
ghost use Rattle.sc_world.specs.Eval as spec;
ghost use Rattle.sc_world.specs.Source.{called_name};
ghost use Rattle.sc_world.specs.View as view;
ghost use Rattle.run_world.specs.Seen as seen;

use run_world::{Here, Value};
use sc_base::NameId;
use sc_tree::ctype::CType;
use sc_tree::op::{AssignOp, BinaryOp};
use sc_typed::{TExpr, What};

// How many numbers an `int` has.
const NUMBERS: i64 = 1 << 32;

/// The type of an expression.
#[tactic(auto, unfolding(run_world::specs::Seen::env, layout_base::specs::Seen::ground_of))]
pub fn type_of<'e>(here: &Here, e: &'e TExpr) -> &'e CType
    ensures { view.type result.now ≡ tree.type_of (view.exp (seen.env here.now).source.structs e.now) }
{
    here.ground.here.type_of(e)
}

/// The name of a member, by the numbers of its struct and of it.
#[tactic(auto, unfolding(run_world::specs::Seen::env, layout_base::specs::Seen::ground_of))]
pub fn member_name(here: &Here, number: u32, member: u32) -> NameId
    ensures { result ≡ view.member_name (seen.env here.now).source.structs number member }
{
    here.ground.here.member_name(number, member)
}

/// The operator of `+=` and its kin; none of `=`.
pub fn operator(op: AssignOp) -> Option<BinaryOp>
    ensures { result ≡ view.operator op }
{
    match op {
        AssignOp::Set => None,
        AssignOp::Mul => Some(BinaryOp::Mul),
        AssignOp::Div => Some(BinaryOp::Div),
        AssignOp::Rem => Some(BinaryOp::Rem),
        AssignOp::Add => Some(BinaryOp::Add),
        AssignOp::Sub => Some(BinaryOp::Sub),
        AssignOp::ShiftLeft => Some(BinaryOp::ShiftLeft),
        AssignOp::ShiftRight => Some(BinaryOp::ShiftRight),
        AssignOp::BitAnd => Some(BinaryOp::BitAnd),
        AssignOp::BitXor => Some(BinaryOp::BitXor),
        AssignOp::BitOr => Some(BinaryOp::BitOr),
    }
}

/// The bits of a character constant, which is an `int`.
pub fn character(c: i8) -> u64
    ensures { result ≡ arith.wrapped 32 c }
{
    i64::from(c).rem_euclid(NUMBERS) as u64
}

/// Whether a function that is called stands there by its name.
pub fn is_name(here: &Here, e: &TExpr) -> bool
    ensures { result ≡ spec.is_name (view.exp (seen.env here.now).source.structs e.now) }
{
    match &e.what {
        What::Function(_, _) => true,
        What::Comma(_, _) | What::Binary(_, _, _) | What::Index(_, _) => false,
        What::Assign(_, _, _, _) | What::Cond(_, _, _) => false,
        What::Cast(_) | What::Unary(_, _) | What::Convert(_) => false,
        What::PreInc(_, _) | What::PostInc(_, _) => false,
        What::SizeofExpr(_, _) | What::SizeofType(_) => false,
        What::Call(_, _) | What::Field(_, _, _, _) => false,
        What::Param(_) | What::Local(_) | What::Global(_) | What::Str(_) => false,
        What::Int(_) | What::Char(_) => false,
        What::Temp(_) | What::TempPlace(_) => false,
    }
}

/// The name of a function that is called by its name.
pub fn name_of(here: &Here, e: &TExpr) -> Option<NameId>
    ensures { result ≡ called_name (view.exp (seen.env here.now).source.structs e.now) }
{
    match &e.what {
        What::Function(name, _) => Some(*name),
        What::Comma(_, _) | What::Binary(_, _, _) | What::Index(_, _) => None,
        What::Assign(_, _, _, _) | What::Cond(_, _, _) => None,
        What::Cast(_) | What::Unary(_, _) | What::Convert(_) => None,
        What::PreInc(_, _) | What::PostInc(_, _) => None,
        What::SizeofExpr(_, _) | What::SizeofType(_) => None,
        What::Call(_, _) | What::Field(_, _, _, _) => None,
        What::Param(_) | What::Local(_) | What::Global(_) | What::Str(_) => None,
        What::Int(_) | What::Char(_) => None,
        What::Temp(_) | What::TempPlace(_) => None,
    }
}

/// The value that was kept under that number: a run of a tree keeps none.
#[tactic(auto, unfolding(run_world::specs::Seen::env))]
pub fn temporary(here: &Here, number: u32) -> Value
    ensures { seen.cell result ≡ slice_index_or (seen.env here.now).temps number store.Nothing }
{
    Value::Nothing
}
