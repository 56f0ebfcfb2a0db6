// Which expressions fit the layout.

ghost use Rattle.std.specs.Prelude.{◌≡◌, ◌<◌, ◌^◌, length};
ghost use Rattle.run_laws.specs.Fits as laws;
ghost use Rattle.run_values.specs.Seen.{want_of};
ghost use Rattle.sc_world.specs.Eval as eval;
ghost use Rattle.sc_world.specs.Tree as tree;
ghost use Rattle.sc_world.specs.View.{member_name as member_of, operator as operator_of, type};
ghost use Rattle.expr_fits.specs.Here as here;
ghost use Rattle.function_fits.specs.Expressions as spec;
ghost use Rattle.function_fits.specs.Laid.{arguments_of, exp_of, layout_of, source_of};

use crate::calls::call_fits;
use crate::laid::{Laid, member_name, type_of};
use expr_fits::{
    assign_fits, binary_fits, conversion_fits, count_fits, field_fits, indexed_fits, is_read,
    is_stub_there, is_typed_there, number_fits, object_wanted, operand_wanted, right_wanted,
    unary_fits, unless_array,
};
use run_exprs::operator;
use run_values::Want;
use run_world::same_type;
use sc_base::List;
use sc_gather::{is_integer, is_pointer};
use sc_tree::ctype::CType;
use sc_tree::op::{AssignOp, BinaryOp};
use sc_typed::{TExpr, What};
use sc_world::Origin;

/// Whether values of that type are tested: it is a number or a pointer.
pub fn is_scalar(t: &CType) -> bool
    ensures { result ≡ laws.is_scalar (type t.now) }
{
    is_integer(t) || is_pointer(t)
}

// Whether a function that is called stands there by its name.
fn is_name(laid: &Laid, e: &TExpr) -> bool
    ensures { result ≡ eval.is_name (exp_of laid.now e.now) }
{
    match &e.what {
        What::Function(_, _) => true,
        What::Comma(_, _) | What::Binary(_, _, _) | What::Index(_, _) => false,
        What::Assign(_, _, _, _) | What::Cond(_, _, _) => false,
        What::Cast(_) | What::Unary(_, _) | What::Convert(_) => false,
        What::PreInc(_, _) | What::PostInc(_, _) => false,
        What::SizeofExpr(_, _) | What::SizeofType(_) => false,
        What::Call(_, _) | What::Field(_, _, _, _) => false,
        What::Param(_) | What::Local(_) | What::Global(_) | What::Str(_) => false,
        What::Int(_) | What::Char(_) => false,
        What::Temp(_) | What::TempPlace(_) => false,
    }
}

// The types of an assignment.
fn sides_fit(laid: &Laid, op: AssignOp, works: &CType, a: &TExpr, b: &TExpr, t: &CType) -> bool
    ensures { result ≡ here.assign_fits (operator_of op) (type works.now)
        (tree.type_of (exp_of laid.now a.now)) (tree.type_of (exp_of laid.now b.now)) (type t.now) }
{
    assign_fits(operator(op), works, type_of(laid, a), type_of(laid, b), t)
}

// The types of an operator on two values.
fn operands_fit(laid: &Laid, op: BinaryOp, a: &TExpr, b: &TExpr, t: &CType) -> bool
    ensures { result ≡ here.binary_fits op
        (tree.type_of (exp_of laid.now a.now)) (tree.type_of (exp_of laid.now b.now)) (type t.now) }
{
    binary_fits(op, type_of(laid, a), type_of(laid, b), t)
}

// The types of `? :`.
fn arms_fit(laid: &Laid, a: &TExpr, b: &TExpr, c: &TExpr, t: &CType) -> bool
    ensures { result ≡ spec.arms_fit (tree.type_of (exp_of laid.now a.now))
        (tree.type_of (exp_of laid.now b.now)) (tree.type_of (exp_of laid.now c.now)) (type t.now) }
{
    is_scalar(type_of(laid, a))
        && (same_type(type_of(laid, b), t) && same_type(type_of(laid, c), t))
}

// The types of an index, and what is indexed.
fn index_fits(laid: &Laid, a: &TExpr, b: &TExpr, t: &CType) -> bool
    requires few { length (layout_of laid.now).locations < 2 ^ 32 }
    ensures { result ≡ spec.index_fits (layout_of laid.now)
        (tree.type_of (exp_of laid.now a.now)) (tree.type_of (exp_of laid.now b.now)) (type t.now) }
{
    is_integer(type_of(laid, b)) && indexed_fits(laid.layout, type_of(laid, a), t)
}

// The member that is accessed, by the numbers of its struct and of it.
fn access_fits(laid: &Laid, a: &TExpr, number: u32, member: u32, arrow: bool, t: &CType) -> bool
    requires few { length (layout_of laid.now).locations < 2 ^ 32 }
    ensures { result ≡ here.field_fits (layout_of laid.now) arrow (tree.type_of (exp_of laid.now a.now))
        (member_of (source_of laid.now).structs number member) (type t.now) }
{
    let name = member_name(laid, number, member);
    field_fits(laid.layout, arrow, type_of(laid, a), name, t)
}

/// Whether an expression fits the layout, where its value or its place is wanted.
#[cycle(expression)]
pub fn fits(laid: &Laid, want: Want, e: &TExpr) -> bool
    requires few { length (layout_of laid.now).locations < 2 ^ 32 }
    ensures { result ≡ spec.fits (layout_of laid.now) (want_of want) (exp_of laid.now e.now) }
{
    let t = &e.ctype;
    match &e.what {
        What::Comma(a, b) => {
            fits(laid, Want::Value, a.get())
                && (fits(laid, want, b.get()) && same_type(type_of(laid, b.get()), t))
        }
        What::Assign(op, works, a, b) => {
            fits(laid, Want::Place, a.get())
                && (fits(laid, right_wanted(operator(*op), t), b.get())
                    && sides_fit(laid, *op, works, a.get(), b.get(), t))
        }
        What::Cond(a, b, c) => {
            fits(laid, Want::Value, a.get())
                && (fits(laid, want, b.get())
                    && (fits(laid, want, c.get()) && arms_fit(laid, a.get(), b.get(), c.get(), t)))
        }
        What::Binary(op, a, b) => {
            fits(laid, Want::Value, a.get())
                && (fits(laid, Want::Value, b.get())
                    && (is_read(want) && operands_fit(laid, *op, a.get(), b.get(), t)))
        }
        What::Cast(a) | What::Convert(a) => {
            let from = type_of(laid, a.get());
            fits(laid, unless_array(from), a.get()) && conversion_fits(want, from, t)
        }
        What::Unary(op, a) => {
            fits(laid, operand_wanted(*op), a.get())
                && unary_fits(*op, want, type_of(laid, a.get()), t)
        }
        What::PreInc(_, a) | What::PostInc(_, a) => {
            fits(laid, Want::Place, a.get()) && count_fits(want, type_of(laid, a.get()), t)
        }
        What::Index(a, b) => {
            fits(laid, unless_array(type_of(laid, a.get())), a.get())
                && (fits(laid, Want::Value, b.get()) && index_fits(laid, a.get(), b.get(), t))
        }
        What::Call(f, args) => {
            (is_name(laid, f.get()) || fits(laid, Want::Value, f.get()))
                && (all_fit(laid, args)
                    && (is_read(want) && call_fits(laid, e.place.token, args.as_slice(), t)))
        }
        What::Field(a, number, member, arrow) => {
            fits(laid, object_wanted(*arrow), a.get())
                && access_fits(laid, a.get(), *number, *member, *arrow, t)
        }
        What::Param(n) => is_typed_there(laid.layout, Origin::Param(*n), t),
        What::Local(n) => is_typed_there(laid.layout, Origin::Local(*n), t),
        What::Global(n) => is_typed_there(laid.layout, Origin::Global(*n), t),
        What::Function(n, _) => is_stub_there(laid.layout, Origin::Function(*n), t),
        What::Str(_) => is_stub_there(laid.layout, Origin::Literal(e.place.token), t),
        What::SizeofExpr(_, _) | What::SizeofType(_) => number_fits(want, t),
        What::Int(_) | What::Char(_) => number_fits(want, t),
        What::Temp(_) | What::TempPlace(_) => false,
    }
}

// Whether the values of all arguments fit.
#[cycle(expression)]
fn all_fit(laid: &Laid, args: &List<TExpr>) -> bool
    requires few { length (layout_of laid.now).locations < 2 ^ 32 }
    ensures { result ≡ spec.all_fit (layout_of laid.now) (arguments_of laid.now args.now) }
{
    for e in args.as_slice() {
        if !fits(laid, Want::Value, e) {
            return false;
        }
    }
    true
}
