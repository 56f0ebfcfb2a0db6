//! Nodes that drop a value of type `void`.

ghost use Rattle.std.specs.Prelude.{◌≡◌, ◌&&◌, ℕ, List};
ghost use Rattle.sc_world.specs.Source.{Struct};
ghost use Rattle.sc_world.specs.Tree as tree;
ghost use Rattle.sc_world.specs.View.{exp, type};
ghost use Rattle.flow_graph.specs.Nodes as unrolled;
ghost use Rattle.flow_turns.specs.Before as spec;
ghost use Rattle.sc_flow.specs.Over.{over};
ghost use Rattle.sc_flow.specs.Seen as seen;

use sc_flow::{Expression, Want};
use sc_gather::is_void;
use sc_tree::ctype::CType;
use sc_typed::{TExpr, What};

// The type of an expression of the text.
fn type_of(e: &TExpr) -> &CType
    ensures { (structs : List Struct) → type result.now ≡ tree.type_of (exp structs e.now) }
{
    match &e.what {
        What::Comma(_, _) | What::Binary(_, _, _) | What::Index(_, _) => &e.ctype,
        What::Assign(_, _, _, _) | What::Cond(_, _, _) => &e.ctype,
        What::Cast(_) | What::Unary(_, _) | What::Convert(_) => &e.ctype,
        What::PreInc(_, _) | What::PostInc(_, _) => &e.ctype,
        What::SizeofExpr(_, _) | What::SizeofType(_) => &e.ctype,
        What::Call(_, _) | What::Field(_, _, _, _) => &e.ctype,
        What::Param(_) | What::Local(_) | What::Global(_) => &e.ctype,
        What::Function(_, _) | What::Str(_) => &e.ctype,
        What::Int(_) | What::Char(_) => &e.ctype,
        What::Temp(_) | What::TempPlace(_) => &e.ctype,
    }
}

// Whether an expression of the text drops a value that was kept.
fn drops_text(e: &TExpr) -> bool
    ensures { (structs : List Struct) → result ≡ spec.drops_value (exp structs e.now) }
{
    match &e.what {
        What::Cast(a) | What::Convert(a) => {
            let a = a.get();
            match a.what {
                What::Temp(_) => is_void(&a.ctype) && is_void(&e.ctype),
                _ => false,
            }
        }
        _ => false,
    }
}

// Whether both an expression and its operand are of type `void`.
fn are_void(e: &TExpr, a: &TExpr) -> bool
    ensures { (structs : List Struct) → result ≡ (tree.is_void (tree.type_of (exp structs a.now)) && tree.is_void (type e.now.ctype)) }
{
    is_void(type_of(a)) && is_void(&e.ctype)
}

// Whether an expression drops its operand, which is kept.
fn drops_over(e: &TExpr) -> bool
    ensures { (structs : List Struct) (x y : ℕ) → result ≡ spec.drops_value (over (exp structs e.now) x y) }
{
    match &e.what {
        What::Cast(a) => are_void(e, a.get()),
        What::Convert(a) => are_void(e, a.get()),
        _ => false,
    }
}

// Whether the expression of a node drops a value of type `void`.
fn drops_value(e: &Expression) -> bool
    ensures { (structs : List Struct) → result ≡ spec.drops_value (seen.expression structs e.now) }
{
    match e {
        Expression::Source(e) => drops_text(e),
        Expression::Over(e, _, _) => drops_over(e),
        Expression::Temp(_, _) | Expression::TempPlace(_, _) => false,
        Expression::Former(_, _) | Expression::Truth(_, _) | Expression::Nothing => false,
    }
}

/// Whether a node that keeps this does nothing: it drops a value of type `void`.
pub fn drops(want: Want, e: &Expression) -> bool
    ensures { (structs : List Struct) (temp next : ℕ) → result ≡ spec.drops (unrolled.Keep (seen.want_of want) temp (seen.expression structs e.now) next) }
{
    match want {
        Want::Value => drops_value(e),
        Want::Place => false,
    }
}
