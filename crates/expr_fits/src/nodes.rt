//! Which expressions of nodes have gates: those of the text, and those over kept operands.

ghost use Rattle.std.specs.Prelude.{◌≡◌, ◌<◌, ◌^◌, ◌&&◌, None, true, length};
ghost use Rattle.flow_graph.specs.Conditions as graph;
ghost use Rattle.flow_graph.specs.Expressions as part;
ghost use Rattle.run_laws.specs.Fits.{if_scalar};
ghost use Rattle.run_values.specs.Seen.{want_of};
ghost use Rattle.sc_flow.specs.Over.{over};
ghost use Rattle.sc_flow.specs.Seen.{expression, truth};
ghost use Rattle.sc_world.specs.Eval.{Place'};
ghost use Rattle.sc_world.specs.View.{type};
ghost use Rattle.expr_fits.specs.Around.{exp_of, layout_of, looked_in, source_of};
ghost use Rattle.expr_fits.specs.Fits as spec;
ghost use Rattle.expr_fits.specs.Here as here;
ghost use Rattle.expr_fits.specs.Kept.{kinds_of};

use crate::around::{Around, member_name, type_of};
use crate::fits::{can_walk, fits_width};
use crate::kinds::{Kind, keeps};
use crate::places::{field_fits, indexed_fits};
use crate::types::{
    assign_fits, binary_fits, conversion_fits, count_fits, is_read, number_fits, object_wanted,
    operand_wanted, right_wanted, unary_fits, unless_array,
};
use layout_base::is_cell;
use run_values::{Want, is_logical};
use sc_flow::Expression;
use sc_gather::is_integer;
use sc_tree::ctype::{CType, IntKind};
use sc_typed::{TExpr, What};

// An operand that is kept: the number of its temp, and its type.
#[derive(Clone, Copy)]
struct Side<'t> {
    number: u32,
    ctype: &'t CType,
}

// Whether the temps keep the sides of a plain assignment of type `t`, and their types fit.
fn sides_fit(kinds: &[Kind], left: Side, right: Side, works: &CType, t: &CType) -> bool
    ensures { result ≡ (here.keeps (kinds_of kinds.now) left.entry.number Place' (type left.entry.ctype.now)
        && (here.keeps (kinds_of kinds.now) right.entry.number (if_scalar (type t.now)) (type right.entry.ctype.now)
        && here.assign_fits None (type works.now) (type left.entry.ctype.now) (type right.entry.ctype.now) (type t.now))) }
{
    let (u, v) = (left.ctype, right.ctype);
    keeps(kinds, left.number, Want::Place, u)
        && (keeps(kinds, right.number, right_wanted(None, t), v)
            && assign_fits(None, works, u, v, t))
}

/// Whether an expression of the text has gates whose first operand is kept in the temp `x`, and the second one in `y`.
#[tactic(auto, using(crate::proofs::Over::cast_over, crate::proofs::Over::convert_over, crate::proofs::Over::index_over, crate::proofs::Over::assign_over))]
pub fn can_apply(around: &Around, kinds: &[Kind], want: Want, e: &TExpr, x: u32, y: u32) -> bool
    requires few { length (looked_in around.now).locations < 2 ^ 32 }
    requires same { looked_in around.now ≡ layout_of around.now }
    ensures exactly { result ≡ (graph.is_plain (over (exp_of around.now e.now) x y)
        && (spec.constants_fit (source_of around.now) (over (exp_of around.now e.now) x y)
        && here.fits_over (layout_of around.now) (kinds_of kinds.now) (want_of want) (over (exp_of around.now e.now) x y))) }
{
    let t = &e.ctype;
    match &e.what {
        What::Assign(_, works, a, b) => {
            let (u, v) = (type_of(around, a.get()), type_of(around, b.get()));
            let left = Side {
                number: x,
                ctype: u,
            };
            let right = Side {
                number: y,
                ctype: v,
            };
            sides_fit(kinds, left, right, works, t)
        }
        What::Binary(op, a, b) => {
            let (u, v) = (type_of(around, a.get()), type_of(around, b.get()));
            !is_logical(*op)
                && (keeps(kinds, x, Want::Value, u)
                    && (keeps(kinds, y, Want::Value, v)
                        && (is_read(want) && binary_fits(*op, u, v, t))))
        }
        What::Cast(a) | What::Convert(a) => {
            let u = type_of(around, a.get());
            keeps(kinds, x, unless_array(u), u) && conversion_fits(want, u, t)
        }
        What::Unary(op, a) => {
            let u = type_of(around, a.get());
            is_read(operand_wanted(*op))
                && (keeps(kinds, x, Want::Value, u) && unary_fits(*op, want, u, t))
        }
        What::PreInc(_, a) | What::PostInc(_, a) => {
            let u = type_of(around, a.get());
            keeps(kinds, x, Want::Place, u) && count_fits(want, u, t)
        }
        What::Index(a, b) => {
            let (u, v) = (type_of(around, a.get()), type_of(around, b.get()));
            keeps(kinds, x, unless_array(u), u)
                && (keeps(kinds, y, Want::Value, v)
                    && (is_integer(v) && indexed_fits(around.layout, u, t)))
        }
        What::Field(a, number, member, arrow) => {
            let u = type_of(around, a.get());
            let name = member_name(around, *number, *member);
            keeps(kinds, x, object_wanted(*arrow), u)
                && field_fits(around.layout, *arrow, u, name, t)
        }
        What::SizeofExpr(_, n) => fits_width(around, t, *n) && number_fits(want, t),
        What::Comma(_, _) | What::Cond(_, _, _) => can_walk(around, kinds, want, e),
        What::Call(_, _) | What::SizeofType(_) => can_walk(around, kinds, want, e),
        What::Int(_) | What::Char(_) => can_walk(around, kinds, want, e),
        What::Param(_) | What::Local(_) => can_walk(around, kinds, want, e),
        What::Global(_) | What::Function(_, _) => can_walk(around, kinds, want, e),
        What::Str(_) | What::Temp(_) | What::TempPlace(_) => can_walk(around, kinds, want, e),
    }
}

// Whether the temp keeps the place of an object that is read as a scalar.
fn keeps_former(kinds: &[Kind], number: u32, t: &CType) -> bool
    ensures { result ≡ here.keeps (kinds_of kinds.now) number Place' (part.as_scalar (type t.now)) }
{
    if is_cell(t) {
        keeps(kinds, number, Want::Place, t)
    } else {
        let int = CType::Int(IntKind::Int);
        keeps(kinds, number, Want::Place, &int)
    }
}

// 1 or 0.
fn number_for(holds: bool) -> u64
    ensures { result ≡ truth holds }
{
    if holds { 1 } else { 0 }
}

// Whether the expression of a node passes the test.
fn tested(around: &Around, kinds: &[Kind], want: Want, e: &Expression) -> bool
    requires few { length (looked_in around.now).locations < 2 ^ 32 }
    requires same { looked_in around.now ≡ layout_of around.now }
    ensures { result ≡ (graph.is_plain (expression (source_of around.now).structs e.now)
        && (spec.constants_fit (source_of around.now) (expression (source_of around.now).structs e.now)
        && here.fits_over (layout_of around.now) (kinds_of kinds.now) (want_of want) (expression (source_of around.now).structs e.now))) }
{
    match e {
        Expression::Source(e) => can_walk(around, kinds, want, e),
        Expression::Over(e, x, y) => can_apply(around, kinds, want, e, *x, *y),
        Expression::Temp(n, t) => is_read(want) && keeps(kinds, *n, Want::Value, t),
        Expression::TempPlace(n, t) => keeps(kinds, *n, Want::Place, t),
        Expression::Former(n, t) => keeps_former(kinds, *n, t),
        Expression::Truth(holds, t) => {
            fits_width(around, t, number_for(*holds)) && number_fits(want, t)
        }
        Expression::Nothing => is_read(want),
    }
}

/// Whether the expression of a node has gates, where its value or its place is wanted and temps keep this. Each member and
/// each index of an array in it takes time that is linear in the number of locations.
pub fn can_walk_node(around: &Around, kinds: &[Kind], want: Want, e: &Expression) -> bool
    requires few { length (looked_in around.now).locations < 2 ^ 32 }
    requires same { looked_in around.now ≡ layout_of around.now }
    ensures exactly { result ≡ (graph.is_plain (expression (source_of around.now).structs e.now)
        && (spec.constants_fit (source_of around.now) (expression (source_of around.now).structs e.now)
        && here.fits_over (layout_of around.now) (kinds_of kinds.now) (want_of want) (expression (source_of around.now).structs e.now))) }
    ensures walks { result ≡ true
        → spec.Walkable around.now (kinds_of kinds.now) (want_of want) (expression (source_of around.now).structs e.now) }
{
    tested(around, kinds, want, e)
}
