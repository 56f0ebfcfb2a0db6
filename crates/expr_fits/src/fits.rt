// Which expressions have gates.

ghost use Rattle.std.specs.Prelude.{◌≡◌, ◌<◌, ◌^◌, ◌&&◌, true, length};
ghost use Rattle.flow_graph.specs.Conditions as graph;
ghost use Rattle.run_values.specs.Seen.{want_of};
ghost use Rattle.sc_world.specs.View.{type};
ghost use Rattle.expr_fits.specs.Around.{exp_of, layout_of, looked_in, source_of};
ghost use Rattle.expr_fits.specs.Fits as spec;
ghost use Rattle.expr_fits.specs.Here.{fits_over};
ghost use Rattle.expr_fits.specs.Kept.{kinds_of};

use crate::around::{Around, member_name, type_of};
use crate::kinds::{Kind, keeps};
use crate::places::{field_fits, indexed_fits, is_stub_there, is_typed_there};
use crate::types::{
    assign_fits, binary_fits, conversion_fits, count_fits, is_read, number_fits, object_wanted,
    operand_wanted, right_wanted, unary_fits, unless_array,
};
use run_entry::integer_bits;
use run_exprs::{character, operator};
use run_values::{Want, is_logical};
use run_world::same_type;
use sc_gather::is_integer;
use sc_tree::ctype::CType;
use sc_typed::{TExpr, What};
use sc_world::Origin;

// Whether it has no call and no branch.
fn is_plain(around: &Around, e: &TExpr) -> bool
    ensures { result ≡ graph.is_plain (exp_of around.now e.now) }
{
    match &e.what {
        What::Comma(a, b) => is_plain(around, a.get()) && is_plain(around, b.get()),
        What::Assign(_, _, a, b) => is_plain(around, a.get()) && is_plain(around, b.get()),
        What::Binary(op, a, b) => {
            !is_logical(*op) && (is_plain(around, a.get()) && is_plain(around, b.get()))
        }
        What::Index(a, b) => is_plain(around, a.get()) && is_plain(around, b.get()),
        What::Cast(a) | What::Convert(a) => is_plain(around, a.get()),
        What::Unary(_, a) => is_plain(around, a.get()),
        What::PreInc(_, a) | What::PostInc(_, a) => is_plain(around, a.get()),
        What::SizeofExpr(a, _) => is_plain(around, a.get()),
        What::Field(a, _, _, _) => is_plain(around, a.get()),
        What::Cond(_, _, _) | What::Call(_, _) => false,
        What::SizeofType(_) | What::Int(_) | What::Char(_) => true,
        What::Param(_) | What::Local(_) | What::Global(_) => true,
        What::Function(_, _) | What::Str(_) => true,
        What::Temp(_) | What::TempPlace(_) => true,
    }
}

/// Whether it is a number of the width of the type.
pub fn fits_width(around: &Around, t: &CType, n: u64) -> bool
    ensures { result ≡ spec.fits_width (source_of around.now) (type t.now) n }
{
    sc_types::fits(integer_bits(around.here, t), n)
}

// Whether its constants are numbers of their widths.
fn constants_fit(around: &Around, e: &TExpr) -> bool
    ensures { result ≡ spec.constants_fit (source_of around.now) (exp_of around.now e.now) }
{
    let t = &e.ctype;
    match &e.what {
        What::Comma(a, b) => constants_fit(around, a.get()) && constants_fit(around, b.get()),
        What::Assign(_, _, a, b) => {
            constants_fit(around, a.get()) && constants_fit(around, b.get())
        }
        What::Binary(_, a, b) => constants_fit(around, a.get()) && constants_fit(around, b.get()),
        What::Index(a, b) => constants_fit(around, a.get()) && constants_fit(around, b.get()),
        What::Cast(a) | What::Convert(a) => constants_fit(around, a.get()),
        What::Unary(_, a) => constants_fit(around, a.get()),
        What::PreInc(_, a) | What::PostInc(_, a) => constants_fit(around, a.get()),
        What::Field(a, _, _, _) => constants_fit(around, a.get()),
        What::SizeofExpr(_, n) | What::SizeofType(n) | What::Int(n) => fits_width(around, t, *n),
        What::Char(c) => fits_width(around, t, character(*c)),
        What::Cond(_, _, _) | What::Call(_, _) => true,
        What::Param(_) | What::Local(_) | What::Global(_) => true,
        What::Function(_, _) | What::Str(_) => true,
        What::Temp(_) | What::TempPlace(_) => true,
    }
}

// Whether it fits the layout, over temps that keep this.
fn fits(around: &Around, kinds: &[Kind], want: Want, e: &TExpr) -> bool
    requires few { length (looked_in around.now).locations < 2 ^ 32 }
    ensures { result ≡ fits_over (looked_in around.now) (kinds_of kinds.now) (want_of want) (exp_of around.now e.now) }
{
    let t = &e.ctype;
    match &e.what {
        What::Comma(a, b) => {
            fits(around, kinds, Want::Value, a.get())
                && (fits(around, kinds, want, b.get()) && same_type(type_of(around, b.get()), t))
        }
        What::Assign(op, works, a, b) => {
            let op = operator(*op);
            let (left, right) = (type_of(around, a.get()), type_of(around, b.get()));
            fits(around, kinds, Want::Place, a.get())
                && (fits(around, kinds, right_wanted(op, t), b.get())
                    && assign_fits(op, works, left, right, t))
        }
        What::Binary(op, a, b) => {
            let (left, right) = (type_of(around, a.get()), type_of(around, b.get()));
            fits(around, kinds, Want::Value, a.get())
                && (fits(around, kinds, Want::Value, b.get())
                    && (is_read(want) && binary_fits(*op, left, right, t)))
        }
        What::Cast(a) | What::Convert(a) => {
            let from = type_of(around, a.get());
            fits(around, kinds, unless_array(from), a.get()) && conversion_fits(want, from, t)
        }
        What::Unary(op, a) => {
            fits(around, kinds, operand_wanted(*op), a.get())
                && unary_fits(*op, want, type_of(around, a.get()), t)
        }
        What::PreInc(_, a) | What::PostInc(_, a) => {
            fits(around, kinds, Want::Place, a.get())
                && count_fits(want, type_of(around, a.get()), t)
        }
        What::Index(a, b) => {
            let whole = type_of(around, a.get());
            fits(around, kinds, unless_array(whole), a.get())
                && (fits(around, kinds, Want::Value, b.get())
                    && (is_integer(type_of(around, b.get()))
                        && indexed_fits(around.layout, whole, t)))
        }
        What::Field(a, number, member, arrow) => {
            let name = member_name(around, *number, *member);
            fits(around, kinds, object_wanted(*arrow), a.get())
                && field_fits(around.layout, *arrow, type_of(around, a.get()), name, t)
        }
        What::Param(n) => is_typed_there(around.layout, Origin::Param(*n), t),
        What::Local(n) => is_typed_there(around.layout, Origin::Local(*n), t),
        What::Global(n) => is_typed_there(around.layout, Origin::Global(*n), t),
        What::Function(n, _) => is_stub_there(around.layout, Origin::Function(*n), t),
        What::Str(_) => is_stub_there(around.layout, Origin::Literal(e.place.token), t),
        What::SizeofExpr(_, _) | What::SizeofType(_) => number_fits(want, t),
        What::Int(_) | What::Char(_) => number_fits(want, t),
        What::Cond(_, _, _) | What::Call(_, _) => false,
        What::Temp(n) => is_read(want) && keeps(kinds, *n, Want::Value, t),
        What::TempPlace(n) => keeps(kinds, *n, Want::Place, t),
    }
}

/// Whether an expression of the text has gates, where its value or its place is wanted and temps keep this. Each member and
/// each index of an array in it takes time that is linear in the number of locations.
pub fn can_walk(around: &Around, kinds: &[Kind], want: Want, e: &TExpr) -> bool
    requires few { length (looked_in around.now).locations < 2 ^ 32 }
    requires same { looked_in around.now ≡ layout_of around.now }
    ensures exactly { result ≡ (graph.is_plain (exp_of around.now e.now)
        && (spec.constants_fit (source_of around.now) (exp_of around.now e.now)
        && fits_over (layout_of around.now) (kinds_of kinds.now) (want_of want) (exp_of around.now e.now))) }
    ensures walks { result ≡ true → spec.Walkable around.now (kinds_of kinds.now) (want_of want) (exp_of around.now e.now) }
{
    is_plain(around, e) && (constants_fit(around, e) && fits(around, kinds, want, e))
}
