//! The walk over an expression, from left to right.

ghost use Rattle.std.specs.Prelude.{◌≡◌, true, IfOk};
ghost use Rattle.bit_net.specs.Runs.{Grown};
ghost use Rattle.run_values.specs.Seen.{want_of};
ghost use Rattle.expr_fits.specs.Around.{exp_of};
ghost use Rattle.expr_fits.specs.Fits.{CanWalk};
ghost use Rattle.tr_walk.specs.Operands.{is_leaf};
ghost use Rattle.tr_walk.specs.Walks.{IsReady, Walks};

use crate::leaves::{as_set, kept_place, number_of, temp};
use crate::operators::{Sides, apply_binary, apply_unary};
use crate::sides::{comma_left, comma_right, first, second};
use bit_net::{Net, OutOfMemory};
use expr_fits::{Around, type_of};
use gate_changes::combined;
use gate_places::{assign, wanted};
use gate_runs::Ends;
use gl_store::{Store, Val};
use run_exprs::{character, operator};
use run_values::Want;
use sc_typed::{TExpr, What};
use sc_world::Origin;
use tr_expr::{addressed, named};

// The gates of a name, a constant or a temp.
fn leaf(
    around: &Around,
    net: &mut Net,
    stored: &Store,
    ends: &Ends,
    want: Want,
    e: &TExpr,
) -> Result<Val, OutOfMemory>
    requires ready { IsReady around.now net.old stored.now.locations.items ends.now }
    requires can { CanWalk around.now (want_of want) (exp_of around.now e.now) }
    requires leaf { is_leaf (exp_of around.now e.now) ≡ true }
    ensures grown { Grown net.old net.new }
    ensures ok { IfOk result (λ r. Walks around.now net.new (want_of want) (exp_of around.now e.now)
        stored.now.locations.items stored.now.locations.items ends.now ends.now r) }
{
    let t = &e.ctype;
    match &e.what {
        What::Param(n) => {
            let origin = Origin::Param(*n);
            let made = named(around.here, around.layout, net, stored, want, t, origin)?;
            Ok(made)
        }
        What::Local(n) => {
            let origin = Origin::Local(*n);
            let made = named(around.here, around.layout, net, stored, want, t, origin)?;
            Ok(made)
        }
        What::Global(n) => {
            let origin = Origin::Global(*n);
            let made = named(around.here, around.layout, net, stored, want, t, origin)?;
            Ok(made)
        }
        What::Function(name, _) => {
            let made = addressed(around.layout, net, Origin::Function(*name));
            Ok(made)
        }
        What::Str(_) => {
            let made = addressed(around.layout, net, Origin::Literal(e.place.token));
            Ok(made)
        }
        What::SizeofExpr(_, n) | What::SizeofType(n) | What::Int(n) => {
            let made = number_of(around, net, *n, t)?;
            Ok(made)
        }
        What::Char(c) => {
            let made = number_of(around, net, character(*c), t)?;
            Ok(made)
        }
        What::Temp(n) => {
            let made = temp(around, net, *n)?;
            Ok(made)
        }
        What::TempPlace(n) => {
            let made = kept_place(around, net, stored, ends, want, t, *n)?;
            Ok(made)
        }
        What::Comma(_, _) | What::Cond(_, _, _) | What::Call(_, _) => Ok(Val::Unit),
        What::Assign(_, _, _, _) | What::Binary(_, _, _) | What::Index(_, _) => Ok(Val::Unit),
        What::Cast(_) | What::Convert(_) | What::Unary(_, _) => Ok(Val::Unit),
        What::PreInc(_, _) | What::PostInc(_, _) | What::Field(_, _, _, _) => Ok(Val::Unit),
    }
}

/// The gates of an expression of the text that is a node of a graph: its value, or its place as the pointer to it. After a
/// refusal of memory the store may be written in part, and is not to be used again.
#[tactic(auto, using(crate::proofs::Kept::ready_behind, crate::proofs::Kept::ready_read))]
pub fn walk(
    around: &Around,
    net: &mut Net,
    stored: &mut Store,
    ends: &mut Ends,
    want: Want,
    e: &TExpr,
) -> Result<Val, OutOfMemory>
    requires ready { IsReady around.now net.old stored.old.locations.items ends.old }
    requires can { CanWalk around.now (want_of want) (exp_of around.now e.now) }
    ensures grown { Grown net.old net.new }
    ensures ok { IfOk result (λ r. Walks around.now net.new (want_of want) (exp_of around.now e.now)
        stored.old.locations.items stored.new.locations.items ends.old ends.new r) }
{
    let t = &e.ctype;
    match &e.what {
        What::Comma(a, b) => {
            let left = comma_left(around, want, e, a, b);
            walk(around, net, stored, ends, Want::Value, left)?;
            let right = comma_right(around, want, e, a, b);
            let made = walk(around, net, stored, ends, want, right)?;
            Ok(made)
        }
        What::Assign(op, works, a, b) => {
            let left = first(around, want, e, a);
            let x = walk(around, net, stored, ends, left.want, left.e)?;
            let right = second(around, want, e, b);
            match operator(*op) {
                None => {
                    let y = walk(around, net, stored, ends, right.want, right.e)?;
                    let sides = Sides { left: x, right: y };
                    let made = apply_binary(around, net, stored, ends, want, e, sides)?;
                    Ok(made)
                }
                Some(by) => {
                    let place = as_set(net, x);
                    let old = wanted(around.here, net, stored, Want::Value, t, &place)?;
                    let y = walk(around, net, stored, ends, right.want, right.e)?;
                    let u = type_of(around, right.e);
                    let sum = combined(around.here, net, ends, by, works, t, u, &old, &y)?;
                    let made = assign(around.here, net, stored, ends, want, t, &place, &sum)?;
                    Ok(made)
                }
            }
        }
        What::Binary(_, a, b) | What::Index(a, b) => {
            let left = first(around, want, e, a);
            let x = walk(around, net, stored, ends, left.want, left.e)?;
            let right = second(around, want, e, b);
            let y = walk(around, net, stored, ends, right.want, right.e)?;
            let sides = Sides { left: x, right: y };
            let made = apply_binary(around, net, stored, ends, want, e, sides)?;
            Ok(made)
        }
        What::Cast(a)
        | What::Convert(a)
        | What::Unary(_, a)
        | What::PreInc(_, a)
        | What::PostInc(_, a)
        | What::Field(a, _, _, _) => {
            let operand = first(around, want, e, a);
            let x = walk(around, net, stored, ends, operand.want, operand.e)?;
            let made = apply_unary(around, net, stored, ends, want, e, x)?;
            Ok(made)
        }
        What::Param(_) | What::Local(_) => leaf(around, net, stored, ends, want, e),
        What::Global(_) | What::Function(_, _) => leaf(around, net, stored, ends, want, e),
        What::Str(_) | What::Int(_) | What::Char(_) => leaf(around, net, stored, ends, want, e),
        What::SizeofExpr(_, _) | What::SizeofType(_) => leaf(around, net, stored, ends, want, e),
        What::Temp(_) | What::TempPlace(_) => leaf(around, net, stored, ends, want, e),
        What::Cond(_, _, _) | What::Call(_, _) => Ok(Val::Unit),
    }
}
