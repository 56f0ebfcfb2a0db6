//! What operators make of the values and places of their operands (C11 6.5.2 to 6.5.16).

ghost use Rattle.std.specs.Prelude.{◌≡◌, ◌≤◌, true, length, IfOk};
ghost use Rattle.bit_net.specs.Runs.{Grown};
ghost use Rattle.gate_places.specs.Places.{DoesMember, DoesMemberBehind};
ghost use Rattle.gate_runs.specs.Stands.{AreEnds};
ghost use Rattle.gl_sets.specs.Guards.{guards_top};
ghost use Rattle.gl_store.specs.Meets.{val_top};
ghost use Rattle.gl_store.specs.declared.values.Val.TheVariants as val;
ghost use Rattle.run_values.specs.Seen.{want_of};
ghost use Rattle.sc_world.specs.Tree.{is_integer, type_of};
ghost use Rattle.sc_world.specs.View.{type};
ghost use Rattle.expr_fits.specs.Around.{exp_of, layout_of, source_of};
ghost use Rattle.expr_fits.specs.Operands as operand;
ghost use Rattle.expr_fits.specs.Temps.{HasKindFor};
ghost use Rattle.expr_fits.specs.declared.operands.Arity.TheVariants as arity;
ghost use Rattle.tr_walk.specs.Behind.{BehindBoth, BehindOne, Changes};
ghost use Rattle.tr_walk.specs.Walks.{IsReady};

use crate::leaves::{as_set, as_word, convert};
use bit_net::{Net, OutOfMemory};
use expr_fits::{Around, member_name, type_of};
use gate_changes::counted;
use gate_copies::copy;
use gate_elements::array_index;
use gate_places::{
    assign, first_element, indirection, member_behind, member_of, pointer_index, wanted,
};
use gate_runs::Ends;
use gate_steps::store;
use gl_sets::Set;
use gl_store::{Store, Val};
use layout_base::is_cell;
use run_values::{Want, is_array};
use sc_base::NameId;
use sc_tree::ctype::CType;
use sc_tree::op::{Step, UnaryOp};
use sc_typed::{TExpr, What};
use tr_expr::{operation, unary};

/// The two sides of an operator: their values, or the pointers to their places.
#[derive(Drop)]
pub struct Sides {
    pub left: Val,
    pub right: Val,
}

// A member: the type of the expression before `.` or `->`, its name, and its type.
#[derive(Clone, Copy)]
struct Member<'t> {
    whole: &'t CType,
    name: NameId,
    ctype: &'t CType,
}

/// A number before and after it was counted up or down.
#[derive(Drop)]
pub struct Change {
    pub before: Val,
    pub after: Val,
}

// What is wanted of a member of the object behind a pointer.
fn behind(
    around: &Around,
    net: &mut Net,
    stored: &Store,
    ends: &mut Ends,
    want: Want,
    member: Member,
    pointer: &Set,
) -> Result<Val, OutOfMemory>
    requires ready { IsReady around.now net.old stored.now.locations.items ends.old }
    requires pointer { guards_top pointer.now.pairs.items ≤ length net.old }
    ensures grown { Grown net.old net.new }
    ensures ready { IfOk result (λ r. AreEnds net.new ends.new) }
    ensures locations { length ends.new.bads.items ≡ length ends.old.bads.items }
    ensures ok { IfOk result (λ r. DoesMemberBehind (source_of around.now) (layout_of around.now)
        net.new stored.now.locations.items (want_of want) (type member.entry.whole.now) (type member.entry.ctype.now) member.entry.name
        pointer.now.pairs.items ends.old ends.new r) }
{
    let (whole, t) = (member.whole, member.ctype);
    member_behind(
        around.here,
        around.layout,
        net,
        stored,
        ends,
        want,
        whole,
        t,
        member.name,
        pointer,
    )
}

// What is wanted of a member of an object.
fn inside(
    around: &Around,
    net: &mut Net,
    stored: &Store,
    ends: &Ends,
    want: Want,
    member: Member,
    object: &Set,
) -> Result<Val, OutOfMemory>
    requires ready { IsReady around.now net.old stored.now.locations.items ends.now }
    requires object { guards_top object.now.pairs.items ≤ length net.old }
    ensures grown { Grown net.old net.new }
    ensures ok { IfOk result (λ r. DoesMember (source_of around.now) (layout_of around.now)
        net.new stored.now.locations.items ends.now (want_of want) (type member.entry.ctype.now) member.entry.name object.now r) }
{
    let t = member.ctype;
    member_of(
        around.here,
        around.layout,
        net,
        stored,
        ends,
        want,
        t,
        member.name,
        object,
    )
}

// Counts the number at a place up or down.
#[tactic(auto, using(crate::proofs::Behind::found_kind))]
fn count_at(
    around: &Around,
    net: &mut Net,
    stored: &mut Store,
    ends: &mut Ends,
    step: Step,
    t: &CType,
    place: &Set,
) -> Result<Change, OutOfMemory>
    requires ready { IsReady around.now net.old stored.old.locations.items ends.old }
    requires integer { is_integer (type t.now) ≡ true }
    requires place { guards_top place.now.pairs.items ≤ length net.old }
    ensures grown { Grown net.old net.new }
    ensures ok { IfOk result (λ r. Changes around.now net.old net.new step (type t.now) place.now
        stored.old.locations.items stored.new.locations.items ends.old ends.new r) }
{
    let before = wanted(around.here, net, stored, Want::Value, t, place)?;
    let after = counted(around.here, net, ends, step, t, &before)?;
    store(net, stored, ends, place, &after)?;
    Ok(Change { before, after })
}

// No value, in place of one. It is dropped here, by one call in each branch.
fn nothing(x: Val) -> Val
    ensures { result ≡ val.Unit }
{
    drop(x);
    Val::Unit
}

// The same of two values.
fn nothing_of(left: Val, right: Val) -> Val
    ensures { result ≡ val.Unit }
{
    drop(left);
    drop(right);
    Val::Unit
}

/// What an operator with one operand makes of it.
pub fn apply_unary(
    around: &Around,
    net: &mut Net,
    stored: &mut Store,
    ends: &mut Ends,
    want: Want,
    e: &TExpr,
    x: Val,
) -> Result<Val, OutOfMemory>
    requires ready { IsReady around.now net.old stored.old.locations.items ends.old }
    requires one { operand.arity_of (exp_of around.now e.now) ≡ arity.Unary }
    requires applies { operand.Applies (layout_of around.now) (want_of want) (exp_of around.now e.now) }
    requires kind { HasKindFor (source_of around.now) (operand.first_wanted (exp_of around.now e.now)) (type_of (operand.first_operand (exp_of around.now e.now))) x }
    requires top { val_top x ≤ length net.old }
    ensures grown { Grown net.old net.new }
    ensures ok { IfOk result (λ r. BehindOne around.now net.old net.new (want_of want) (exp_of around.now e.now)
        stored.old.locations.items stored.new.locations.items ends.old ends.new x r) }
{
    let t = &e.ctype;
    match &e.what {
        What::Cast(a) | What::Convert(a) => {
            let from = type_of(around, a.get());
            if is_array(from) {
                let array = as_set(net, x);
                let first = first_element(around.layout, net, &array)?;
                Ok(Val::Set(first))
            } else {
                let made = convert(around, net, from, t, &x)?;
                Ok(made)
            }
        }
        What::Unary(op, a) => match op {
            UnaryOp::Address => Ok(x),
            UnaryOp::Deref => {
                let pointer = as_set(net, x);
                let made = indirection(around.here, net, stored, ends, want, t, &pointer)?;
                Ok(made)
            }
            UnaryOp::Not | UnaryOp::Plus | UnaryOp::Minus | UnaryOp::Complement => {
                let from = type_of(around, a.get());
                let made = unary(around.here, net, *op, from, t, &x)?;
                Ok(made)
            }
        },
        What::PreInc(step, _) => {
            let place = as_set(net, x);
            let made = count_at(around, net, stored, ends, *step, t, &place)?;
            Ok(made.after)
        }
        What::PostInc(step, _) => {
            let place = as_set(net, x);
            let made = count_at(around, net, stored, ends, *step, t, &place)?;
            Ok(made.before)
        }
        What::Field(a, number, at, arrow) => {
            let object = as_set(net, x);
            let member = Member {
                whole: type_of(around, a.get()),
                name: member_name(around, *number, *at),
                ctype: t,
            };
            if *arrow {
                let made = behind(around, net, stored, ends, want, member, &object)?;
                Ok(made)
            } else {
                let made = inside(around, net, stored, ends, want, member, &object)?;
                Ok(made)
            }
        }
        What::Comma(_, _) | What::Cond(_, _, _) | What::Call(_, _) => Ok(nothing(x)),
        What::Assign(_, _, _, _) | What::Binary(_, _, _) | What::Index(_, _) => Ok(nothing(x)),
        What::SizeofExpr(_, _) | What::SizeofType(_) => Ok(nothing(x)),
        What::Int(_) | What::Char(_) => Ok(nothing(x)),
        What::Param(_) | What::Local(_) | What::Global(_) => Ok(nothing(x)),
        What::Function(_, _) | What::Str(_) => Ok(nothing(x)),
        What::Temp(_) | What::TempPlace(_) => Ok(nothing(x)),
    }
}

/// What an operator with two operands makes of them; an assignment is a plain one. After a refusal of memory the store may
/// be written in part, and is not to be used again.
pub fn apply_binary(
    around: &Around,
    net: &mut Net,
    stored: &mut Store,
    ends: &mut Ends,
    want: Want,
    e: &TExpr,
    sides: Sides,
) -> Result<Val, OutOfMemory>
    requires ready { IsReady around.now net.old stored.old.locations.items ends.old }
    requires two { operand.arity_of (exp_of around.now e.now) ≡ arity.Binary }
    requires applies { operand.Applies (layout_of around.now) (want_of want) (exp_of around.now e.now) }
    requires left { HasKindFor (source_of around.now) (operand.first_wanted (exp_of around.now e.now)) (type_of (operand.first_operand (exp_of around.now e.now))) sides.left }
    requires right { HasKindFor (source_of around.now) (operand.second_wanted (exp_of around.now e.now)) (type_of (operand.second_operand (exp_of around.now e.now))) sides.right }
    requires left_top { val_top sides.left ≤ length net.old }
    requires right_top { val_top sides.right ≤ length net.old }
    ensures grown { Grown net.old net.new }
    ensures ok { IfOk result (λ r. BehindBoth around.now net.old net.new (want_of want) (exp_of around.now e.now)
        stored.old.locations.items stored.new.locations.items ends.old ends.new sides r) }
{
    let t = &e.ctype;
    let Sides { left, right } = sides;
    match &e.what {
        What::Assign(_, _, _, _) => {
            let place = as_set(net, left);
            if is_cell(t) {
                let made = assign(around.here, net, stored, ends, want, t, &place, &right)?;
                Ok(made)
            } else {
                let from = as_set(net, right);
                let made = copy(
                    around.here,
                    around.layout,
                    net,
                    stored,
                    ends,
                    t,
                    &place,
                    &from,
                )?;
                Ok(made)
            }
        }
        What::Binary(op, a, b) => {
            let (u, w) = (type_of(around, a.get()), type_of(around, b.get()));
            let made = operation(around.here, net, ends, *op, u, w, t, &left, &right)?;
            Ok(made)
        }
        What::Index(a, b) => {
            let index = as_word(around, net, type_of(around, b.get()), right)?;
            let whole = as_set(net, left);
            if is_array(type_of(around, a.get())) {
                let made = array_index(
                    around.here,
                    around.layout,
                    net,
                    stored,
                    ends,
                    want,
                    t,
                    &whole,
                    &index,
                )?;
                Ok(made)
            } else {
                let made = pointer_index(around.here, net, stored, ends, want, t, &whole, &index)?;
                Ok(made)
            }
        }
        What::Comma(_, _) | What::Cond(_, _, _) | What::Call(_, _) => Ok(nothing_of(left, right)),
        What::Cast(_) | What::Convert(_) | What::Unary(_, _) => Ok(nothing_of(left, right)),
        What::PreInc(_, _) | What::PostInc(_, _) | What::Field(_, _, _, _) => Ok(nothing_of(
            left, right,
        )),
        What::SizeofExpr(_, _) | What::SizeofType(_) => Ok(nothing_of(left, right)),
        What::Int(_) | What::Char(_) => Ok(nothing_of(left, right)),
        What::Param(_) | What::Local(_) | What::Global(_) => Ok(nothing_of(left, right)),
        What::Function(_, _) | What::Str(_) => Ok(nothing_of(left, right)),
        What::Temp(_) | What::TempPlace(_) => Ok(nothing_of(left, right)),
    }
}
