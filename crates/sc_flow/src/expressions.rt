// The graph of an expression (C11 6.5). What reads the operands is made first, then the right operand, then the left one.

ghost use Rattle.std.specs.Prelude.{◌≡◌, ◌+◌, ◌&&◌, false, IfOk};
ghost use Rattle.sc_gather.specs.Seen.{arguments_of};
ghost use Rattle.sc_world.specs.Eval as eval;
ghost use Rattle.sc_world.specs.Tree as tree;
ghost use Rattle.sc_world.specs.View.{type, exp};
ghost use Rattle.flow_graph.specs.Expressions as spec;
ghost use Rattle.sc_flow.specs.Seen as seen;
ghost use Rattle.sc_flow.specs.Steps as steps;

use crate::aims::{Aim, first_test, goal_of, keep, sides_of};
use crate::growing::{Growing, added, counted};
use crate::node::{Calling, Expression, Updating, Want};
use crate::operands::{calls, former, read_one, read_two, temp_place, update};
use crate::questions::{
    arrow_want, is_easy, is_logical, is_name, operand_want, operator, right_want,
};
use sc_base::{List, OutOfMemory};
use sc_gather::Context;
use sc_tree::op::{BinaryOp, UnaryOp};
use sc_typed::{TExpr, What};

// The node at which an expression begins, and whether one node does for it.
#[derive(Clone, Copy)]
struct Made {
    at: u32,
    easy: bool,
}

// Two operands, of which the left one is made last.
fn both(left: Made, right: Made) -> Made
    ensures at { result.at ≡ left.at }
    ensures easy { result.easy ≡ left.easy && right.easy }
{
    Made {
        at: left.at,
        easy: left.easy && right.easy,
    }
}

/// Makes an expression that goes on where `aim` says, in a turn of the loops round it: the node at which it begins.
#[cycle(expression)]
#[tactic(auto, using(crate::proofs::Easy::easy_is_kept, crate::proofs::Easy::hard_is))]
pub fn expression<'p>(
    g: &mut Growing<'p>,
    here: &Context<'p, '_>,
    e: &'p TExpr,
    turn: u32,
    aim: Aim,
) -> Result<u32, OutOfMemory>
    ensures { IfOk result (λ at. (at, seen.growing (seen.structs_of here.now) g.new)
        ≡ spec.unroll (exp (seen.structs_of here.now) e.now) turn (seen.aim aim) (seen.growing (seen.structs_of here.now) g.old)) }
{
    if is_easy(here, e) {
        keep(g, here, Expression::Source(e), aim)
    } else {
        let made = hard(g, here, e, turn, aim)?;
        Ok(made.at)
    }
}

// Makes an operand, and tells whether it is easy. It is made as if it were not, since its own operands tell; where it is,
// what was made is taken back. So each part of an expression is gone over once.
#[cycle(expression)]
#[tactic(auto, using(crate::proofs::Easy::easy_is_kept, crate::proofs::Easy::hard_is, crate::proofs::Added::back_is))]
fn operand<'p>(
    g: &mut Growing<'p>,
    here: &Context<'p, '_>,
    e: &'p TExpr,
    turn: u32,
    aim: Aim,
) -> Result<Made, OutOfMemory>
    ensures made { IfOk result (λ m. (m.at, seen.growing (seen.structs_of here.now) g.new)
        ≡ spec.unroll (exp (seen.structs_of here.now) e.now) turn (seen.aim aim) (seen.growing (seen.structs_of here.now) g.old)) }
    ensures easy { IfOk result (λ m. m.easy ≡ spec.easy (exp (seen.structs_of here.now) e.now)) }
{
    let before = g.reached(here);
    let made = hard(g, here, e, turn, aim)?;
    if made.easy {
        g.take_back(here, before);
        let at = keep(g, here, Expression::Source(e), aim)?;
        Ok(Made { at, easy: true })
    } else {
        Ok(made)
    }
}

// An operand is kept, and one node reads it.
#[cycle(expression)]
fn with_one<'p>(
    g: &mut Growing<'p>,
    here: &Context<'p, '_>,
    e: &'p TExpr,
    want: Want,
    a: &'p TExpr,
    turn: u32,
    aim: Aim,
) -> Result<Made, OutOfMemory>
    ensures made { IfOk result (λ m. (m.at, seen.growing (seen.structs_of here.now) g.new)
        ≡ steps.with_one (exp (seen.structs_of here.now) e.now) (seen.want_of want) (spec.unroll (exp (seen.structs_of here.now) a.now) turn)
        (seen.aim aim) (seen.growing (seen.structs_of here.now) g.old)) }
    ensures easy { IfOk result (λ m. m.easy ≡ spec.easy (exp (seen.structs_of here.now) a.now)) }
{
    let s = read_one(g, here, e, aim)?;
    operand(g, here, a, turn, Aim::Into(want, s.operand, s.next))
}

// Two operands are kept, each as what is wanted of it, and one node reads them.
#[cycle(expression)]
fn with_two<'p>(
    g: &mut Growing<'p>,
    here: &Context<'p, '_>,
    e: &'p TExpr,
    left: (Want, &'p TExpr),
    right: (Want, &'p TExpr),
    turn: u32,
    aim: Aim,
) -> Result<Made, OutOfMemory>
    ensures made { IfOk result (λ m. (m.at, seen.growing (seen.structs_of here.now) g.new)
        ≡ steps.with_two (exp (seen.structs_of here.now) e.now) (seen.want_of left.entry.0) (spec.unroll (exp (seen.structs_of here.now) left.entry.1.now) turn)
        (seen.want_of right.entry.0) (spec.unroll (exp (seen.structs_of here.now) right.entry.1.now) turn)
        (seen.aim aim) (seen.growing (seen.structs_of here.now) g.old)) }
    ensures easy { IfOk result (λ m. m.easy ≡ spec.easy (exp (seen.structs_of here.now) left.entry.1.now) && spec.easy (exp (seen.structs_of here.now) right.entry.1.now)) }
{
    let s = read_two(g, here, e, aim)?;
    let second = operand(g, here, right.1, turn, Aim::Into(right.0, s.right, s.next))?;
    let first = operand(g, here, left.1, turn, Aim::Into(left.0, s.left, second.at))?;
    Ok(both(first, second))
}

// `+=` and its kin.
#[cycle(expression)]
fn with_update<'p>(
    g: &mut Growing<'p>,
    here: &Context<'p, '_>,
    updating: Updating<'p>,
    a: &'p TExpr,
    b: &'p TExpr,
    turn: u32,
    aim: Aim,
) -> Result<Made, OutOfMemory>
    ensures made { IfOk result (λ m. (m.at, seen.growing (seen.structs_of here.now) g.new)
        ≡ steps.with_update (seen.updating updating.entry) (spec.unroll (exp (seen.structs_of here.now) a.now) turn)
        (spec.unroll (exp (seen.structs_of here.now) b.now) turn) (seen.aim aim) (seen.growing (seen.structs_of here.now) g.old)) }
    ensures easy { IfOk result (λ m. m.easy ≡ spec.easy (exp (seen.structs_of here.now) a.now) && spec.easy (exp (seen.structs_of here.now) b.now)) }
{
    let s = update(g, here, updating, aim)?;
    let second = operand(g, here, b, turn, Aim::Into(Want::Value, s.right, s.next))?;
    let before = former(g, here, updating.ctype, s, second.at)?;
    let first = operand(g, here, a, turn, Aim::Into(Want::Place, s.place, before))?;
    Ok(both(first, second))
}

#[cycle(expression)]
fn comma<'p>(
    g: &mut Growing<'p>,
    here: &Context<'p, '_>,
    a: &'p TExpr,
    b: &'p TExpr,
    turn: u32,
    aim: Aim,
) -> Result<Made, OutOfMemory>
    ensures made { IfOk result (λ m. (m.at, seen.growing (seen.structs_of here.now) g.new)
        ≡ spec.comma (spec.unroll (exp (seen.structs_of here.now) a.now) turn) (spec.unroll (exp (seen.structs_of here.now) b.now) turn)
        (seen.aim aim) (seen.growing (seen.structs_of here.now) g.old)) }
    ensures easy { IfOk result (λ m. m.easy ≡ spec.easy (exp (seen.structs_of here.now) a.now) && spec.easy (exp (seen.structs_of here.now) b.now)) }
{
    let second = operand(g, here, b, turn, aim)?;
    let x = g.fresh(here, 1)?;
    let first = operand(g, here, a, turn, Aim::Into(Want::Value, x, second.at))?;
    Ok(both(first, second))
}

// `? :`, which no single node can be.
#[cycle(expression)]
fn conditional<'p>(
    g: &mut Growing<'p>,
    here: &Context<'p, '_>,
    a: &'p TExpr,
    b: &'p TExpr,
    c: &'p TExpr,
    turn: u32,
    aim: Aim,
) -> Result<Made, OutOfMemory>
    ensures made { IfOk result (λ m. (m.at, seen.growing (seen.structs_of here.now) g.new)
        ≡ spec.conditional (spec.unroll (exp (seen.structs_of here.now) a.now) turn) (spec.unroll (exp (seen.structs_of here.now) b.now) turn)
        (spec.unroll (exp (seen.structs_of here.now) c.now) turn) (seen.aim aim) (seen.growing (seen.structs_of here.now) g.old)) }
    ensures easy { IfOk result (λ m. m.easy ≡ false) }
{
    let hit = expression(g, here, b, turn, aim)?;
    let miss = expression(g, here, c, turn, aim)?;
    let at = expression(g, here, a, turn, Aim::Test(hit, miss))?;
    Ok(Made { at, easy: false })
}

// `&&` and `||` of two operands.
#[cycle(expression)]
fn logical<'p>(
    g: &mut Growing<'p>,
    here: &Context<'p, '_>,
    e: &'p TExpr,
    op: BinaryOp,
    operands: (&'p TExpr, &'p TExpr),
    turn: u32,
    aim: Aim,
) -> Result<Made, OutOfMemory>
    ensures made { IfOk result (λ m. (m.at, seen.growing (seen.structs_of here.now) g.new)
        ≡ spec.logical op (type e.now.ctype) (spec.unroll (exp (seen.structs_of here.now) operands.entry.0.now) turn)
        (spec.unroll (exp (seen.structs_of here.now) operands.entry.1.now) turn) (seen.aim aim) (seen.growing (seen.structs_of here.now) g.old)) }
    ensures easy { IfOk result (λ m. m.easy ≡ false) }
{
    let c = sides_of(g, here, &e.ctype, aim)?;
    let second = expression(g, here, operands.1, turn, Aim::Test(c.hit, c.miss))?;
    let first = first_test(op, second, c);
    let at = expression(g, here, operands.0, turn, first)?;
    Ok(Made { at, easy: false })
}

#[cycle(expression)]
fn address<'p>(
    g: &mut Growing<'p>,
    here: &Context<'p, '_>,
    a: &'p TExpr,
    turn: u32,
    aim: Aim,
) -> Result<Made, OutOfMemory>
    ensures made { IfOk result (λ m. (m.at, seen.growing (seen.structs_of here.now) g.new)
        ≡ spec.address (spec.unroll (exp (seen.structs_of here.now) a.now) turn) (seen.aim aim) (seen.growing (seen.structs_of here.now) g.old)) }
    ensures easy { IfOk result (λ m. m.easy ≡ spec.easy (exp (seen.structs_of here.now) a.now)) }
{
    let k = goal_of(g, here, aim)?;
    operand(g, here, a, turn, Aim::Into(Want::Place, k.temp, k.next))
}

// A call, of what the expression is.
#[cycle(expression)]
fn call<'p>(
    g: &mut Growing<'p>,
    here: &Context<'p, '_>,
    e: &'p TExpr,
    f: &'p TExpr,
    args: &'p List<TExpr>,
    turn: u32,
    aim: Aim,
) -> Result<Made, OutOfMemory>
    ensures made { IfOk result (λ m. (m.at, seen.growing (seen.structs_of here.now) g.new)
        ≡ steps.hard (tree.Call e.now.place (exp (seen.structs_of here.now) f.now) (arguments_of (seen.structs_of here.now) args.now) (type e.now.ctype)) turn
        (seen.aim aim) (seen.growing (seen.structs_of here.now) g.old)) }
    ensures easy { IfOk result (λ m. m.easy ≡ false) }
{
    let calling = Calling {
        place: e.place,
        callee: f,
        result: &e.ctype,
        turn,
    };
    let s = calls(g, here, calling, args, aim)?;
    let first = arguments(g, here, args, turn, s.operand, s.next)?;
    let at = callee(g, here, f, turn, first)?;
    Ok(Made { at, easy: false })
}

// What is kept as it stands, and whether it is easy.
fn leaf<'p>(
    g: &mut Growing<'p>,
    here: &Context<'p, '_>,
    expression: Expression<'p>,
    easy: bool,
    aim: Aim,
) -> Result<Made, OutOfMemory>
    ensures made { IfOk result (λ m. (m.at, seen.growing (seen.structs_of here.now) g.new)
        ≡ spec.kept (seen.expression (seen.structs_of here.now) expression.entry) (seen.aim aim) (seen.growing (seen.structs_of here.now) g.old)) }
    ensures easy { IfOk result (λ m. m.easy ≡ easy) }
{
    let at = keep(g, here, expression, aim)?;
    Ok(Made { at, easy })
}

// An expression as one with a call, `&&`, `||` or `? :` in it is made, and whether it is easy.
#[cycle(expression)]
fn hard<'p>(
    g: &mut Growing<'p>,
    here: &Context<'p, '_>,
    e: &'p TExpr,
    turn: u32,
    aim: Aim,
) -> Result<Made, OutOfMemory>
    ensures made { IfOk result (λ m. (m.at, seen.growing (seen.structs_of here.now) g.new)
        ≡ steps.hard (exp (seen.structs_of here.now) e.now) turn (seen.aim aim) (seen.growing (seen.structs_of here.now) g.old)) }
    ensures easy { IfOk result (λ m. m.easy ≡ spec.easy (exp (seen.structs_of here.now) e.now)) }
{
    match &e.what {
        What::Comma(a, b) => comma(g, here, a.get(), b.get(), turn, aim),
        What::Assign(op, works, a, b) => match operator(*op) {
            None => {
                let right = (right_want(&e.ctype), b.get());
                with_two(g, here, e, (Want::Place, a.get()), right, turn, aim)
            }
            Some(op) => {
                let updating = Updating {
                    op,
                    works,
                    ctype: &e.ctype,
                };
                with_update(g, here, updating, a.get(), b.get(), turn, aim)
            }
        },
        What::Cond(a, b, c) => conditional(g, here, a.get(), b.get(), c.get(), turn, aim),
        What::Binary(op, a, b) => {
            if is_logical(*op) {
                logical(g, here, e, *op, (a.get(), b.get()), turn, aim)
            } else {
                let left = (Want::Value, a.get());
                with_two(g, here, e, left, (Want::Value, b.get()), turn, aim)
            }
        }
        What::Cast(a) | What::Convert(a) => {
            with_one(g, here, e, operand_want(here, a.get()), a.get(), turn, aim)
        }
        What::Unary(op, a) => match op {
            UnaryOp::Address => address(g, here, a.get(), turn, aim),
            UnaryOp::Deref | UnaryOp::Not | UnaryOp::Plus | UnaryOp::Minus | UnaryOp::Complement =>
                { with_one(g, here, e, Want::Value, a.get(), turn, aim) }
        },
        What::PreInc(_, a) | What::PostInc(_, a) => {
            with_one(g, here, e, Want::Place, a.get(), turn, aim)
        }
        What::SizeofExpr(a, _) => {
            leaf(
                g,
                here,
                Expression::Over(e, 0, 0),
                is_easy(here, a.get()),
                aim,
            )
        }
        What::Index(a, b) => {
            let left = (operand_want(here, a.get()), a.get());
            with_two(g, here, e, left, (Want::Value, b.get()), turn, aim)
        }
        What::Call(f, args) => call(g, here, e, f.get(), args, turn, aim),
        What::Field(a, _, _, arrow) => {
            with_one(g, here, e, arrow_want(*arrow), a.get(), turn, aim)
        }
        What::Temp(_) => leaf(g, here, Expression::Nothing, false, aim),
        What::TempPlace(_) => {
            let at = temp_place(g, here, &e.ctype, aim)?;
            Ok(Made { at, easy: false })
        }
        What::SizeofType(_)
        | What::Param(_)
        | What::Local(_)
        | What::Global(_)
        | What::Function(_, _)
        | What::Int(_)
        | What::Char(_)
        | What::Str(_) => leaf(g, here, Expression::Source(e), true, aim),
    }
}

// What is called, where it is not a name, in front of the arguments: its value is kept in a temp that nobody reads.
#[cycle(expression)]
fn callee<'p>(
    g: &mut Growing<'p>,
    here: &Context<'p, '_>,
    f: &'p TExpr,
    turn: u32,
    next: u32,
) -> Result<u32, OutOfMemory>
    ensures { IfOk result (λ at. (at, seen.growing (seen.structs_of here.now) g.new)
        ≡ spec.called (eval.is_name (exp (seen.structs_of here.now) f.now)) (spec.unroll (exp (seen.structs_of here.now) f.now) turn) next
        (seen.growing (seen.structs_of here.now) g.old)) }
{
    if is_name(here, f) {
        Ok(next)
    } else {
        let x = g.fresh(here, 1)?;
        expression(g, here, f, turn, Aim::Into(Want::Value, x, next))
    }
}

// Makes the arguments of a call, the last one first; the first one is kept in that temp.
#[cycle(expression)]
fn arguments<'p>(
    g: &mut Growing<'p>,
    here: &Context<'p, '_>,
    args: &'p List<TExpr>,
    turn: u32,
    first: u32,
    next: u32,
) -> Result<u32, OutOfMemory>
    ensures { IfOk result (λ at. (at, seen.growing (seen.structs_of here.now) g.new)
        ≡ spec.unroll_all (arguments_of (seen.structs_of here.now) args.now) turn first next (seen.growing (seen.structs_of here.now) g.old)) }
{
    let items = args.as_slice();
    let mut at = next;
    let mut k = items.len();
    while k > 0 {
        k -= 1;
        let temp = added(first, counted(k)?)?;
        at = expression(g, here, &items[k], turn, Aim::Into(Want::Value, temp, at))?;
    }
    Ok(at)
}
