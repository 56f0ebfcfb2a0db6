// The nodes that read kept operands. They are made before what keeps the operands is.

ghost use Rattle.std.specs.Prelude.{◌≡◌, IfOk};
ghost use Rattle.sc_gather.specs.Seen.{arguments_of};
ghost use Rattle.sc_world.specs.View.{type, exp};
ghost use Rattle.flow_graph.specs.Expressions as spec;
ghost use Rattle.sc_flow.specs.Over.{over};
ghost use Rattle.sc_flow.specs.Seen as seen;
ghost use Rattle.sc_flow.specs.Steps as steps;

use crate::aims::{Aim, goal_of, keep};
use crate::growing::{Growing, counted};
use crate::node::{Calling, Expression, Node, Numbers, Updating, Want};
use sc_base::{List, OutOfMemory};
use sc_gather::Context;
use sc_tree::ctype::CType;
use sc_typed::TExpr;

/// A node that reads one operand, and the temp, or the first temp or slot, that it reads.
#[derive(Clone, Copy)]
pub struct One {
    pub operand: u32,
    pub next: u32,
}

/// A node that reads two operands, and their temps.
#[derive(Clone, Copy)]
pub struct Two {
    pub left: u32,
    pub right: u32,
    pub next: u32,
}

/// A node that changes an object, and the temps of its place, of its former value and of the right value.
#[derive(Clone, Copy)]
pub struct Three {
    pub place: u32,
    pub former: u32,
    pub right: u32,
    pub next: u32,
}

/// A node that makes of one kept operand what `e` makes of its operand.
pub fn read_one<'p>(
    g: &mut Growing<'p>,
    here: &Context<'p, '_>,
    e: &'p TExpr,
    aim: Aim,
) -> Result<One, OutOfMemory>
    ensures { IfOk result (λ s. (s, seen.growing (seen.structs_of here.now) g.new)
        ≡ steps.one (λ x. over (exp (seen.structs_of here.now) e.now) x 0) (seen.aim aim) (seen.growing (seen.structs_of here.now) g.old)) }
{
    let k = goal_of(g, here, aim)?;
    let operand = g.fresh(here, 1)?;
    let next = g.put(
        here,
        Node::Keep {
            want: k.want,
            temp: k.temp,
            expression: Expression::Over(e, operand, 0),
            next: k.next,
        },
    )?;
    Ok(One { operand, next })
}

/// A node that makes of two kept operands what `e` makes of its operands.
pub fn read_two<'p>(
    g: &mut Growing<'p>,
    here: &Context<'p, '_>,
    e: &'p TExpr,
    aim: Aim,
) -> Result<Two, OutOfMemory>
    ensures { IfOk result (λ s. (s, seen.growing (seen.structs_of here.now) g.new)
        ≡ steps.two (over (exp (seen.structs_of here.now) e.now)) (seen.aim aim) (seen.growing (seen.structs_of here.now) g.old)) }
{
    let k = goal_of(g, here, aim)?;
    let left = g.fresh(here, 1)?;
    let right = g.fresh(here, 1)?;
    let next = g.put(
        here,
        Node::Keep {
            want: k.want,
            temp: k.temp,
            expression: Expression::Over(e, left, right),
            next: k.next,
        },
    )?;
    Ok(Two { left, right, next })
}

/// A node for `+=` and its kin.
pub fn update<'p>(
    g: &mut Growing<'p>,
    here: &Context<'p, '_>,
    updating: Updating<'p>,
    aim: Aim,
) -> Result<Three, OutOfMemory>
    ensures { IfOk result (λ s. (s, seen.growing (seen.structs_of here.now) g.new)
        ≡ steps.update (seen.updating updating.entry) (seen.aim aim) (seen.growing (seen.structs_of here.now) g.old)) }
{
    let k = goal_of(g, here, aim)?;
    let place = g.fresh(here, 1)?;
    let former = g.fresh(here, 1)?;
    let right = g.fresh(here, 1)?;
    let next = g.put(
        here,
        Node::Update {
            updating,
            want: k.want,
            place,
            former,
            right,
            temp: k.temp,
            next: k.next,
        },
    )?;
    Ok(Three {
        place,
        former,
        right,
        next,
    })
}

/// Keeps the value that the object has before `+=` or its kin change it.
pub fn former<'p>(
    g: &mut Growing<'p>,
    here: &Context<'p, '_>,
    t: &'p CType,
    s: Three,
    next: u32,
) -> Result<u32, OutOfMemory>
    ensures { IfOk result (λ at. (at, seen.growing (seen.structs_of here.now) g.new)
        ≡ steps.former (type t.now) s.place s.former next (seen.growing (seen.structs_of here.now) g.old)) }
{
    g.put(
        here,
        Node::Keep {
            want: Want::Value,
            temp: s.former,
            expression: Expression::Former(s.place, t),
            next,
        },
    )
}

/// A node for a call with these arguments.
#[tactic(auto, using(crate::proofs::Easy::count_is))]
pub fn calls<'p>(
    g: &mut Growing<'p>,
    here: &Context<'p, '_>,
    calling: Calling<'p>,
    args: &List<TExpr>,
    aim: Aim,
) -> Result<One, OutOfMemory>
    ensures { IfOk result (λ s. (s, seen.growing (seen.structs_of here.now) g.new)
        ≡ steps.calls (seen.calling (seen.structs_of here.now) calling.entry) (spec.count (arguments_of (seen.structs_of here.now) args.now))
        (seen.aim aim) (seen.growing (seen.structs_of here.now) g.old)) }
{
    let count = counted(args.len())?;
    call_node(g, here, calling, count, aim)
}

// A node for a call with so many arguments.
fn call_node<'p>(
    g: &mut Growing<'p>,
    here: &Context<'p, '_>,
    calling: Calling<'p>,
    count: u32,
    aim: Aim,
) -> Result<One, OutOfMemory>
    ensures { IfOk result (λ s. (s, seen.growing (seen.structs_of here.now) g.new)
        ≡ steps.calls (seen.calling (seen.structs_of here.now) calling.entry) count (seen.aim aim) (seen.growing (seen.structs_of here.now) g.old)) }
{
    let k = goal_of(g, here, aim)?;
    let operand = g.fresh(here, count)?;
    let arguments = Numbers {
        first: operand,
        count,
    };
    let next = g.put(
        here,
        Node::Call {
            calling,
            arguments,
            temp: k.temp,
            next: k.next,
        },
    )?;
    Ok(One { operand, next })
}

/// The place that is kept in a temp, which typing never makes: the temp of it is kept as what gives nothing.
pub fn temp_place<'p>(
    g: &mut Growing<'p>,
    here: &Context<'p, '_>,
    t: &'p CType,
    aim: Aim,
) -> Result<u32, OutOfMemory>
    ensures { IfOk result (λ at. (at, seen.growing (seen.structs_of here.now) g.new)
        ≡ steps.temp_place (type t.now) (seen.aim aim) (seen.growing (seen.structs_of here.now) g.old)) }
{
    let k = goal_of(g, here, aim)?;
    let x = g.fresh(here, 1)?;
    let at = g.put(
        here,
        Node::Keep {
            want: k.want,
            temp: k.temp,
            expression: Expression::TempPlace(x, t),
            next: k.next,
        },
    )?;
    keep(g, here, Expression::Nothing, Aim::Into(Want::Value, x, at))
}
