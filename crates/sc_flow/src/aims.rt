// Where an expression goes on.

ghost use Rattle.std.specs.Prelude.{◌≡◌, IfOk};
ghost use Rattle.sc_world.specs.View.{type};
ghost use Rattle.flow_graph.specs.Expressions as spec;
ghost use Rattle.sc_flow.specs.Seen as seen;
ghost use Rattle.sc_flow.specs.Steps as steps;

use crate::growing::Growing;
use crate::node::{Expression, Node, Want};
use sc_base::OutOfMemory;
use sc_gather::Context;
use sc_tree::ctype::CType;
use sc_tree::op::BinaryOp;

/// Where an expression goes on.
#[derive(Clone, Copy)]
pub enum Aim {
    /// Its value or its place is kept in that temp, and then the walk goes on at that node.
    Into(Want, u32, u32),
    /// At the first node where its value is not 0, else at the second.
    Test(u32, u32),
}

/// What is kept, in which temp, and where the walk goes on.
#[derive(Clone, Copy)]
pub struct Goal {
    pub want: Want,
    pub temp: u32,
    pub next: u32,
}

/// Where the walk goes on when a value is not 0, and when it is.
#[derive(Clone, Copy)]
pub struct Sides {
    pub hit: u32,
    pub miss: u32,
}

/// A test keeps the value, and branches on it.
pub fn goal_of(g: &mut Growing, here: &Context, aim: Aim) -> Result<Goal, OutOfMemory>
    ensures { IfOk result (λ k. (seen.goal k, seen.growing (seen.structs_of here.now) g.new)
        ≡ spec.goal (seen.aim aim) (seen.growing (seen.structs_of here.now) g.old)) }
{
    match aim {
        Aim::Into(want, temp, next) => Ok(Goal { want, temp, next }),
        Aim::Test(hit, miss) => {
            let temp = g.fresh(here, 1)?;
            let next = g.put(
                here,
                Node::Branch {
                    from: temp,
                    hit,
                    miss,
                },
            )?;
            Ok(Goal {
                want: Want::Value,
                temp,
                next,
            })
        }
    }
}

/// Keeps what an expression gives.
pub fn keep<'p>(
    g: &mut Growing<'p>,
    here: &Context<'p, '_>,
    expression: Expression<'p>,
    aim: Aim,
) -> Result<u32, OutOfMemory>
    ensures { IfOk result (λ at. (at, seen.growing (seen.structs_of here.now) g.new)
        ≡ spec.kept (seen.expression (seen.structs_of here.now) expression.entry) (seen.aim aim)
        (seen.growing (seen.structs_of here.now) g.old)) }
{
    let k = goal_of(g, here, aim)?;
    g.put(
        here,
        Node::Keep {
            want: k.want,
            temp: k.temp,
            expression,
            next: k.next,
        },
    )
}

// 1 or 0 of that type is kept.
fn truth<'p>(
    g: &mut Growing<'p>,
    here: &Context<'p, '_>,
    holds: bool,
    t: &'p CType,
    temp: u32,
    next: u32,
) -> Result<u32, OutOfMemory>
    ensures { IfOk result (λ at. (at, seen.growing (seen.structs_of here.now) g.new)
        ≡ steps.truth holds (type t.now) temp next (seen.growing (seen.structs_of here.now) g.old)) }
{
    g.put(
        here,
        Node::Keep {
            want: Want::Value,
            temp,
            expression: Expression::Truth(holds, t),
            next,
        },
    )
}

/// The sides of `&&` and `||` of that type. Where the value is wanted, each side keeps it.
pub fn sides_of<'p>(
    g: &mut Growing<'p>,
    here: &Context<'p, '_>,
    t: &'p CType,
    aim: Aim,
) -> Result<Sides, OutOfMemory>
    ensures { IfOk result (λ c. (seen.sides c, seen.growing (seen.structs_of here.now) g.new)
        ≡ spec.sides (type t.now) (seen.aim aim) (seen.growing (seen.structs_of here.now) g.old)) }
{
    match aim {
        Aim::Into(_, temp, next) => {
            let hit = truth(g, here, true, t, temp, next)?;
            let miss = truth(g, here, false, t, temp, next)?;
            Ok(Sides { hit, miss })
        }
        Aim::Test(hit, miss) => Ok(Sides { hit, miss }),
    }
}

/// The test of the left operand of `&&` or `||`; the right one begins at `second`.
pub fn first_test(op: BinaryOp, second: u32, sides: Sides) -> Aim
    ensures { seen.aim result ≡ spec.first_test op second (seen.sides sides) }
{
    match op {
        BinaryOp::Or => Aim::Test(sides.hit, second),
        BinaryOp::Mul
        | BinaryOp::Div
        | BinaryOp::Rem
        | BinaryOp::Add
        | BinaryOp::Sub
        | BinaryOp::ShiftLeft
        | BinaryOp::ShiftRight
        | BinaryOp::Less
        | BinaryOp::Greater
        | BinaryOp::LessEqual
        | BinaryOp::GreaterEqual
        | BinaryOp::Equal
        | BinaryOp::NotEqual
        | BinaryOp::BitAnd
        | BinaryOp::BitXor
        | BinaryOp::BitOr
        | BinaryOp::And => Aim::Test(second, sides.miss),
    }
}
