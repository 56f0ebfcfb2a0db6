// Conditions, with the events that they leave, and what is evaluated for its effects alone.

ghost use Rattle.std.specs.Prelude.{◌≡◌, IfOk};
ghost use Rattle.sc_world.specs.View.{exp, exp_if};
ghost use Rattle.flow_graph.specs.Expressions.{unroll};
ghost use Rattle.flow_graph.specs.Statements as spec;
ghost use Rattle.sc_flow.specs.Seen as seen;

use crate::aims::Aim;
use crate::expressions::expression;
use crate::growing::Growing;
use crate::node::{Node, Want};
use sc_base::{OutOfMemory, Pos};
use sc_gather::Context;
use sc_typed::TExpr;
use sum_rows::What;

/// Of what a condition is.
#[derive(Clone, Copy)]
pub enum Tested {
    If,
    Loop,
}

// The event of a condition that holds or does not.
fn event(tested: Tested, holds: bool) -> What
    ensures { result ≡ seen.event_of tested holds }
{
    match tested {
        Tested::If => What::If(holds),
        Tested::Loop => What::Loop(holds),
    }
}

/// A condition, with its events behind it.
pub fn condition<'p>(
    g: &mut Growing<'p>,
    here: &Context<'p, '_>,
    e: &'p TExpr,
    turn: u32,
    pos: Pos,
    tested: Tested,
    hit: u32,
    miss: u32,
) -> Result<u32, OutOfMemory>
    ensures { IfOk result (λ at. (at, seen.growing (seen.structs_of here.now) g.new)
        ≡ spec.tested (unroll (exp (seen.structs_of here.now) e.now) turn) pos (seen.event_of tested) hit miss
        (seen.growing (seen.structs_of here.now) g.old)) }
{
    let held = g.put(
        here,
        Node::Mark {
            pos,
            event: event(tested, true),
            next: hit,
        },
    )?;
    let failed = g.put(
        here,
        Node::Mark {
            pos,
            event: event(tested, false),
            next: miss,
        },
    )?;
    expression(g, here, e, turn, Aim::Test(held, failed))
}

/// The condition of a loop; where there is none it holds.
pub fn loop_condition<'p>(
    g: &mut Growing<'p>,
    here: &Context<'p, '_>,
    e: Option<&'p TExpr>,
    turn: u32,
    pos: Pos,
    hit: u32,
    miss: u32,
) -> Result<u32, OutOfMemory>
    ensures { IfOk result (λ at. (at, seen.growing (seen.structs_of here.now) g.new)
        ≡ spec.test_or_true (seen.expression_if (seen.structs_of here.now) e.entry) turn pos hit miss
        (seen.growing (seen.structs_of here.now) g.old)) }
{
    match e {
        None => g.put(
            here,
            Node::Mark {
                pos,
                event: What::Loop(true),
                next: hit,
            },
        ),
        Some(e) => condition(g, here, e, turn, pos, Tested::Loop, hit, miss),
    }
}

/// An expression whose value nobody reads.
pub fn dropped<'p>(
    g: &mut Growing<'p>,
    here: &Context<'p, '_>,
    e: &'p TExpr,
    turn: u32,
    next: u32,
) -> Result<u32, OutOfMemory>
    ensures { IfOk result (λ at. (at, seen.growing (seen.structs_of here.now) g.new)
        ≡ spec.dropped (unroll (exp (seen.structs_of here.now) e.now) turn) next (seen.growing (seen.structs_of here.now) g.old)) }
{
    let x = g.fresh(here, 1)?;
    expression(g, here, e, turn, Aim::Into(Want::Value, x, next))
}

/// The same, where there is one.
pub fn dropped_if<'p>(
    g: &mut Growing<'p>,
    here: &Context<'p, '_>,
    e: Option<&'p TExpr>,
    turn: u32,
    next: u32,
) -> Result<u32, OutOfMemory>
    ensures { IfOk result (λ at. (at, seen.growing (seen.structs_of here.now) g.new)
        ≡ spec.dropped_if (seen.expression_if (seen.structs_of here.now) e.entry) turn next (seen.growing (seen.structs_of here.now) g.old)) }
{
    match e {
        None => Ok(next),
        Some(e) => dropped(g, here, e, turn, next),
    }
}

/// What may stand there, lent.
pub fn lent<'p>(here: &Context, e: &'p Option<TExpr>) -> Option<&'p TExpr>
    ensures { seen.expression_if (seen.structs_of here.now) result ≡ exp_if (seen.structs_of here.now) e.now }
{
    match e {
        None => None,
        Some(e) => Some(e),
    }
}

/// `return` (C11 6.8.6.4).
pub fn returning<'p>(
    g: &mut Growing<'p>,
    here: &Context<'p, '_>,
    e: &'p Option<TExpr>,
    turn: u32,
    pos: Pos,
) -> Result<u32, OutOfMemory>
    ensures { IfOk result (λ at. (at, seen.growing (seen.structs_of here.now) g.new)
        ≡ spec.returning (exp_if (seen.structs_of here.now) e.now) turn pos (seen.growing (seen.structs_of here.now) g.old)) }
{
    match e {
        None => {
            let next = g.put(here, Node::Exit { from: None })?;
            g.put(
                here,
                Node::Mark {
                    pos,
                    event: What::Return,
                    next,
                },
            )
        }
        Some(e) => {
            let x = g.fresh(here, 1)?;
            let next = g.put(here, Node::Exit { from: Some(x) })?;
            let mark = g.put(
                here,
                Node::Mark {
                    pos,
                    event: What::Return,
                    next,
                },
            )?;
            expression(g, here, e, turn, Aim::Into(Want::Value, x, mark))
        }
    }
}
