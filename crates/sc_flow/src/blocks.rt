// Blocks and `switch` (C11 6.8.2, 6.8.4.2): where each item that can be sought begins.

ghost use Rattle.std.specs.Prelude.{◌≡◌, ◌<◌, ℕ, length, IfOk, OnOk};
ghost use Rattle.scopes.specs.Frames as frames;
ghost use Rattle.sc_world.specs.View.{stm, exp};
ghost use Rattle.flow_graph.specs.Statements as spec;
ghost use Rattle.sc_flow.specs.Seen as seen;
ghost use Rattle.sc_flow.specs.Steps as steps;

use crate::aims::Aim;
use crate::expressions::expression;
use crate::growing::Growing;
use crate::node::{Node, Want};
use crate::targets::{Ways, name_labels};
use sc_base::{OutOfMemory, Pos};
use sc_gather::Context;
use sc_typed::{TExpr, TStmt};
use scopes::Scopes;
use std::alloc::Global;

/// A `case` of a `switch`, with its node.
#[derive(Clone, Copy)]
pub struct Chosen {
    pub number: u64,
    pub at: u32,
}

/// A block, or what is left of one: where it begins, its cases, the first one last, and its `default`.
#[derive(Drop)]
pub struct Opened {
    pub at: u32,
    pub cases: Vec<Chosen>,
    pub default: Option<u32>,
}

/// The end of a block.
#[tactic(auto, unfolding(crate::specs::Seen::cases))]
pub fn closed(alloc: Global, ways: Ways) -> Opened
    ensures { (labels : frames.Frames ℕ) → seen.opened result labels ≡ spec.closed (seen.targets ways labels) }
{
    Opened {
        at: ways.next,
        cases: Vec::new(alloc),
        default: None,
    }
}

// The `case` that a statement is.
#[tactic(auto, unfolding(crate::specs::Seen::cases), using(crate::proofs::Nodes::put_step))]
fn case(cases: &mut Vec<Chosen>, here: &Context, s: &TStmt, at: u32) -> Result<(), OutOfMemory>
    ensures { OnOk result (seen.cases cases.new.items ≡ spec.cases_of (stm (seen.structs_of here.now) s.now) at (seen.cases cases.old.items)) }
{
    match s {
        TStmt::Case(number, _, _) => {
            cases.push(Chosen {
                number: *number,
                at,
            })?;
            Ok(())
        }
        TStmt::Block(_, _, _)
        | TStmt::Decl(_, _)
        | TStmt::Expr(_, _)
        | TStmt::If(_, _, _, _)
        | TStmt::While(_, _, _)
        | TStmt::Do(_, _, _)
        | TStmt::For(_, _, _, _, _)
        | TStmt::Switch(_, _, _, _)
        | TStmt::Default(_)
        | TStmt::Goto(_, _)
        | TStmt::Break(_)
        | TStmt::Continue(_)
        | TStmt::Return(_, _)
        | TStmt::Label(_, _, _) => Ok(()),
    }
}

// The `default` that a statement is, or that of the rest.
fn default(here: &Context, s: &TStmt, at: u32, rest: Option<u32>) -> Option<u32>
    ensures { result ≡ spec.default_of (stm (seen.structs_of here.now) s.now) at rest }
{
    match s {
        TStmt::Default(_) => Some(at),
        TStmt::Block(_, _, _)
        | TStmt::Decl(_, _)
        | TStmt::Expr(_, _)
        | TStmt::If(_, _, _, _)
        | TStmt::While(_, _, _)
        | TStmt::Do(_, _, _)
        | TStmt::For(_, _, _, _, _)
        | TStmt::Switch(_, _, _, _)
        | TStmt::Case(_, _, _)
        | TStmt::Goto(_, _)
        | TStmt::Break(_)
        | TStmt::Continue(_)
        | TStmt::Return(_, _)
        | TStmt::Label(_, _, _) => rest,
    }
}

/// An item in front of the rest of a block: it begins at that node.
pub fn open(
    opened: &mut Opened,
    labels: &mut Scopes<u32>,
    here: &Context,
    s: &TStmt,
    at: u32,
) -> Result<(), OutOfMemory>
    requires { 0 < length labels.old.blocks }
    ensures opened { OnOk result (seen.opened opened.new labels.new
        ≡ spec.opened (stm (seen.structs_of here.now) s.now) at (seen.opened opened.old labels.old)) }
    ensures round { OnOk result (frames.closed labels.new ≡ frames.closed labels.old) }
    ensures within { OnOk result (0 < length labels.new.blocks) }
{
    name_labels(labels, here, s, at)?;
    case(&mut opened.cases, here, s, at)?;
    opened.default = default(here, s, at, opened.default);
    opened.at = at;
    Ok(())
}

fn node_or(next: u32, at: Option<u32>) -> u32
    ensures { result ≡ spec.node_or next at }
{
    match at {
        None => next,
        Some(at) => at,
    }
}

// The cases of a `switch` in their order: each begins at its node where the value in the temp is its number.
#[tactic(auto, unfolding(crate::specs::Seen::cases))]
fn chain(
    g: &mut Growing,
    here: &Context,
    from: u32,
    cases: &[Chosen],
    default: u32,
) -> Result<u32, OutOfMemory>
    ensures { IfOk result (λ at. (at, seen.growing (seen.structs_of here.now) g.new)
        ≡ spec.chain from (seen.cases cases.now) default (seen.growing (seen.structs_of here.now) g.old)) }
{
    let mut at = default;
    for case in cases {
        at = g.put(
            here,
            Node::Choose {
                from,
                number: case.number,
                hit: case.at,
                miss: at,
            },
        )?;
    }
    Ok(at)
}

/// A `switch` whose items begin as told; behind it the walk goes on at `next`.
pub fn choose<'p>(
    g: &mut Growing<'p>,
    here: &Context<'p, '_>,
    e: &'p TExpr,
    pos: Pos,
    turn: u32,
    opened: &Opened,
    next: u32,
) -> Result<u32, OutOfMemory>
    ensures { IfOk result (λ at. (at, seen.growing (seen.structs_of here.now) g.new)
        ≡ steps.choose (exp (seen.structs_of here.now) e.now) pos turn (seen.cases opened.now.cases.items) (spec.node_or next opened.now.default)
        (seen.growing (seen.structs_of here.now) g.old)) }
{
    let from = g.fresh(here, 1)?;
    let default = node_or(next, opened.default);
    let first = chain(g, here, from, &opened.cases, default)?;
    let at = g.put(
        here,
        Node::MarkSwitch {
            pos,
            ctype: here.type_of(e),
            from,
            next: first,
        },
    )?;
    expression(g, here, e, turn, Aim::Into(Want::Value, from, at))
}
