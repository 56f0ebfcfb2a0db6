// The graph of a function.

ghost use Rattle.std.specs.Prelude.{◌≡◌, List as Items, map, IfOk};
ghost use Rattle.sc_gather.specs.Seen as gathered;
ghost use Rattle.sc_world.specs.Exec as exec;
ghost use Rattle.sc_world.specs.Source.{Struct};
ghost use Rattle.sc_world.specs.View.{stm};
ghost use Rattle.flow_graph.specs.Unrolled as spec;
ghost use Rattle.sc_flow.specs.Seen as seen;
ghost use Rattle.sc_flow.specs.Steps as steps;

use crate::growing::Growing;
use crate::node::Node;
use crate::statements::statement;
use crate::targets::Ways;
use sc_base::{List, OutOfMemory, Pos};
use sc_gather::Context;
use sc_typed::TStmt;
use scopes::Scopes;
use std::alloc::Global;
use sum_rows::What;

/// The graph of a function. Node 0 is its entry, and each node goes on at greater numbers. So many temps and slots are
/// numbered from 0 on.
#[derive(Drop)]
pub struct Flow<'p> {
    pub nodes: List<Node<'p>>,
    pub temps: u32,
    pub slots: u32,
}

impl<'p> Node<'p> {
    // Its numbers from the other end: `entry` is number 0.
    fn turned(self, entry: u32) -> Node<'p>
        ensures { (structs : Items Struct) → seen.node structs result ≡ spec.turned entry (seen.node structs self.entry) }
    {
        match self {
            Node::Keep {
                want,
                temp,
                expression,
                next,
            } => Node::Keep {
                want,
                temp,
                expression,
                next: entry.saturating_sub(next),
            },
            Node::KeepCells {
                slot,
                expression,
                next,
            } => Node::KeepCells {
                slot,
                expression,
                next: entry.saturating_sub(next),
            },
            Node::Call {
                calling,
                arguments,
                temp,
                next,
            } => Node::Call {
                calling,
                arguments,
                temp,
                next: entry.saturating_sub(next),
            },
            Node::Update {
                updating,
                want,
                place,
                former,
                right,
                temp,
                next,
            } => Node::Update {
                updating,
                want,
                place,
                former,
                right,
                temp,
                next: entry.saturating_sub(next),
            },
            Node::Set {
                local,
                expression,
                next,
            } => Node::Set {
                local,
                expression,
                next: entry.saturating_sub(next),
            },
            Node::Fill {
                local,
                items,
                slots,
                next,
            } => Node::Fill {
                local,
                items,
                slots,
                next: entry.saturating_sub(next),
            },
            Node::Branch { from, hit, miss } => Node::Branch {
                from,
                hit: entry.saturating_sub(hit),
                miss: entry.saturating_sub(miss),
            },
            Node::Choose {
                from,
                number,
                hit,
                miss,
            } => Node::Choose {
                from,
                number,
                hit: entry.saturating_sub(hit),
                miss: entry.saturating_sub(miss),
            },
            Node::Mark { pos, event, next } => Node::Mark {
                pos,
                event,
                next: entry.saturating_sub(next),
            },
            Node::MarkSwitch {
                pos,
                ctype,
                from,
                next,
            } => Node::MarkSwitch {
                pos,
                ctype,
                from,
                next: entry.saturating_sub(next),
            },
            Node::Exit { from } => Node::Exit { from },
            Node::SetAside { reason } => Node::SetAside { reason },
        }
    }
}

// All of them.
fn turn(nodes: &mut [Node], entry: u32)
    ensures { (structs : Items Struct) → map (seen.node structs) nodes.new ≡ map (spec.turned entry) (map (seen.node structs) nodes.old) }
{
    for k in 0..nodes.len() {
        nodes[k] = nodes[k].turned(entry);
    }
}

// The graph that grew, with its first node. Newer nodes are left out.
#[tactic(auto, unfolding(crate::specs::Seen::growing), using(crate::proofs::Nodes::cut_is))]
fn finished<'p>(g: Growing<'p>, here: &Context, entry: u32) -> Flow<'p>
    ensures { seen.flow (seen.structs_of here.now) result ≡ spec.flow_of (entry, seen.growing (seen.structs_of here.now) g.entry) }
{
    let Growing {
        mut nodes,
        temps,
        slots,
    } = g;
    nodes.truncate(entry as usize + 1);
    nodes.reverse();
    turn(&mut nodes, entry);
    Flow {
        nodes: List::from_vec(nodes),
        temps,
        slots,
    }
}

// The place of the brace that closes a body.
fn end_of(here: &Context, body: &TStmt) -> Pos
    ensures { result ≡ exec.end_of (stm (seen.structs_of here.now) body.now) }
{
    let nowhere = Pos {
        file: 0,
        line: 0,
        col: 0,
    };
    match body {
        TStmt::Block(_, _, end) => *end,
        TStmt::Decl(_, _)
        | TStmt::Expr(_, _)
        | TStmt::If(_, _, _, _)
        | TStmt::While(_, _, _)
        | TStmt::Do(_, _, _)
        | TStmt::For(_, _, _, _, _)
        | TStmt::Switch(_, _, _, _)
        | TStmt::Case(_, _, _)
        | TStmt::Default(_)
        | TStmt::Goto(_, _)
        | TStmt::Break(_)
        | TStmt::Continue(_)
        | TStmt::Return(_, _)
        | TStmt::Label(_, _, _) => nowhere,
    }
}

// What stands behind a body that ends at that brace.
fn ending(g: &mut Growing, here: &Context, pos: Pos) -> Result<u32, OutOfMemory>
    ensures { IfOk result (λ at. (at, seen.growing (seen.structs_of here.now) g.new)
        ≡ steps.ending pos (seen.growing (seen.structs_of here.now) g.old)) }
{
    let out = g.put(here, Node::Exit { from: None })?;
    g.put(
        here,
        Node::Mark {
            pos,
            event: What::End,
            next: out,
        },
    )
}

// The body, with what stands behind it; one that is not taken is an empty block.
fn body<'p>(alloc: Global, g: &mut Growing<'p>, here: &Context<'p, '_>) -> Result<u32, OutOfMemory>
    ensures { IfOk result (λ at. (at, seen.growing (seen.structs_of here.now) g.new)
        ≡ spec.body (gathered.source_of here.now).depth (gathered.source_of here.now).body (seen.growing (seen.structs_of here.now) g.old)) }
{
    match here.body() {
        None => {
            let nowhere = Pos {
                file: 0,
                line: 0,
                col: 0,
            };
            ending(g, here, nowhere)
        }
        Some(s) => {
            let end = ending(g, here, end_of(here, s))?;
            let ways = Ways {
                next: end,
                leave: end,
                again: end,
                lost: end,
            };
            let mut labels = Scopes::new(alloc);
            statement(alloc, g, here, here.depth(), &mut labels, s, 0, ways)
        }
    }
}

/// The graph of the function at hand, with its loops unrolled. A number of nodes, temps, slots or turns beyond 32 bits is
/// answered as want of memory.
pub fn unroll<'p>(alloc: Global, here: &Context<'p, '_>) -> Result<Flow<'p>, OutOfMemory>
    ensures { IfOk result (λ f. seen.flow (seen.structs_of here.now) f ≡ spec.flow (gathered.source_of here.now)) }
{
    let mut g = Growing::new(alloc);
    let entry = body(alloc, &mut g, here)?;
    Ok(finished(g, here, entry))
}
