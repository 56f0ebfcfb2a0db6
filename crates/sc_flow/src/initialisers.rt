// Declarations and initialisers (C11 6.7.9). The last declarator, and the last value in braces, is made first.

ghost use Rattle.std.specs.Prelude.{◌≡◌, ◌+◌, map, IfOk};
ghost use Rattle.sc_world.specs.View as view;
ghost use Rattle.flow_graph.specs.Expressions.{unroll};
ghost use Rattle.flow_graph.specs.Statements as spec;
ghost use Rattle.sc_flow.specs.Seen as seen;
ghost use Rattle.sc_flow.specs.Steps as steps;

use crate::aims::Aim;
use crate::expressions::expression;
use crate::growing::{Growing, added, counted};
use crate::node::{Expression, Node, Numbers, Want};
use crate::operands::One;
use crate::questions::{is_easy, is_scalar};
use sc_base::OutOfMemory;
use sc_gather::Context;
use sc_typed::{Declared, TDeclarator, TExpr, TInit, TInitItem};

/// What takes the value of an initialiser: a local, or a slot that keeps its cells.
#[derive(Clone, Copy)]
pub enum Taker {
    Local(u32),
    Slot(u32),
}

// The node that takes what an expression gives.
fn taking<'p>(here: &Context, taker: Taker, expression: Expression<'p>, next: u32) -> Node<'p>
    ensures { seen.node (seen.structs_of here.now) result
        ≡ seen.taking taker (seen.expression (seen.structs_of here.now) expression.entry) next }
{
    match taker {
        Taker::Local(local) => Node::Set {
            local,
            expression,
            next,
        },
        Taker::Slot(slot) => Node::KeepCells {
            slot,
            expression,
            next,
        },
    }
}

// A value that is given: a scalar by its value, anything else by its object.
fn given<'p>(
    g: &mut Growing<'p>,
    here: &Context<'p, '_>,
    taker: Taker,
    e: &'p TExpr,
    turn: u32,
    next: u32,
) -> Result<u32, OutOfMemory>
    ensures { IfOk result (λ at. (at, seen.growing (seen.structs_of here.now) g.new)
        ≡ steps.given (seen.taking taker) (view.exp (seen.structs_of here.now) e.now) (unroll (view.exp (seen.structs_of here.now) e.now) turn) next
        (seen.growing (seen.structs_of here.now) g.old)) }
{
    if is_easy(here, e) {
        return g.put(here, taking(here, taker, Expression::Source(e), next));
    }
    let x = g.fresh(here, 1)?;
    let t = here.type_of(e);
    if is_scalar(t) {
        let at = g.put(here, taking(here, taker, Expression::Temp(x, t), next))?;
        expression(g, here, e, turn, Aim::Into(Want::Value, x, at))
    } else {
        let at = g.put(here, taking(here, taker, Expression::TempPlace(x, t), next))?;
        expression(g, here, e, turn, Aim::Into(Want::Place, x, at))
    }
}

// The values in braces, each kept in a slot.
fn values<'p>(
    g: &mut Growing<'p>,
    here: &Context<'p, '_>,
    items: &'p [TInitItem],
    turn: u32,
    first: u32,
    next: u32,
) -> Result<u32, OutOfMemory>
    ensures { IfOk result (λ at. (at, seen.growing (seen.structs_of here.now) g.new)
        ≡ spec.all_kept (map (view.given (seen.structs_of here.now)) items.now) turn first next (seen.growing (seen.structs_of here.now) g.old)) }
{
    let mut at = next;
    let mut k = items.len();
    while k > 0 {
        k -= 1;
        let slot = added(first, counted(k)?)?;
        at = given(g, here, Taker::Slot(slot), &items[k].value, turn, at)?;
    }
    Ok(at)
}

// The node that fills a local from values in braces.
fn fills<'p>(
    g: &mut Growing<'p>,
    here: &Context<'p, '_>,
    local: u32,
    items: &'p [TInitItem],
    next: u32,
) -> Result<One, OutOfMemory>
    ensures { IfOk result (λ s. (s, seen.growing (seen.structs_of here.now) g.new)
        ≡ steps.fills local (map (view.given (seen.structs_of here.now)) items.now) next (seen.growing (seen.structs_of here.now) g.old)) }
{
    let count = counted(items.len())?;
    let first = g.fresh_slots(here, count)?;
    let slots = Numbers { first, count };
    let next = g.put(
        here,
        Node::Fill {
            local,
            items,
            slots,
            next,
        },
    )?;
    Ok(One {
        operand: first,
        next,
    })
}

// The initialiser of a local.
fn initialised<'p>(
    g: &mut Growing<'p>,
    here: &Context<'p, '_>,
    local: u32,
    init: &'p Option<TInit>,
    turn: u32,
    next: u32,
) -> Result<u32, OutOfMemory>
    ensures { IfOk result (λ at. (at, seen.growing (seen.structs_of here.now) g.new)
        ≡ spec.initialised local (view.init_if (seen.structs_of here.now) init.now) turn next (seen.growing (seen.structs_of here.now) g.old)) }
{
    match init {
        None => Ok(next),
        Some(init) => match init {
            TInit::One(e) => given(g, here, Taker::Local(local), e, turn, next),
            TInit::Braces(items) => {
                let s = fills(g, here, local, items.as_slice(), next)?;
                values(g, here, items.as_slice(), turn, s.operand, s.next)
            }
        },
    }
}

// A declarator; one that declares no local does nothing.
fn declarator<'p>(
    g: &mut Growing<'p>,
    here: &Context<'p, '_>,
    d: &'p TDeclarator,
    turn: u32,
    next: u32,
) -> Result<u32, OutOfMemory>
    ensures { IfOk result (λ at. (at, seen.growing (seen.structs_of here.now) g.new)
        ≡ spec.declared_by d.now.declared (view.init_if (seen.structs_of here.now) d.now.init) turn next (seen.growing (seen.structs_of here.now) g.old)) }
{
    match d.declared {
        Declared::Local(local) => initialised(g, here, local, &d.init, turn, next),
        Declared::Global(_) | Declared::Function => Ok(next),
    }
}

/// Declarators, in a turn of the loops round them.
pub fn declarators<'p>(
    g: &mut Growing<'p>,
    here: &Context<'p, '_>,
    list: &'p [TDeclarator],
    turn: u32,
    next: u32,
) -> Result<u32, OutOfMemory>
    ensures { IfOk result (λ at. (at, seen.growing (seen.structs_of here.now) g.new)
        ≡ spec.declarators (map (view.dec (seen.structs_of here.now)) list.now) turn next (seen.growing (seen.structs_of here.now) g.old)) }
{
    let mut at = next;
    let mut k = list.len();
    while k > 0 {
        k -= 1;
        at = declarator(g, here, &list[k], turn, at)?;
    }
    Ok(at)
}
