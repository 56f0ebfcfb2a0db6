// The gates of a body that is expressions alone, one after the other.

ghost use Rattle.std.specs.Prelude.{◌≡◌, ℕ, ◌^◌, ◌<◌, length, IfOk, IfSome};
ghost use Rattle.bit_net.specs.Runs.{Grown};
ghost use Rattle.bit_net.specs.Circuit.{input_count};
ghost use Rattle.gate_entry.specs.Entry.{IsEntered};
ghost use Rattle.layout_base.specs.Seen as laid;
ghost use Rattle.run_world.specs.Seen as seen;
ghost use Rattle.tr_walk.specs.Walks.{CanBegin};

use bit_net::{Gate, Net, OutOfMemory};
use expr_fits::{Around, can_walk};
use gate_entry::entered;
use gl_store::Store;
use layout_lookup::Lookup;
use run_values::Want;
use run_world::Here;
use sc_tree::op::UnaryOp;
use sc_typed::{TDeclarator, TExpr, TStmt, What};
use std::alloc::Global;
use tr_walk::{Evaled, eval, place};

// An expression of a body, and what is wanted of it.
#[derive(Clone, Copy)]
struct Part<'p> {
    want: Want,
    e: &'p TExpr,
}

/// What an expression gives, and how many gates were made for it.
#[derive(Drop)]
pub struct Made {
    pub evaled: Evaled,
    pub gates: usize,
}

/// The gates of a body.
#[derive(Drop)]
pub struct Gates {
    pub net: Net,
    /// The store behind the body.
    pub stored: Store,
    pub made: Vec<Made>,
}

// Of `& e` the place of `e` is asked, so that places are tried too.
fn part_of(e: &TExpr) -> Part<'_> {
    match &e.what {
        What::Unary(UnaryOp::Address, a) => Part {
            want: Want::Place,
            e: a.get(),
        },
        _ => Part {
            want: Want::Value,
            e,
        },
    }
}

// Whether each local begins with 0 or null, as the store at entry has it.
fn has_no_init(declared: &[TDeclarator]) -> bool {
    for one in declared {
        if one.init.is_some() {
            return false;
        }
    }
    true
}

// The expressions of a body; none where something else stands in it than these and locals without a value, or where it does
// not end with `return e ;`.
fn parts(alloc: Global, body: &TStmt) -> Result<Option<Vec<Part<'_>>>, OutOfMemory> {
    let TStmt::Block(items, _, _) = body else {
        return Ok(None);
    };
    let mut parts = Vec::new(alloc);
    let mut gives = false;
    for item in items.as_slice() {
        match item {
            TStmt::Decl(declared, _) if !gives && has_no_init(declared.as_slice()) => {}
            TStmt::Expr(Some(e), _) if !gives => parts.push(part_of(e))?,
            TStmt::Return(Some(e), _) if !gives => {
                gives = true;
                parts.push(part_of(e))?;
            }
            _ => return Ok(None),
        }
    }
    Ok(if gives { Some(parts) } else { None })
}

// The gates of an expression, in a run that goes on where the gate holds; none where it has none.
#[tactic(auto, using(crate::proofs::Behind::begin_behind, crate::proofs::Behind::walks_untold))]
fn one_made(
    alloc: Global,
    around: &Around,
    net: &mut Net,
    stored: &mut Store,
    live: Gate,
    part: Part,
) -> Result<Option<Evaled>, OutOfMemory>
    requires ready { CanBegin around.now net.old stored.old.locations.items live.at }
    ensures grown { Grown net.old net.new }
    ensures ready { IfOk result (λ r. IfSome r (λ x. CanBegin around.now net.new stored.new.locations.items x.live.at)) }
{
    if !can_walk(around, &[], part.want, part.e) {
        return Ok(None);
    }
    match part.want {
        Want::Value => Ok(Some(eval(alloc, around, net, stored, live, part.e)?)),
        Want::Place => Ok(Some(place(alloc, around, net, stored, live, part.e)?)),
    }
}

// The gates of all expressions, each where the run goes on behind the one before it.
fn all_made(
    alloc: Global,
    around: &Around,
    net: &mut Net,
    stored: &mut Store,
    begins: Gate,
    parts: &[Part],
) -> Result<Option<Vec<Made>>, OutOfMemory>
    requires ready { CanBegin around.now net.old stored.old.locations.items begins.at }
    ensures grown { Grown net.old net.new }
{
    let mut made = Vec::new(alloc);
    let mut live = begins;
    for part in parts {
        let before = net.len();
        let Some(evaled) = one_made(alloc, around, net, stored, live, *part)? else {
            return Ok(None);
        };
        live = evaled.live;
        made.push(Made {
            evaled,
            gates: net.len().saturating_sub(before),
        })?;
    }
    Ok(Some(made))
}

// The gates of the expressions of a body; none where one of them has none.
fn walked(
    alloc: Global,
    here: &Here,
    layout: &Lookup,
    net: &mut Net,
    stored: &mut Store,
    parts: &[Part],
) -> Result<Option<Vec<Made>>, OutOfMemory>
    requires few { length (laid.layout_of layout.now.places.now).locations < 2 ^ 32 }
    requires same { laid.layout_of layout.now.places.now ≡ (seen.env here.now).layout }
    requires entered { IsEntered (seen.env here.now).source (seen.env here.now).layout net.old stored.old.locations.items }
    ensures grown { Grown net.old net.new }
{
    let begins = net.constant(true);
    let around = Around {
        here,
        layout,
        temps: &[],
    };
    all_made(alloc, &around, net, stored, begins, parts)
}

/// The gates of a body; none where it is no list of expressions that all have gates.
#[tactic(auto, unfolding(run_world::specs::Seen::env))]
pub fn gates_of(
    alloc: Global,
    here: &Here,
    layout: &Lookup,
    body: &TStmt,
) -> Result<Option<Gates>, OutOfMemory>
    requires few { length (laid.layout_of layout.now.places.now).locations < 2 ^ 32 }
    requires same { laid.layout_of layout.now.places.now ≡ (seen.env here.now).layout }
    ensures { IfOk result (λ r. IfSome r (λ g. input_count g.net ≡ (seen.env here.now).layout.bits)) }
{
    let Some(parts) = parts(alloc, body)? else {
        return Ok(None);
    };
    let mut net = Net::new(alloc, here.places.choice_len())?;
    let mut stored = entered(here, &mut net)?;
    match walked(alloc, here, layout, &mut net, &mut stored, parts.as_slice())? {
        None => Ok(None),
        Some(made) => Ok(Some(Gates { net, stored, made })),
    }
}
