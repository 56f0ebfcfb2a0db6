//! The expressions of the nodes of a graph, which may stand over kept operands.

ghost use Rattle.std.specs.Prelude.{◌≡◌, IfOk};
ghost use Rattle.bit_net.specs.Runs.{Grown};
ghost use Rattle.flow_graph.specs.Expressions as graph;
ghost use Rattle.run_values.specs.Seen.{want_of};
ghost use Rattle.sc_flow.specs.Over.{over};
ghost use Rattle.sc_flow.specs.Seen.{expression, truth};
ghost use Rattle.sc_world.specs.Tree as tree;
ghost use Rattle.sc_world.specs.View.{type};
ghost use Rattle.expr_fits.specs.Around.{exp_of, source_of};
ghost use Rattle.expr_fits.specs.Fits.{CanWalk};
ghost use Rattle.expr_fits.specs.Operands as operand;
ghost use Rattle.expr_fits.specs.declared.operands.Arity.TheVariants as arity;
ghost use Rattle.tr_walk.specs.Operands as spec;
ghost use Rattle.tr_walk.specs.Walks.{IsReady, Walks};

use crate::expressions::walk;
use crate::leaves::{kept_place, number_of, temp};
use crate::operators::{Sides, apply_binary, apply_unary};
use bit_net::{Net, OutOfMemory};
use expr_fits::{Arity, Around, arity_of, type_of};
use gate_runs::Ends;
use gl_store::{Store, Val};
use layout_base::is_cell;
use run_values::Want;
use sc_flow::Expression;
use sc_tree::ctype::{CType, IntKind};
use sc_typed::{TExpr, What};

/// The temps that keep the first and the second operand of an expression.
#[derive(Clone, Copy, Debug, PartialEq, Eq)]
pub struct KeptIn {
    pub first: u32,
    pub second: u32,
}

// The number that `sizeof` gives of an expression.
fn size_of(around: &Around, e: &TExpr) -> Option<u64>
    ensures { result ≡ spec.size_of (exp_of around.now e.now) }
{
    match &e.what {
        What::SizeofExpr(_, n) => Some(*n),
        What::Comma(_, _) | What::Cond(_, _, _) | What::Call(_, _) => None,
        What::Assign(_, _, _, _) | What::Binary(_, _, _) | What::Index(_, _) => None,
        What::Cast(_) | What::Convert(_) | What::Unary(_, _) => None,
        What::PreInc(_, _) | What::PostInc(_, _) | What::Field(_, _, _, _) => None,
        What::SizeofType(_) | What::Int(_) | What::Char(_) => None,
        What::Param(_) | What::Local(_) | What::Global(_) => None,
        What::Function(_, _) | What::Str(_) => None,
        What::Temp(_) | What::TempPlace(_) => None,
    }
}

// The gates of what has no operands that are kept: it stands as in the text, but for the size of an expression.
fn alone(
    around: &Around,
    net: &mut Net,
    stored: &mut Store,
    ends: &mut Ends,
    want: Want,
    e: &TExpr,
    kept: KeptIn,
) -> Result<Val, OutOfMemory>
    requires ready { IsReady around.now net.old stored.old.locations.items ends.old }
    requires can { CanWalk around.now (want_of want) (over (exp_of around.now e.now) kept.first kept.second) }
    requires alone { operand.arity_of (exp_of around.now e.now) ≡ arity.Nullary }
    ensures grown { Grown net.old net.new }
    ensures ok { IfOk result (λ r. Walks around.now net.new (want_of want) (over (exp_of around.now e.now) kept.first kept.second)
        stored.old.locations.items stored.new.locations.items ends.old ends.new r) }
{
    match size_of(around, e) {
        None => {
            let made = walk(around, net, stored, ends, want, e)?;
            Ok(made)
        }
        Some(n) => {
            let made = number_of(around, net, n, type_of(around, e))?;
            Ok(made)
        }
    }
}

/// The gates of an expression of the text whose operands are kept in temps.
pub fn apply(
    around: &Around,
    net: &mut Net,
    stored: &mut Store,
    ends: &mut Ends,
    want: Want,
    e: &TExpr,
    kept: KeptIn,
) -> Result<Val, OutOfMemory>
    requires ready { IsReady around.now net.old stored.old.locations.items ends.old }
    requires can { CanWalk around.now (want_of want) (over (exp_of around.now e.now) kept.first kept.second) }
    ensures grown { Grown net.old net.new }
    ensures ok { IfOk result (λ r. Walks around.now net.new (want_of want) (over (exp_of around.now e.now) kept.first kept.second)
        stored.old.locations.items stored.new.locations.items ends.old ends.new r) }
{
    match arity_of(around, e) {
        Arity::Nullary => alone(around, net, stored, ends, want, e, kept),
        Arity::Unary => {
            let x = temp(around, net, kept.first)?;
            let made = apply_unary(around, net, stored, ends, want, e, x)?;
            Ok(made)
        }
        Arity::Binary => {
            let left = temp(around, net, kept.first)?;
            let right = temp(around, net, kept.second)?;
            let sides = Sides { left, right };
            let made = apply_binary(around, net, stored, ends, want, e, sides)?;
            Ok(made)
        }
    }
}

// The value of an object whose place was kept, read as a scalar.
fn former(
    around: &Around,
    net: &mut Net,
    stored: &Store,
    ends: &Ends,
    want: Want,
    t: &CType,
    number: u32,
) -> Result<Val, OutOfMemory>
    requires ready { IsReady around.now net.old stored.now.locations.items ends.now }
    requires can { CanWalk around.now (want_of want) (tree.TempPlace number (graph.as_scalar (type t.now))) }
    ensures grown { Grown net.old net.new }
    ensures ok { IfOk result (λ r. Walks around.now net.new (want_of want) (tree.TempPlace number (graph.as_scalar (type t.now)))
        stored.now.locations.items stored.now.locations.items ends.now ends.now r) }
{
    if is_cell(t) {
        kept_place(around, net, stored, ends, want, t, number)
    } else {
        let int = CType::Int(IntKind::Int);
        kept_place(around, net, stored, ends, want, &int, number)
    }
}

// 1 or 0.
fn number_for(holds: bool) -> u64
    ensures { result ≡ truth holds }
{
    if holds { 1 } else { 0 }
}

/// The gates of the expression of a node of a graph: its value, or its place as the pointer to it. After a refusal of memory
/// the store may be written in part, and is not to be used again.
pub fn walk_node(
    around: &Around,
    net: &mut Net,
    stored: &mut Store,
    ends: &mut Ends,
    want: Want,
    e: &Expression,
) -> Result<Val, OutOfMemory>
    requires ready { IsReady around.now net.old stored.old.locations.items ends.old }
    requires can { CanWalk around.now (want_of want) (expression (source_of around.now).structs e.now) }
    ensures grown { Grown net.old net.new }
    ensures ok { IfOk result (λ r. Walks around.now net.new (want_of want) (expression (source_of around.now).structs e.now)
        stored.old.locations.items stored.new.locations.items ends.old ends.new r) }
{
    match e {
        Expression::Source(e) => {
            let made = walk(around, net, stored, ends, want, e)?;
            Ok(made)
        }
        Expression::Over(e, x, y) => {
            let kept = KeptIn {
                first: *x,
                second: *y,
            };
            let made = apply(around, net, stored, ends, want, e, kept)?;
            Ok(made)
        }
        Expression::Temp(n, _) => {
            let made = temp(around, net, *n)?;
            Ok(made)
        }
        Expression::TempPlace(n, t) => {
            let made = kept_place(around, net, stored, ends, want, t, *n)?;
            Ok(made)
        }
        Expression::Former(n, t) => {
            let made = former(around, net, stored, ends, want, t, *n)?;
            Ok(made)
        }
        Expression::Truth(holds, t) => {
            let made = number_of(around, net, number_for(*holds), t)?;
            Ok(made)
        }
        Expression::Nothing => Ok(Val::Unit),
    }
}
