//! Expressions whose run begins where a gate holds.

ghost use Rattle.std.specs.Prelude.{◌≡◌, ℕ, ◌^◌, ◌<◌, ◌≤◌, length, IfOk};
ghost use Rattle.bit_net.specs.Runs.{Grown};
ghost use Rattle.gate_places.specs.Places.{IsLaid};
ghost use Rattle.gl_store.specs.Meets.{locations_top};
ghost use Rattle.layout_base.specs.Seen as laid;
ghost use Rattle.run_values.specs.Seen.{want_of};
ghost use Rattle.sc_world.specs.Eval as eval;
ghost use Rattle.expr_fits.specs.Around.{exp_of, layout_of, source_of, temps_of};
ghost use Rattle.tr_walk.specs.Evaled.{IsEvaled};
ghost use Rattle.expr_fits.specs.Temps.{temps_top};
ghost use Rattle.expr_fits.specs.Fits.{CanWalk};
ghost use Rattle.tr_walk.specs.Walks.{CanBegin};

use crate::expressions::walk;
use bit_net::{Gate, Net, OutOfMemory};
use expr_fits::Around;
use gate_runs::Ends;
use gl_store::{Store, Val};
use run_values::Want;
use sc_typed::TExpr;
use std::alloc::Global;

/// What an expression gives, and where its run stands behind it.
#[derive(Drop)]
pub struct Evaled {
    /// The value, or the pointer to the place.
    pub val: Val,
    /// Holds where the run goes on.
    pub live: Gate,
    /// One gate for each reason, in the order in which reasons count: the run was set aside for it here.
    pub asides: Vec<Gate>,
}

// Begins a run where the gate holds, and walks over the expression.
fn begin(
    alloc: Global,
    around: &Around,
    net: &mut Net,
    stored: &mut Store,
    live: Gate,
    want: Want,
    e: &TExpr,
) -> Result<Evaled, OutOfMemory>
    requires ready { CanBegin around.now net.old stored.old.locations.items live.at }
    requires can { CanWalk around.now (want_of want) (exp_of around.now e.now) }
    ensures grown { Grown net.old net.new }
    ensures ok { IfOk result (λ r. IsEvaled around.now net.new (want_of want) (exp_of around.now e.now) live.at
        stored.old.locations.items stored.new.locations.items r) }
{
    let mut ends = Ends::new(alloc, net, live, 0)?;
    let val = walk(around, net, stored, &mut ends, want, e)?;
    let Ends { live, asides, .. } = ends;
    Ok(Evaled { val, live, asides })
}

/// The value of an expression of a node of a graph, in a run that begins where the gate holds.
pub fn eval(
    alloc: Global,
    around: &Around,
    net: &mut Net,
    stored: &mut Store,
    live: Gate,
    e: &TExpr,
) -> Result<Evaled, OutOfMemory>
    requires ready { CanBegin around.now net.old stored.old.locations.items live.at }
    requires can { CanWalk around.now eval.Value (exp_of around.now e.now) }
    ensures grown { Grown net.old net.new }
    ensures ok { IfOk result (λ r. IsEvaled around.now net.new eval.Value (exp_of around.now e.now) live.at
        stored.old.locations.items stored.new.locations.items r) }
{
    begin(alloc, around, net, stored, live, Want::Value, e)
}

/// The place of an expression of a node of a graph, in a run that begins where the gate holds.
pub fn place(
    alloc: Global,
    around: &Around,
    net: &mut Net,
    stored: &mut Store,
    live: Gate,
    e: &TExpr,
) -> Result<Evaled, OutOfMemory>
    requires ready { CanBegin around.now net.old stored.old.locations.items live.at }
    requires can { CanWalk around.now eval.Place' (exp_of around.now e.now) }
    ensures grown { Grown net.old net.new }
    ensures ok { IfOk result (λ r. IsEvaled around.now net.new eval.Place' (exp_of around.now e.now) live.at
        stored.old.locations.items stored.new.locations.items r) }
{
    begin(alloc, around, net, stored, live, Want::Place, e)
}
