// The gates of the expression of a node.

ghost use Rattle.std.specs.Prelude.{◌≡◌, ℕ, ◌<◌, Bool, true, length, IfOk};
ghost use Rattle.bit_net.specs.Runs.{Grown, Runs};
ghost use Rattle.flow_keeps.specs.Evaluates.{Evaluates, IsUsable};
ghost use Rattle.flow_turns.specs.Kept.{AreTemps};
ghost use Rattle.flow_gates.specs.Steps.{CanEvaluate, IsStepMade, IsStored};
ghost use Rattle.run_values.specs.Seen as run;
ghost use Rattle.sc_flow.specs.Seen as seen;
ghost use Rattle.tr_flow.specs.Seen.{source_of, layout_of};
ghost use Rattle.tr_flow.specs.Taken as spec;

use crate::stepping::Stepping;
use bit_net::{Gate, Net, OutOfMemory};
use expr_fits::Around;
use flow_turns::{Made, Temps};
use gate_runs::Ends;
use gl_store::Store;
use run_values::Want as Wanted;
use run_world::Here;
use sc_flow::{Expression, Want};
use tr_walk::walk_node;

// What is wanted, in the words of runs.
fn wanted(want: Want) -> Wanted
    ensures { run.want_of result ≡ seen.want_of want }
{
    match want {
        Want::Value => Wanted::Value,
        Want::Place => Wanted::Place,
    }
}

// Where what the step gives may be used: a value everywhere, a place where the step goes on.
fn sure_of(net: &Net, ends: &Ends, want: Want) -> Gate
    requires { ends.now.live.at < length net.now }
    ensures below { result.at < length net.now }
    ensures usable { (choice v : ℕ → Bool) → Runs net.now choice v → IsUsable (seen.want_of want) v ends.now.live.at result.at }
{
    match want {
        Want::Value => net.constant(true),
        Want::Place => ends.live,
    }
}

/// The gates of an expression, from where a gate holds.
#[tactic(auto, unfolding(run_world::specs::Seen::env))]
pub fn evaluate(
    steps: &Stepping,
    net: &mut Net,
    store: &mut Store,
    temps: &Temps,
    on: Gate,
    want: Want,
    e: &Expression,
) -> Result<Made, OutOfMemory>
    requires takes { spec.takes (source_of steps.now) e.now ≡ true }
    requires store { IsStored (source_of steps.now) (layout_of steps.now) net.old store.old }
    requires temps { AreTemps net.old temps.now }
    requires on { on.at < length net.old }
    requires can { CanEvaluate (source_of steps.now) (layout_of steps.now) temps.now (seen.want_of want) (seen.expression (source_of steps.now).structs e.now) }
    ensures grown { Grown net.old net.new }
    ensures made { IfOk result (λ made. IsStepMade (layout_of steps.now) net.new on store.new made) }
    ensures ok { IfOk result (λ made. Evaluates (source_of steps.now) (layout_of steps.now) temps.now net.new (seen.want_of want)
        (seen.expression (source_of steps.now).structs e.now) store.old.locations.items store.new.locations.items made) }
{
    let here = Here {
        ground: steps.given,
        places: steps.layout.places,
        choice: &[],
        turn: 0,
    };
    let around = Around {
        here: &here,
        layout: steps.layout,
        temps: temps.vals.as_slice(),
    };
    let mut ends = Ends::new(net.alloc(), net, on, steps.layout.places.count())?;
    let val = walk_node(&around, net, store, &mut ends, wanted(want), e)?;
    let sure = sure_of(net, &ends, want);
    Ok(Made {
        on,
        ends,
        val,
        sure,
    })
}
