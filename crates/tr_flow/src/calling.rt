// The gates of the call of a node.

ghost use Rattle.std.specs.Prelude.{◌≡◌, ◌<◌, ◌≤◌, true, length, IfOk};
ghost use Rattle.bit_net.specs.Circuit.{input_count};
ghost use Rattle.bit_net.specs.Runs.{Grown};
ghost use Rattle.flow_keeps.specs.Calls.{Calls};
ghost use Rattle.flow_turns.specs.Kept.{AreTemps};
ghost use Rattle.flow_gates.specs.Steps.{CanCall, IsStepMade, IsStored};
ghost use Rattle.sc_flow.specs.Seen as seen;
ghost use Rattle.tr_flow.specs.Seen.{source_of, layout_of};
ghost use Rattle.tr_flow.specs.Taken as spec;

use crate::arguments::values_of;
use crate::stepping::Stepping;
use bit_net::{Gate, Net, OutOfMemory};
use flow_turns::{Made, Temps};
use gate_runs::Ends;
use gl_store::Store;
use run_world::Here;
use sc_flow::{Calling, Numbers};

/// The gates of a call with the arguments in these temps, from where a gate holds.
#[tactic(auto, unfolding(run_world::specs::Seen::env))]
pub fn call(
    steps: &Stepping,
    net: &mut Net,
    store: &mut Store,
    temps: &Temps,
    on: Gate,
    calling: &Calling,
    arguments: Numbers,
) -> Result<Made, OutOfMemory>
    requires makes { spec.makes (source_of steps.now) (layout_of steps.now) calling.now ≡ true }
    requires inputs { (layout_of steps.now).bits ≤ input_count net.old }
    requires store { IsStored (source_of steps.now) (layout_of steps.now) net.old store.old }
    requires temps { AreTemps net.old temps.now }
    requires on { on.at < length net.old }
    requires can { CanCall (source_of steps.now) (layout_of steps.now) temps.now
        (seen.calling (source_of steps.now).structs calling.now) (seen.all_of arguments) }
    ensures grown { Grown net.old net.new }
    ensures made { IfOk result (λ made. IsStepMade (layout_of steps.now) net.new on store.new made) }
    ensures ok { IfOk result (λ made. Calls (source_of steps.now) (layout_of steps.now) temps.now net.new
        (seen.calling (source_of steps.now).structs calling.now) (seen.all_of arguments) store.old.locations.items store.new.locations.items made) }
{
    let values = values_of(net, temps, arguments)?;
    let mut ends = Ends::new(net.alloc(), net, on, steps.layout.places.count())?;
    let here = Here {
        ground: steps.given,
        places: steps.layout.places,
        choice: &[],
        turn: 0,
    };
    let val = tr_call::call(
        &here,
        steps.layout,
        net,
        store,
        &mut ends,
        calling,
        values.as_slice(),
    )?;
    let sure = net.constant(true);
    Ok(Made {
        on,
        ends,
        val,
        sure,
    })
}
