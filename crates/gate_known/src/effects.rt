// The effects of a known call.

ghost use Rattle.std.specs.Prelude.{◌≡◌, ◌<◌, ◌≤◌, ◌^◌, length, OnOk};
ghost use Rattle.bit_net.specs.Circuit.{input_count};
ghost use Rattle.bit_net.specs.Runs.{Grown};
ghost use Rattle.gl_store.specs.Meets.{locations_top, val_top};
ghost use Rattle.run_world.specs.Seen as seen;
ghost use Rattle.gate_runs.specs.Stands.{AreEnds};
ghost use Rattle.gate_rows.specs.Given.{IsKindBelow};
ghost use Rattle.gate_states.specs.Called.{IsCalled};
ghost use Rattle.gate_known.specs.Effects.{DoesEffects};

use crate::marked::mark_given;
use bit_net::{Net, OutOfMemory};
use gate_fails::params_act;
use gate_rows::Given;
use gate_runs::Ends;
use gate_sets::{set_outs, set_states, set_writes};
use gate_states::{Called, called_stays};
use gl_store::Store;
use run_world::Here;

/// What a call does that ends in no error: the locations get their states, then pointers behind parameters and other cells their values;
/// objects of parameters escape or are freed, and the object that is given is marked. After a refusal of memory neither store nor gates of
/// the run are to be used again.
pub fn effects(
    here: &Here,
    net: &mut Net,
    stored: &mut Store,
    ends: &mut Ends,
    called: &Called,
    given: &Given,
) -> Result<(), OutOfMemory>
    requires inputs { (seen.env here.now).layout.bits ≤ input_count net.old }
    requires store { locations_top stored.old.locations.items ≤ length net.old }
    requires ends { AreEnds net.old ends.old }
    requires called { IsCalled net.old called.now }
    requires items { length called.now.summary.now.items < 2 ^ 32 }
    requires val { val_top given.now.val ≤ length net.old }
    requires kind { IsKindBelow net.old given.now.kind }
    ensures grown { Grown net.old net.new }
    ensures ready { OnOk result (AreEnds net.new ends.new) }
    ensures locations { OnOk result (length ends.new.bads.items ≡ length ends.old.bads.items) }
    ensures ok { OnOk result (DoesEffects (seen.env here.now).source (seen.env here.now).layout net.new called.now given.now
        stored.old.locations.items stored.new.locations.items ends.old ends.new) }
{
    called_stays();
    set_states(here, net, stored, ends, called.locks)?;
    set_outs(here, net, stored, ends, called.outs)?;
    set_writes(here, net, stored, ends, called.writes)?;
    params_act(here, net, stored, ends, called)?;
    mark_given(net, stored, ends, given)?;
    Ok(())
}
