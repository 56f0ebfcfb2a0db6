// The steps of a known call once all that it has to do with is found.

ghost use Rattle.std.specs.Prelude.{◌≡◌, ◌<◌, ◌≤◌, ◌^◌, length, IfOk, OnOk};
ghost use Rattle.bit_net.specs.Circuit.{input_count};
ghost use Rattle.bit_net.specs.Runs.{Grown};
ghost use Rattle.gl_store.specs.Meets.{locations_top};
ghost use Rattle.sc_world.specs.View.{type};
ghost use Rattle.run_world.specs.Seen as seen;
ghost use Rattle.gate_runs.specs.Stands.{AreEnds};
ghost use Rattle.gate_states.specs.Called.{IsCalled};
ghost use Rattle.gate_known.specs.Effects.{DoesActs, DoesActsAs, GoesOnApart};

use crate::effects::effects;
use bit_net::{Net, OutOfMemory};
use gate_fails::{errs_each, first_error_ends};
use gate_paths::meet_twice;
use gate_rows::given_by;
use gate_runs::Ends;
use gate_stands::rows_stand;
use gate_states::{Called, called_stays};
use gate_steps::unless;
use gl_store::{Store, Val};
use run_world::Here;
use sc_tree::ctype::CType;
use sc_world::Reason;

// The run goes on where no two items are at one location, and is set aside where two are.
fn unless_met(net: &mut Net, ends: &mut Ends, called: &Called) -> Result<(), OutOfMemory>
    requires ends { AreEnds net.old ends.old }
    requires called { IsCalled net.old called.now }
    ensures grown { Grown net.old net.new }
    ensures ready { OnOk result (AreEnds net.new ends.new) }
    ensures locations { OnOk result (length ends.new.bads.items ≡ length ends.old.bads.items) }
    ensures ok { OnOk result (GoesOnApart net.new called.now ends.old ends.new) }
{
    called_stays();
    let locks = meet_twice(net, called.locks)?;
    let outs = meet_twice(net, called.outs)?;
    let met = net.or(locks, outs)?;
    let apart = net.not(met)?;
    unless(net, ends, apart, Reason::Alias)?;
    Ok(())
}

// What the call does and gives where no item errs: it is set aside where the rows do not stand that the choice needs, else it has its effects.
fn acts_as(
    here: &Here,
    net: &mut Net,
    stored: &mut Store,
    ends: &mut Ends,
    called: &Called,
    t: &CType,
) -> Result<Val, OutOfMemory>
    requires inputs { (seen.env here.now).layout.bits ≤ input_count net.old }
    requires store { locations_top stored.old.locations.items ≤ length net.old }
    requires ends { AreEnds net.old ends.old }
    requires called { IsCalled net.old called.now }
    requires items { length called.now.summary.now.items < 2 ^ 32 }
    ensures grown { Grown net.old net.new }
    ensures ready { IfOk result (λ r. AreEnds net.new ends.new) }
    ensures locations { IfOk result (λ r. length ends.new.bads.items ≡ length ends.old.bads.items) }
    ensures ok { IfOk result (λ r. DoesActsAs (seen.env here.now).source (seen.env here.now).layout net.new (type t.now) called.now
        stored.old.locations.items stored.new.locations.items ends.old ends.new r) }
{
    called_stays();
    let given = given_by(here, net, called.occurrence, t)?;
    let stand = rows_stand(here, net, stored, called, &given)?;
    unless(net, ends, stand, Reason::NoRow)?;
    effects(here, net, stored, ends, called, &given)?;
    Ok(given.val)
}

/// What the call does and gives once all that it has to do with is found. After a refusal of memory neither store nor gates of the run are
/// to be used again.
pub fn acts(
    here: &Here,
    net: &mut Net,
    stored: &mut Store,
    ends: &mut Ends,
    called: &Called,
    t: &CType,
) -> Result<Val, OutOfMemory>
    requires inputs { (seen.env here.now).layout.bits ≤ input_count net.old }
    requires store { locations_top stored.old.locations.items ≤ length net.old }
    requires ends { AreEnds net.old ends.old }
    requires called { IsCalled net.old called.now }
    requires items { length called.now.summary.now.items < 2 ^ 32 }
    ensures grown { Grown net.old net.new }
    ensures ready { IfOk result (λ r. AreEnds net.new ends.new) }
    ensures locations { IfOk result (λ r. length ends.new.bads.items ≡ length ends.old.bads.items) }
    ensures ok { IfOk result (λ r. DoesActs (seen.env here.now).source (seen.env here.now).layout net.new (type t.now) called.now
        stored.old.locations.items stored.new.locations.items ends.old ends.new r) }
{
    called_stays();
    first_error_ends();
    unless_met(net, ends, called)?;
    errs_each(here, net, stored, ends, called)?;
    let r = acts_as(here, net, stored, ends, called, t)?;
    Ok(r)
}
