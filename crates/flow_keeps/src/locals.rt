//! Nodes that set a local to one value (C11 6.7.9).

ghost use Rattle.std.specs.Prelude.{◌≡◌, ◌+◌, ◌<◌, ◌^◌, length, OnOk};
ghost use Rattle.bit_net.specs.Runs.{Grown};
ghost use Rattle.flow_turns.specs.Before.{AreGates, IsHere};
ghost use Rattle.flow_turns.specs.Steps.{IsMade};
ghost use Rattle.flow_keeps.specs.Sets.{SetsValue};

use bit_net::{Net, OutOfMemory};
use flow_turns::{Arrival, Before, Made};
use gate_steps::store;
use gl_sets::Set;

/// Behind the evaluation of an expression of an integer or pointer type: its value is written to the location, how it ended is told, and the
/// walk goes on.
pub fn set(
    before: &mut Before,
    net: &mut Net,
    here: Arrival,
    made: &Made,
    location: u32,
    next: usize,
) -> Result<(), OutOfMemory>
    requires gates { AreGates net.old before.old }
    requires few { length before.old.fates.bads.items < 2 ^ 32 }
    requires here { IsHere net.old here }
    requires made { IsMade net.old (length before.old.fates.bads.items) made.now }
    requires location { location + 1 < 2 ^ 32 }
    ensures grown { Grown net.old net.new }
    ensures gates { OnOk result (AreGates net.new before.new) }
    ensures ok { OnOk result (SetsValue net.old net.new location next here made.now before.old before.new) }
{
    let place = Set::one(net, location + 1);
    store(net, &mut before.store, &made.ends, &place, &made.val)?;
    before.go_on(net, here, made.on, &made.ends, next)?;
    Ok(())
}
