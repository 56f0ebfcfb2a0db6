//! Nodes that keep what their step gives: the value of an expression or its place (C11 6.5), what a call gives (C11 6.5.2.2), what is wanted
//! of an object that was assigned by an operator (C11 6.5.16.2).

ghost use Rattle.std.specs.Prelude.{◌<◌, ◌^◌, length, OnOk};
ghost use Rattle.bit_net.specs.Runs.{Grown};
ghost use Rattle.flow_turns.specs.Before.{AreGates, IsHere};
ghost use Rattle.flow_turns.specs.Steps.{IsMade};
ghost use Rattle.flow_keeps.specs.Calls.{KeepsCall};
ghost use Rattle.flow_keeps.specs.Keeps.{KeepsValue};
ghost use Rattle.flow_keeps.specs.Updates.{KeepsUpdate};

use bit_net::{Net, OutOfMemory};
use flow_turns::{Arrival, Before, Made};

/// Behind the step of a node: how it ended is told, what it gave is kept in the temp, and the walk goes on.
pub fn keep(
    before: &mut Before,
    net: &mut Net,
    here: Arrival,
    made: Made,
    temp: usize,
    next: usize,
) -> Result<(), OutOfMemory>
    requires gates { AreGates net.old before.old }
    requires few { length before.old.fates.bads.items < 2 ^ 32 }
    requires here { IsHere net.old here }
    requires made { IsMade net.old (length before.old.fates.bads.items) made }
    requires temp { temp < length before.old.temps.vals.items }
    ensures grown { Grown net.old net.new }
    ensures gates { OnOk result (AreGates net.new before.new) }
    ensures value { OnOk result (KeepsValue net.old net.new temp next here made before.old before.new) }
    ensures call { OnOk result (KeepsCall net.old net.new temp next here made before.old before.new) }
    ensures update { OnOk result (KeepsUpdate net.old net.new temp next here made before.old before.new) }
{
    before.settle(net, here, made, temp, next)?;
    Ok(())
}
