// Errors at what a set points to.

ghost use Rattle.std.specs.Prelude.{◌≡◌, ◌<◌, ◌≤◌, length, OnOk};
ghost use Rattle.bit_net.specs.Runs.{Grown};
ghost use Rattle.gl_sets.specs.Guards.{guards_top};
ghost use Rattle.gate_runs.specs.Stands.{AreEnds};
ghost use Rattle.gate_fails.specs.Errors.{FailsEach, FailsTarget};

use bit_net::{Net, OutOfMemory};
use gate_runs::Ends;
use gl_sets::Pair;

// Where the guard of the pair holds and the run goes on, it ends by an error at the target; nothing for 0. No layout has a location without
// a gate of errors.
fn fail_target(net: &mut Net, ends: &mut Ends, pair: Pair) -> Result<(), OutOfMemory>
    requires ends { AreEnds net.old ends.old }
    requires guard { pair.guard.at < length net.old }
    ensures grown { Grown net.old net.new }
    ensures ready { OnOk result (AreEnds net.new ends.new) }
    ensures locations { OnOk result (length ends.new.bads.items ≡ length ends.old.bads.items) }
    ensures ok { OnOk result (FailsTarget net.new pair ends.old ends.new) }
{
    if pair.target == 0 {
        return Ok(());
    }
    let at = pair.target - 1;
    if at as usize >= ends.bads.len() {
        return Err(OutOfMemory);
    }
    ends.fail_where(net, pair.guard, at)?;
    Ok(())
}

/// The run ends by an error at the target of each pair, where its guard holds and the run goes on; nothing for 0.
pub fn fail_each(net: &mut Net, ends: &mut Ends, pairs: &[Pair]) -> Result<(), OutOfMemory>
    requires ends { AreEnds net.old ends.old }
    requires guards { guards_top pairs.now ≤ length net.old }
    ensures grown { Grown net.old net.new }
    ensures ready { OnOk result (AreEnds net.new ends.new) }
    ensures locations { OnOk result (length ends.new.bads.items ≡ length ends.old.bads.items) }
    ensures ok { OnOk result (FailsEach net.new pairs.now ends.old ends.new) }
{
    for pair in pairs {
        fail_target(net, ends, *pair)?;
    }
    Ok(())
}
