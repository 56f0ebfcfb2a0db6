//! Marks on what a pointer points to.

ghost use Rattle.std.specs.Prelude.{◌≤◌, length, OnOk};
ghost use Rattle.bit_net.specs.Runs.{Grown};
ghost use Rattle.gl_sets.specs.Guards.{guards_top};
ghost use Rattle.gl_store.specs.Meets.{locations_top};
ghost use Rattle.gate_runs.specs.Stands.{AreEnds};
ghost use Rattle.gate_objects.specs.Escapes.{MarksTarget};

use bit_net::{Net, OutOfMemory};
use gate_runs::Ends;
use gl_sets::Set;
use gl_store::{Flag, Store};

/// Marks what the pointer points to, where the run goes on; null is left alone.
pub fn mark_target(
    net: &mut Net,
    stored: &mut Store,
    ends: &Ends,
    flag: Flag,
    pointer: &Set,
) -> Result<(), OutOfMemory>
    requires store { locations_top stored.old.locations.items ≤ length net.old }
    requires ends { AreEnds net.old ends.now }
    requires pointer { guards_top pointer.now.pairs.items ≤ length net.old }
    ensures grown { Grown net.old net.new }
    ensures ok { OnOk result (MarksTarget net.new ends.now flag pointer.now.pairs.items stored.old.locations.items stored.new.locations.items) }
{
    stored.mark_where(net, ends.live, pointer, flag)?;
    Ok(())
}
