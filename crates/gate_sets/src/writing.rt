// Cells that are written, and locations that are marked, where a set leads; what it leads to nowhere is left alone.

ghost use Rattle.std.specs.Prelude.{◌≡◌, ℕ, ◌≤◌, length, IfOk, OnOk};
ghost use Rattle.bit_net.specs.Runs.{Grown};
ghost use Rattle.gl_sets.specs.Guards.{guards_top};
ghost use Rattle.gl_store.specs.Meets.{locations_top, val_top};
ghost use Rattle.gate_runs.specs.Stands.{AreEnds};
ghost use Rattle.gate_objects.specs.Escapes.{MarksTarget};
ghost use Rattle.gate_sets.specs.Writing.{IsObject, PutsTarget, StoresTarget};

use bit_net::{Net, OutOfMemory};
use gate_runs::Ends;
use gl_sets::Set;
use gl_store::{Flag, Store, Val};

/// Puts the value where the set leads, without a mark, where the run goes on; nothing of 0. After a refusal of memory the store may be
/// written in part, and is not to be used again.
pub fn put_target(
    net: &mut Net,
    stored: &mut Store,
    ends: &Ends,
    at: &Set,
    val: &Val,
) -> Result<(), OutOfMemory>
    requires store { locations_top stored.old.locations.items ≤ length net.old }
    requires ends { AreEnds net.old ends.now }
    requires at { guards_top at.now.pairs.items ≤ length net.old }
    requires val { val_top val.now ≤ length net.old }
    ensures grown { Grown net.old net.new }
    ensures ok { OnOk result (PutsTarget net.new ends.now at.now.pairs.items val.now stored.old.locations.items stored.new.locations.items) }
{
    stored.store(net, ends.live, at, val)?;
    Ok(())
}

/// Marks the location where the set leads, where the run goes on; nothing of 0.
pub fn mark_target(
    net: &mut Net,
    stored: &mut Store,
    ends: &Ends,
    flag: Flag,
    at: &Set,
) -> Result<(), OutOfMemory>
    requires store { locations_top stored.old.locations.items ≤ length net.old }
    requires ends { AreEnds net.old ends.now }
    requires at { guards_top at.now.pairs.items ≤ length net.old }
    ensures grown { Grown net.old net.new }
    ensures ok { OnOk result (MarksTarget net.new ends.now flag at.now.pairs.items stored.old.locations.items stored.new.locations.items) }
{
    stored.mark_where(net, ends.live, at, flag)?;
    Ok(())
}

/// Stores the value where the set leads, where the run goes on; nothing of 0. After a refusal of memory the store may be written in part,
/// and is not to be used again.
pub fn store_target(
    net: &mut Net,
    stored: &mut Store,
    ends: &Ends,
    at: &Set,
    val: &Val,
) -> Result<(), OutOfMemory>
    requires store { locations_top stored.old.locations.items ≤ length net.old }
    requires ends { AreEnds net.old ends.now }
    requires at { guards_top at.now.pairs.items ≤ length net.old }
    requires val { val_top val.now ≤ length net.old }
    ensures grown { Grown net.old net.new }
    ensures ok { OnOk result (StoresTarget net.new ends.now at.now.pairs.items val.now stored.old.locations.items stored.new.locations.items) }
{
    put_target(net, stored, ends, at, val)?;
    mark_target(net, stored, ends, Flag::Written, at)?;
    Ok(())
}

/// The pointer to an object; null where there is none. No memory has room for 2^32 locations.
#[tactic(auto, using(crate::proofs::Objects::object_none, crate::proofs::Objects::object_some))]
pub fn pointer_to(net: &Net, object: Option<u32>) -> Result<Set, OutOfMemory>
    ensures { IfOk result (λ r. IsObject net.now object r.pairs.items) }
{
    match object {
        None => Ok(Set::one(net, 0)),
        Some(at) => {
            let Some(target) = at.checked_add(1) else {
                return Err(OutOfMemory);
            };
            Ok(Set::one(net, target))
        }
    }
}
