//! Objects that escape: something that is not known may know them from then on.

ghost use Rattle.std.specs.Prelude.{◌≡◌, ℕ, ◌≤◌, length, map, All, IfOk, OnOk};
ghost use Rattle.bit_net.specs.Runs.{Grown};
ghost use Rattle.gl_sets.specs.Guards.{guards_top, targets_of};
ghost use Rattle.gl_store.specs.Meets.{locations_top, val_top};
ghost use Rattle.gate_runs.specs.Stands.{AreEnds};
ghost use Rattle.run_world.specs.Seen as seen;
ghost use Rattle.gate_objects.specs.Escapes.{AreBelow, DoesEscape, DoesEscapeAll, EscapesTarget, IsObjectOf, object_target};

use crate::marks::mark_target;
use bit_net::{Net, OutOfMemory};
use gate_acts::pointer_of;
use gate_runs::Ends;
use gl_sets::{Pair, Set, moved};
use gl_store::{Flag, Store, Val};
use run_world::Here;
use std::alloc::Global;

// The target of the whole object in which a target is; null has none. No memory has room for 2^32 locations.
#[tactic(auto, unfolding(run_world::specs::Seen::env))]
fn object_target(here: &Here, target: u32) -> Result<u32, OutOfMemory>
    ensures { IfOk result (λ r. r ≡ object_target (seen.env here.now).layout target) }
{
    if target == 0 {
        return Ok(0);
    }
    let location = here.places.location(target - 1);
    let Some(object) = location.root.checked_add(1) else {
        return Err(OutOfMemory);
    };
    Ok(object)
}

// For each pair the target of the whole object.
fn object_targets(here: &Here, alloc: Global, pairs: &[Pair]) -> Result<Vec<u32>, OutOfMemory>
    ensures { IfOk result (λ r. map (λ t. object_target (seen.env here.now).layout t) (targets_of pairs.now) ≡ r.items) }
{
    let mut targets = Vec::new(alloc);
    for pair in pairs {
        let target = object_target(here, pair.target)?;
        targets.push(target)?;
    }
    Ok(targets)
}

// The pointer to the whole object in which is what a pointer points to.
fn object_of(here: &Here, net: &mut Net, pointer: &Set) -> Result<Set, OutOfMemory>
    requires pointer { guards_top pointer.now.pairs.items ≤ length net.old }
    ensures grown { Grown net.old net.new }
    ensures ok { IfOk result (λ r. IsObjectOf (seen.env here.now).layout net.new pointer.now.pairs.items r.pairs.items) }
{
    let targets = object_targets(here, net.alloc(), pointer.pairs.as_slice())?;
    let object = moved(net, pointer, targets.as_slice())?;
    Ok(object)
}

/// The object of what the pointer points to escapes, where the run goes on; nothing of null.
pub fn escape_target(
    here: &Here,
    net: &mut Net,
    stored: &mut Store,
    ends: &Ends,
    pointer: &Set,
) -> Result<(), OutOfMemory>
    requires store { locations_top stored.old.locations.items ≤ length net.old }
    requires ends { AreEnds net.old ends.now }
    requires pointer { guards_top pointer.now.pairs.items ≤ length net.old }
    ensures grown { Grown net.old net.new }
    ensures ok { OnOk result (EscapesTarget (seen.env here.now).layout net.new ends.now pointer.now.pairs.items
        stored.old.locations.items stored.new.locations.items) }
{
    let object = object_of(here, net, pointer)?;
    mark_target(net, stored, ends, Flag::Escaped, &object)?;
    Ok(())
}

/// The object of what a value points to may be known outside from now on, where the run goes on; nothing of null, and of a value that is
/// no pointer. After a refusal of memory the store may be marked in part, and is not to be used again.
pub fn escape(
    here: &Here,
    net: &mut Net,
    stored: &mut Store,
    ends: &Ends,
    val: &Val,
) -> Result<(), OutOfMemory>
    requires store { locations_top stored.old.locations.items ≤ length net.old }
    requires ends { AreEnds net.old ends.now }
    requires val { val_top val.now ≤ length net.old }
    ensures grown { Grown net.old net.new }
    ensures ok { OnOk result (DoesEscape (seen.env here.now).layout net.new ends.now val.now
        stored.old.locations.items stored.new.locations.items) }
{
    let pointer = pointer_of(net, val)?;
    escape_target(here, net, stored, ends, &pointer)?;
    Ok(())
}

/// The objects of what the values point to, one after the other, as `escape` does it.
pub fn escape_all(
    here: &Here,
    net: &mut Net,
    stored: &mut Store,
    ends: &Ends,
    vals: &[Val],
) -> Result<(), OutOfMemory>
    requires store { locations_top stored.old.locations.items ≤ length net.old }
    requires ends { AreEnds net.old ends.now }
    requires vals { AreBelow net.old vals.now }
    ensures grown { Grown net.old net.new }
    ensures ok { OnOk result (DoesEscapeAll (seen.env here.now).layout net.new ends.now vals.now
        stored.old.locations.items stored.new.locations.items) }
{
    for val in vals {
        escape(here, net, stored, ends, val)?;
    }
    Ok(())
}
