//! What a known call does to the objects of its parameters.

ghost use Rattle.std.specs.Prelude.{◌≡◌, ◌+◌, ◌<◌, ◌≤◌, ◌^◌, length, IfOk, OnOk};
ghost use Rattle.bit_net.specs.Circuit.{input_count};
ghost use Rattle.bit_net.specs.Runs.{Grown};
ghost use Rattle.gl_sets.specs.Guards.{guards_top};
ghost use Rattle.gl_store.specs.Meets.{locations_top, val_top};
ghost use Rattle.gate_runs.specs.Stands.{AreEnds};
ghost use Rattle.run_world.specs.Seen as seen;
ghost use Rattle.gate_objects.specs.Escapes.{AreBelow};
ghost use Rattle.gate_states.specs.Called.{IsCalled};
ghost use Rattle.gate_fails.specs.Params.{DoesArgumentEffect, DoesParamAct, DoesParamEffect, DoesParams, DoesParamsAct, IsPickedBy};

use bit_net::{Net, OutOfMemory};
use gate_acts::pointer_of;
use gate_entry::chosen_is;
use gate_objects::{escape, free};
use gate_runs::Ends;
use gate_states::Called;
use gl_sets::{Set, join};
use gl_store::{Store, Val};
use run_paths::{Sort, is_of, spot_at, spot_behind, spots_of};
use run_world::Here;
use sum_rows::{Item, ItemRows};

// The two numbers by which a choice says that an object escapes, and that it is freed.
const ESCAPED: u64 = 1;

const FREED: u64 = 2;

// The pointer where two bits of the choice spell the number, else null.
fn picked(here: &Here, net: &mut Net, bit: u32, n: u64, pointer: &Set) -> Result<Set, OutOfMemory>
    requires inputs { (seen.env here.now).layout.bits ≤ input_count net.old }
    requires pointer { guards_top pointer.now.pairs.items ≤ length net.old }
    ensures grown { Grown net.old net.new }
    ensures ok { IfOk result (λ r. IsPickedBy (seen.env here.now).layout net.new bit n pointer.now.pairs.items r.pairs.items) }
{
    let chosen = chosen_is(here, net, bit, 2, n)?;
    let null = Set::one(net, 0);
    let made = join(net, chosen, pointer, &null)?;
    Ok(made)
}

// The object of what the value points to is kept, escapes or is freed, by two bits of the choice.
fn param_effect(
    here: &Here,
    net: &mut Net,
    stored: &mut Store,
    ends: &mut Ends,
    bit: u32,
    val: &Val,
) -> Result<(), OutOfMemory>
    requires inputs { (seen.env here.now).layout.bits ≤ input_count net.old }
    requires store { locations_top stored.old.locations.items ≤ length net.old }
    requires ends { AreEnds net.old ends.old }
    requires val { val_top val.now ≤ length net.old }
    ensures grown { Grown net.old net.new }
    ensures ready { OnOk result (AreEnds net.new ends.new) }
    ensures locations { OnOk result (length ends.new.bads.items ≡ length ends.old.bads.items) }
    ensures ok { OnOk result (DoesParamEffect (seen.env here.now).layout net.new bit val.now
        stored.old.locations.items stored.new.locations.items ends.old ends.new) }
{
    let pointer = pointer_of(net, val)?;
    let escaping = picked(here, net, bit, ESCAPED, &pointer)?;
    let freed = picked(here, net, bit, FREED, &pointer)?;
    escape(here, net, stored, ends, &Val::Set(escaping))?;
    free(here, net, stored, ends, &Val::Set(freed))?;
    Ok(())
}

// The same for the argument with that number; nothing where it is not there.
fn argument_effect(
    here: &Here,
    net: &mut Net,
    stored: &mut Store,
    ends: &mut Ends,
    args: &[Val],
    n: u32,
    bit: u32,
) -> Result<(), OutOfMemory>
    requires inputs { (seen.env here.now).layout.bits ≤ input_count net.old }
    requires store { locations_top stored.old.locations.items ≤ length net.old }
    requires ends { AreEnds net.old ends.old }
    requires args { AreBelow net.old args.now }
    ensures grown { Grown net.old net.new }
    ensures ready { OnOk result (AreEnds net.new ends.new) }
    ensures locations { OnOk result (length ends.new.bads.items ≡ length ends.old.bads.items) }
    ensures ok { OnOk result (DoesArgumentEffect (seen.env here.now).layout net.new args.now n bit
        stored.old.locations.items stored.new.locations.items ends.old ends.new) }
{
    match args.get(n as usize) {
        None => Ok(()),
        Some(val) => {
            param_effect(here, net, stored, ends, bit, val)?;
            Ok(())
        }
    }
}

// What becomes of the object of a parameter, if the item is one.
#[tactic(auto, using(crate::proofs::Acting::act_other))]
fn param_act(
    here: &Here,
    net: &mut Net,
    stored: &mut Store,
    ends: &mut Ends,
    args: &[Val],
    spot: usize,
    item: &Item,
) -> Result<(), OutOfMemory>
    requires inputs { (seen.env here.now).layout.bits ≤ input_count net.old }
    requires store { locations_top stored.old.locations.items ≤ length net.old }
    requires ends { AreEnds net.old ends.old }
    requires args { AreBelow net.old args.now }
    ensures grown { Grown net.old net.new }
    ensures ready { OnOk result (AreEnds net.new ends.new) }
    ensures locations { OnOk result (length ends.new.bads.items ≡ length ends.old.bads.items) }
    ensures ok { OnOk result (DoesParamAct (seen.env here.now).layout net.new args.now spot item.now
        stored.old.locations.items stored.new.locations.items ends.old ends.new) }
{
    match item {
        Item::Param(n) => {
            let bit = spot_at(here.places, spot).bit;
            argument_effect(here, net, stored, ends, args, *n, bit)?;
            Ok(())
        }
        Item::Exit | Item::Lock(_) | Item::Out(_) => Ok(()),
    }
}

// What becomes of the objects of parameters, one after the other; the first of them has that spot.
fn act_each(
    here: &Here,
    net: &mut Net,
    stored: &mut Store,
    ends: &mut Ends,
    args: &[Val],
    spot: usize,
    items: &[ItemRows],
) -> Result<(), OutOfMemory>
    requires spot { spot < 2 ^ 62 }
    requires few { length items.now < 2 ^ 32 }
    requires inputs { (seen.env here.now).layout.bits ≤ input_count net.old }
    requires store { locations_top stored.old.locations.items ≤ length net.old }
    requires ends { AreEnds net.old ends.old }
    requires args { AreBelow net.old args.now }
    ensures grown { Grown net.old net.new }
    ensures ready { OnOk result (AreEnds net.new ends.new) }
    ensures locations { OnOk result (length ends.new.bads.items ≡ length ends.old.bads.items) }
    ensures ok { OnOk result (DoesParamsAct (seen.env here.now).layout net.new args.now spot items.now
        stored.old.locations.items stored.new.locations.items ends.old ends.new) }
{
    let mut k = spot;
    for x in items {
        param_act(here, net, stored, ends, args, k, &x.item)?;
        k = spot_behind(is_of(Sort::Param, &x.item), k);
    }
    Ok(())
}

/// What a call does to the objects of its parameters: by the choice each is kept, escapes or is freed, where the run goes on. The run is set
/// aside where an object is freed that may not be. After a refusal of memory neither store nor gates of the run are to be used again.
pub fn params_act(
    here: &Here,
    net: &mut Net,
    stored: &mut Store,
    ends: &mut Ends,
    called: &Called,
) -> Result<(), OutOfMemory>
    requires items { length called.now.summary.now.items < 2 ^ 32 }
    requires inputs { (seen.env here.now).layout.bits ≤ input_count net.old }
    requires store { locations_top stored.old.locations.items ≤ length net.old }
    requires ends { AreEnds net.old ends.old }
    requires called { IsCalled net.old called.now }
    ensures grown { Grown net.old net.new }
    ensures ready { OnOk result (AreEnds net.new ends.new) }
    ensures locations { OnOk result (length ends.new.bads.items ≡ length ends.old.bads.items) }
    ensures ok { OnOk result (DoesParams (seen.env here.now).layout net.new called.now
        stored.old.locations.items stored.new.locations.items ends.old ends.new) }
{
    let items = called.summary.items.as_slice();
    let spot = spots_of(called.occurrence, items).params;
    act_each(here, net, stored, ends, called.args, spot, items)?;
    Ok(())
}
