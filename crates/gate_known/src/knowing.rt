//! A call that acts by the summary of its callee.

ghost use Rattle.std.specs.Prelude.{◌≡◌, ◌<◌, ◌≤◌, ◌^◌, false, length, IfOk};
ghost use Rattle.bit_net.specs.Circuit.{input_count};
ghost use Rattle.bit_net.specs.Runs.{Grown};
ghost use Rattle.gl_store.specs.Meets.{locations_top};
ghost use Rattle.sc_world.specs.View.{type};
ghost use Rattle.layout_base.specs.Seen as laid;
ghost use Rattle.run_world.specs.Seen as seen;
ghost use Rattle.gate_runs.specs.Stands.{AreEnds};
ghost use Rattle.gate_objects.specs.Escapes.{AreBelow};
ghost use Rattle.gate_known.specs.Known.{DoesKnown};

use crate::acts::acts;
use bit_net::{Net, OutOfMemory};
use gate_paths::{locks, outs, writes};
use gate_rows::entry_bits;
use gate_runs::Ends;
use gate_states::{Called, called_stays};
use gl_store::{Store, Val};
use layout_base::Occurrence;
use layout_lookup::Lookup;
use run_paths::spots_of;
use run_world::Here;
use sc_tree::ctype::CType;
use sum_rows::Summary;

/// A call of a function whose summary is there: the summary, its place in the layout, and the type of what it gives.
#[derive(Clone, Copy)]
pub struct Knowing<'p, 't> {
    pub summary: &'p Summary,
    pub occurrence: Occurrence,
    pub t: &'t CType,
}

// So many items are too many for numbers of 32 bits.
const TOO_MANY: usize = 0x1_0000_0000;

// Whether a summary has more items or written cells than any memory has room for.
fn is_too_large(summary: &Summary) -> bool
    ensures items { result ≡ false → length summary.now.items < 2 ^ 32 }
    ensures writes { result ≡ false → length summary.now.writes < 2 ^ 32 }
{
    summary.items.len() >= TOO_MANY || summary.writes.len() >= TOO_MANY
}

/// What the call does and gives, by the summary of its callee: where its paths lead is found first, then it errs, is set aside or has its
/// effects, as the choice says. After a refusal of memory neither store nor gates of the run are to be used again.
pub fn known(
    here: &Here,
    layout: &Lookup,
    net: &mut Net,
    stored: &mut Store,
    ends: &mut Ends,
    knowing: Knowing,
    args: &[Val],
) -> Result<Val, OutOfMemory>
    requires same { laid.layout_of layout.now.places.now ≡ (seen.env here.now).layout }
    requires inputs { (seen.env here.now).layout.bits ≤ input_count net.old }
    requires store { locations_top stored.old.locations.items ≤ length net.old }
    requires ends { AreEnds net.old ends.old }
    requires args { AreBelow net.old args.now }
    ensures grown { Grown net.old net.new }
    ensures ok { IfOk result (λ r. DoesKnown (seen.env here.now).source (seen.env here.now).layout net.new (type knowing.entry.t.now)
        (laid.occurrence_of knowing.entry.occurrence) knowing.entry.summary.now args.now
        stored.old.locations.items stored.new.locations.items ends.old ends.new r) }
{
    if is_too_large(knowing.summary) {
        return Err(OutOfMemory);
    }
    let items = knowing.summary.items.as_slice();
    let spots = spots_of(knowing.occurrence, items);
    let locks = locks(layout, net, stored, args, spots.locks, items)?;
    let outs = outs(layout, net, stored, args, spots.outs, items)?;
    let cells = knowing.summary.writes.as_slice();
    let writes = writes(layout, net, stored, args, items, spots.writes, cells)?;
    let given = entry_bits(net, args)?;
    let called = Called {
        summary: knowing.summary,
        occurrence: knowing.occurrence,
        args,
        given: given.bits.as_slice(),
        locks: locks.as_slice(),
        outs: outs.as_slice(),
        writes: writes.as_slice(),
    };
    let r = acts(here, net, stored, ends, &called, knowing.t)?;
    Ok(r)
}
