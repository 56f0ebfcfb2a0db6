//! The call of a node.

ghost use Rattle.std.specs.Prelude.{◌≡◌, IfOk};
ghost use Rattle.bit_net.specs.Runs.{Grown};
ghost use Rattle.sc_world.specs.View.{type};
ghost use Rattle.layout_base.specs.Seen as laid;
ghost use Rattle.run_world.specs.Seen as seen;
ghost use Rattle.sc_flow.specs.Seen.{calling as node_call};
ghost use Rattle.tr_call.specs.Calls.{CanCall, DoesCall, FirstFits, IsReady, effect_of as call_effect};

use crate::effects::act;
use crate::fits::effect_of;
use crate::placed::Acting;
use bit_net::{Net, OutOfMemory};
use gate_runs::Ends;
use gl_store::{Store, Val};
use layout_lookup::Lookup;
use run_world::Here;
use sc_flow::Calling;

/// The call of a node, with the values of its arguments: what it gives. An event in the trace has no gates. After a refusal of memory
/// neither store nor gates of the run are to be used again.
pub fn call(
    here: &Here,
    layout: &Lookup,
    net: &mut Net,
    stored: &mut Store,
    ends: &mut Ends,
    calling: &Calling,
    args: &[Val],
) -> Result<Val, OutOfMemory>
    requires ready { IsReady (seen.env here.now).source (seen.env here.now).layout net.old args.now stored.old.locations.items ends.old }
    requires same { laid.layout_of layout.now.places.now ≡ (seen.env here.now).layout }
    requires can { CanCall (seen.env here.now).source (seen.env here.now).layout (node_call (seen.env here.now).source.structs calling.now) }
    requires first { FirstFits (seen.env here.now).source (type calling.now.result.now) args.now
        (call_effect (seen.env here.now).layout (node_call (seen.env here.now).source.structs calling.now)) }
    ensures grown { Grown net.old net.new }
    ensures ok { IfOk result (λ r. DoesCall (seen.env here.now).source (seen.env here.now).layout net.new
        (node_call (seen.env here.now).source.structs calling.now) args.now
        stored.old.locations.items stored.new.locations.items ends.old ends.new r) }
{
    let site = layout.site_at(calling.place.token);
    let acting = Acting {
        effect: effect_of(site),
        occurrence: layout.occurrence_at(site, calling.turn),
        t: calling.result,
    };
    let r = act(here, layout, net, stored, ends, acting, args)?;
    Ok(r)
}
