//! What a run has marked.

ghost use Rattle.sc_world.specs.Shows as spec;
ghost use Rattle.run_store.specs.declared.Flag.TheVariants as flags;
ghost use Rattle.std.specs.Prelude.{◌&&◌};
ghost use Rattle.fn_facts.specs.Seen as seen;
ghost use Rattle.fn_facts.specs.Showing.{IsReady, Shows, ShowsAtExit};

use crate::around::Around;
use crate::ends::gate_or_never;
use bit_net::{Gate, Net};
use run_store::Flag;

/// Holds where this happened to a location, in a run that comes to the function's end.
#[tactic(auto, using(crate::proofs::Marking::mark_shown))]
pub fn has(around: &Around, net: &Net, flag: Flag, at: u32) -> Gate
    requires ready { IsReady around.now net.now }
    ensures { ShowsAtExit around.now net.now (λ o. spec.has o flag at) result.at }
{
    around.encoded.store.flag_anywhere(net, at, flag)
}
