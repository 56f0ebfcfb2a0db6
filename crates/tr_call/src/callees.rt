//! The call of a callee: by its summary, or as a call of which nothing is known.

ghost use Rattle.std.specs.Prelude.{◌≡◌, IfOk};
ghost use Rattle.std.specs.Option.{option_copied};
ghost use Rattle.bit_net.specs.Runs.{Grown};
ghost use Rattle.sc_gather.specs.Seen.{meaning};
ghost use Rattle.sc_world.specs.View.{type};
ghost use Rattle.layout_base.specs.Seen as laid;
ghost use Rattle.run_world.specs.Seen as seen;
ghost use Rattle.tr_call.specs.Calls.{DoesKnownBy, IsReady, summary_of as summary_that_is};

use crate::placed::Acting;
use bit_net::{Net, OutOfMemory};
use gate_known::{Knowing, known};
use gate_objects::unknown;
use gate_runs::Ends;
use gl_store::{Store, Val};
use layout_lookup::Lookup;
use run_world::Here;
use sc_gather::Effect;
use sum_rows::Summary;

// The summary by which a callee acts; none of what is no callee.
#[tactic(auto, unfolding(run_world::specs::Seen::env))]
fn summary_of<'p>(here: &Here<'p, '_, '_>, effect: Effect) -> Option<&'p Summary>
    ensures { option_copied result ≡ summary_that_is (seen.env here.now).source (meaning effect) }
{
    match effect {
        Effect::Known(place) => here.ground.summary(place),
        Effect::Operation(_)
        | Effect::Try(_, _)
        | Effect::Allocate(_)
        | Effect::Release
        | Effect::Ends
        | Effect::Expect
        | Effect::Unknown => None,
    }
}

/// What the call of a callee does and gives, once its arguments have their values. After a refusal of memory neither store nor gates of the
/// run are to be used again.
#[tactic(auto, unfolding(run_world::specs::Seen::env))]
pub fn callee(
    here: &Here,
    layout: &Lookup,
    net: &mut Net,
    stored: &mut Store,
    ends: &mut Ends,
    acting: Acting,
    args: &[Val],
) -> Result<Val, OutOfMemory>
    requires ready { IsReady (seen.env here.now).source (seen.env here.now).layout net.old args.now stored.old.locations.items ends.old }
    requires same { laid.layout_of layout.now.places.now ≡ (seen.env here.now).layout }
    ensures grown { Grown net.old net.new }
    ensures ok { IfOk result (λ r. DoesKnownBy (seen.env here.now).source (seen.env here.now).layout net.new (type acting.entry.t.now)
        (laid.occurrence_of acting.entry.occurrence) (summary_that_is (seen.env here.now).source (meaning acting.entry.effect)) args.now
        stored.old.locations.items stored.new.locations.items ends.old ends.new r) }
{
    match summary_of(here, acting.effect) {
        None => {
            let r = unknown(here, net, stored, ends, acting.occurrence, acting.t, args)?;
            Ok(r)
        }
        Some(summary) => {
            let knowing = Knowing {
                summary,
                occurrence: acting.occurrence,
                t: acting.t,
            };
            let r = known(here, layout, net, stored, ends, knowing, args)?;
            Ok(r)
        }
    }
}
