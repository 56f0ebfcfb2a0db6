//! What a call does, by its effect.

ghost use Rattle.std.specs.Prelude.{◌≡◌, true, length, IfOk};
ghost use Rattle.bit_net.specs.Runs.{Grown};
ghost use Rattle.gate_runs.specs.Stands.{AreEnds};
ghost use Rattle.sc_gather.specs.Seen.{meaning};
ghost use Rattle.sc_world.specs.View.{type};
ghost use Rattle.layout_base.specs.Seen as laid;
ghost use Rattle.run_world.specs.Seen as seen;
ghost use Rattle.tr_call.specs.Calls.{DoesAct, DoesEnd, FirstFits, IsReady, has_gates};

use crate::callees::callee;
use crate::placed::Acting;
use crate::values::{first_argument, some_value};
use bit_net::{Net, OutOfMemory};
use gate_acts::{Trying, operation, try_lock};
use gate_objects::{allocate, release};
use gate_runs::Ends;
use gl_store::{Store, Val};
use layout_lookup::Lookup;
use run_world::Here;
use sc_gather::Effect;
use sc_tree::ctype::CType;
use sc_world::Reason;

// The program ends: the run is set aside where it goes on. What is given then is any value of the type.
fn ended(here: &Here, net: &mut Net, ends: &mut Ends, t: &CType) -> Result<Val, OutOfMemory>
    requires ends { AreEnds net.old ends.old }
    ensures grown { Grown net.old net.new }
    ensures ready { IfOk result (λ r. AreEnds net.new ends.new) }
    ensures locations { IfOk result (λ r. length ends.new.bads.items ≡ length ends.old.bads.items) }
    ensures ok { IfOk result (λ r. DoesEnd (seen.env here.now).source net.new (type t.now) ends.old ends.new r) }
{
    let always = net.constant(true);
    ends.end_where(net, always, Reason::NoReturn)?;
    let r = some_value(here, net, t)?;
    Ok(r)
}

/// What a call does and gives, once its arguments have their values. After a refusal of memory neither store nor gates of the run are to
/// be used again.
pub fn act(
    here: &Here,
    layout: &Lookup,
    net: &mut Net,
    stored: &mut Store,
    ends: &mut Ends,
    acting: Acting,
    args: &[Val],
) -> Result<Val, OutOfMemory>
    requires ready { IsReady (seen.env here.now).source (seen.env here.now).layout net.old args.now stored.old.locations.items ends.old }
    requires same { laid.layout_of layout.now.places.now ≡ (seen.env here.now).layout }
    requires can { has_gates (seen.env here.now).source (type acting.t.now) (meaning acting.effect) ≡ true }
    requires first { FirstFits (seen.env here.now).source (type acting.t.now) args.now (meaning acting.effect) }
    ensures grown { Grown net.old net.new }
    ensures ok { IfOk result (λ r. DoesAct (seen.env here.now).source (seen.env here.now).layout net.new (type acting.entry.t.now)
        (laid.occurrence_of acting.entry.occurrence) (meaning acting.entry.effect) args.now
        stored.old.locations.items stored.new.locations.items ends.old ends.new r) }
{
    match acting.effect {
        Effect::Operation(number) => {
            let first = first_argument(net, args)?;
            let r = operation(here, net, stored, ends, acting.t, number, &first)?;
            Ok(r)
        }
        Effect::Try(success, failure) => {
            let first = first_argument(net, args)?;
            let trying = Trying {
                t: acting.t,
                bit: acting.occurrence.bit,
                success,
                failure,
            };
            let r = try_lock(here, net, stored, ends, trying, &first)?;
            Ok(r)
        }
        Effect::Allocate(_) => {
            let r = allocate(here, net, stored, ends, acting.occurrence)?;
            Ok(r)
        }
        Effect::Release => {
            let first = first_argument(net, args)?;
            let r = release(here, net, stored, ends, &first)?;
            Ok(r)
        }
        Effect::Ends => {
            let r = ended(here, net, ends, acting.t)?;
            Ok(r)
        }
        Effect::Expect => {
            let r = first_argument(net, args)?;
            Ok(r)
        }
        Effect::Known(_) => {
            let r = callee(here, layout, net, stored, ends, acting, args)?;
            Ok(r)
        }
        Effect::Unknown => {
            let r = callee(here, layout, net, stored, ends, acting, args)?;
            Ok(r)
        }
    }
}
