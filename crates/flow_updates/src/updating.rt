//! An assignment by an operator to a kept place.

ghost use Rattle.std.specs.Prelude.{◌≡◌, ℕ, ◌<◌, ◌≤◌, Bool, Some, length, IfOk};
ghost use Rattle.bit_net.specs.Runs.{Grown, Runs};
ghost use Rattle.gl_store.specs.Meets.{locations_top, val_top};
ghost use Rattle.gate_changes.specs.Changes.{Combines};
ghost use Rattle.gate_places.specs.Places.{IsLaid};
ghost use Rattle.gate_runs.specs.Stands.{AreEnds};
ghost use Rattle.sc_world.specs.Source.{Source};
ghost use Rattle.sc_world.specs.View.{type};
ghost use Rattle.flow_fills.specs.Laid.{layout_of, source_of};
ghost use Rattle.flow_gates.specs.Steps.{IsStepMade};
ghost use Rattle.flow_keeps.specs.Evaluates.{IsUsable};
ghost use Rattle.flow_keeps.specs.Updates.{Updates};
ghost use Rattle.flow_turns.specs.Kept.{AreTemps};
ghost use Rattle.run_values.specs.Seen as wanted;
ghost use Rattle.sc_flow.specs.Seen as seen;
ghost use Rattle.flow_updates.specs.Can.{CanUpdate};
ghost use Rattle.flow_updates.specs.Combined.{CanCombine};

use crate::operands::{number_type, place_in, val_in};
use bit_net::{Gate, Net, OutOfMemory};
use flow_fills::Laid;
use flow_turns::{Made, Temps};
use gate_changes::combined;
use gate_places::assign;
use gate_runs::Ends;
use gl_store::{Store, Val};
use run_values::Want;
use sc_flow::{Updating, Want as Wanted};

/// What is assigned: the operator with its types, what is wanted of the object, and the temps that keep its place, its former value and the
/// value on the right.
#[derive(Clone, Copy)]
pub struct Assignment<'p> {
    pub updating: Updating<'p>,
    pub want: Wanted,
    pub place: u32,
    pub former: u32,
    pub right: u32,
}

// What is wanted of an object, as steps have it.
fn want_in(want: Wanted) -> Want
    ensures { wanted.want_of result ≡ seen.want_of want }
{
    match want {
        Wanted::Value => Want::Value,
        Wanted::Place => Want::Place,
    }
}

// Holds where what is wanted of the object may be used.
fn usable(net: &Net, want: Wanted, ends: &Ends) -> Gate
    requires { AreEnds net.now ends.now }
    ensures below { result.at < length net.now }
    ensures usable { (choice v : ℕ → Bool) → Runs net.now choice v → IsUsable (seen.want_of want) v ends.now.live.at result.at }
{
    match want {
        Wanted::Value => net.constant(true),
        Wanted::Place => ends.live,
    }
}

// What the operator makes of two values.
fn combine(
    laid: &Laid,
    net: &mut Net,
    ends: &mut Ends,
    updating: &Updating,
    x: &Val,
    y: &Val,
) -> Result<Val, OutOfMemory>
    requires can { CanCombine (source_of laid.now) (seen.updating updating.now) x.now y.now }
    requires ends { AreEnds net.old ends.old }
    requires x { val_top x.now ≤ length net.old }
    requires y { val_top y.now ≤ length net.old }
    ensures grown { Grown net.old net.new }
    ensures ready { IfOk result (λ r. AreEnds net.new ends.new) }
    ensures locations { length ends.new.bads.items ≡ length ends.old.bads.items }
    ensures ok { IfOk result (λ r. Combines (source_of laid.now)
        net.new updating.now.op (type updating.now.works.now) (type updating.now.ctype.now) x.now y.now ends.old ends.new r) }
{
    let right = number_type(y);
    let (op, works, t) = (updating.op, updating.works, updating.ctype);
    let made = combined(laid.here, net, ends, op, works, t, &right, x, y)?;
    Ok(made)
}

/// The object at the kept place is set to what the operator makes of its former value and the one on the right, from where a gate holds. The
/// layout has so many locations.
pub fn update(
    laid: &Laid,
    net: &mut Net,
    store: &mut Store,
    temps: &Temps,
    on: Gate,
    locations: usize,
    assignment: &Assignment,
) -> Result<Made, OutOfMemory>
    requires laid { IsLaid (source_of laid.now) (layout_of laid.now) store.old.locations.items }
    requires store { locations_top store.old.locations.items ≤ length net.old }
    requires temps { AreTemps net.old temps.now }
    requires on { on.at < length net.old }
    requires locations { length (layout_of laid.now).locations ≡ locations }
    requires can { CanUpdate (source_of laid.now) (layout_of laid.now) temps.now (seen.updating assignment.now.updating) (seen.want_of assignment.now.want)
        assignment.now.place assignment.now.former assignment.now.right }
    ensures grown { Grown net.old net.new }
    ensures made { IfOk result (λ made. IsStepMade (layout_of laid.now) net.new on store.new made) }
    ensures ok { IfOk result (λ made. Updates (source_of laid.now) (layout_of laid.now) temps.now net.new
        (seen.updating assignment.now.updating) (seen.want_of assignment.now.want) assignment.now.place assignment.now.former assignment.now.right
        store.old.locations.items store.new.locations.items made) }
{
    let u = &assignment.updating;
    let place = place_in(temps, assignment.place);
    let x = val_in(temps, assignment.former);
    let y = val_in(temps, assignment.right);
    let mut ends = Ends::new(net.alloc(), net, on, locations)?;
    let value = combine(laid, net, &mut ends, u, x, y)?;
    let want = want_in(assignment.want);
    let val = assign(laid.here, net, store, &ends, want, u.ctype, place, &value)?;
    let sure = usable(net, assignment.want, &ends);
    Ok(Made {
        on,
        ends,
        val,
        sure,
    })
}
