// The steps of a path, one after the other.

ghost use Rattle.std.specs.Prelude.{◌≡◌, ℕ, ◌≤◌, [], ◌∷◌, length, IfOk};
ghost use Rattle.bit_net.specs.Runs.{Grown};
ghost use Rattle.gl_sets.specs.Guards.{guards_top};
ghost use Rattle.gl_store.specs.Meets.{locations_top};
ghost use Rattle.layout_base.specs.Seen as laid;
ghost use Rattle.sum_rows.specs.declared.path.Step.TheVariants as step;
ghost use Rattle.gate_paths.specs.Targets.{Steps};

use crate::moves::{Move, go};
use crate::objects::usable;
use bit_net::{Net, OutOfMemory};
use gate_objects::pointer_of;
use gl_sets::Set;
use gl_store::Store;
use layout_lookup::Lookup;
use sum_rows::Step;

// The width that stands for a pointer.
const POINTER: u32 = 255;

// What the pointers of locations lead to.
fn pointed(layout: &Lookup, net: &mut Net, store: &Store, from: &Set) -> Result<Set, OutOfMemory>
    requires store { locations_top store.now.locations.items ≤ length net.old }
    requires from { guards_top from.now.pairs.items ≤ length net.old }
    ensures grown { Grown net.old net.new }
    ensures ok { IfOk result (λ r. Steps net.new (laid.layout_of layout.now.places.now) store.now.locations.items
        (step.Deref ∷ []) from.now.pairs.items r.pairs.items) }
{
    let cells = go(layout, net, Move::Cell, from)?;
    let val = store.load(net, &cells, POINTER)?;
    let pointer = pointer_of(net, &val)?;
    let made = usable(layout, net, store, &pointer)?;
    Ok(made)
}

// One step from locations.
#[tactic(auto, using(crate::proofs::Following::is_field))]
fn stepped(
    layout: &Lookup,
    net: &mut Net,
    store: &Store,
    step: Step,
    from: &Set,
) -> Result<Set, OutOfMemory>
    requires store { locations_top store.now.locations.items ≤ length net.old }
    requires from { guards_top from.now.pairs.items ≤ length net.old }
    ensures grown { Grown net.old net.new }
    ensures ok { IfOk result (λ r. Steps net.new (laid.layout_of layout.now.places.now) store.now.locations.items
        (step ∷ []) from.now.pairs.items r.pairs.items) }
{
    match step {
        Step::Deref => {
            let made = pointed(layout, net, store, from)?;
            Ok(made)
        }
        Step::Field(_) | Step::Elem(_) => {
            let made = go(layout, net, Move::Part(step), from)?;
            Ok(made)
        }
    }
}

/// Steps from the locations of a set, one after the other.
pub fn follow(
    layout: &Lookup,
    net: &mut Net,
    store: &Store,
    steps: &[Step],
    begin: Set,
) -> Result<Set, OutOfMemory>
    requires store { locations_top store.now.locations.items ≤ length net.old }
    requires begin { guards_top begin.pairs.items ≤ length net.old }
    ensures grown { Grown net.old net.new }
    ensures ok { IfOk result (λ r. Steps net.new (laid.layout_of layout.now.places.now) store.now.locations.items
        steps.now begin.pairs.items r.pairs.items) }
{
    let mut come = begin;
    for step in steps {
        let to = stepped(layout, net, store, *step, &come)?;
        come = to;
    }
    Ok(come)
}
