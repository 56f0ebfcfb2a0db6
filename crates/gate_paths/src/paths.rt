// A path from the arguments and globals of a call.

ghost use Rattle.std.specs.Prelude.{◌≡◌, ℕ, ◌≤◌, length, IfOk};
ghost use Rattle.bit_net.specs.Runs.{Grown};
ghost use Rattle.gl_store.specs.Meets.{locations_top};
ghost use Rattle.layout_base.specs.Seen as laid;
ghost use Rattle.gate_objects.specs.Escapes.{AreBelow};
ghost use Rattle.gate_paths.specs.Paths.{FollowsOut, FollowsPath, FromArgument, FromGlobal, IsArgument};

use crate::moves::{Move, go, target_of};
use crate::objects::usable;
use crate::steps::follow;
use bit_net::{Net, OutOfMemory};
use gate_objects::pointer_of;
use gl_sets::Set;
use gl_store::{Store, Val};
use layout_lookup::Lookup;
use sc_world::Origin;
use sum_rows::{Path, Root, Step};

// The pointer that the argument with that number is; null past the end, and of what is no pointer.
#[tactic(auto, using(crate::proofs::Leading::argument_some, crate::proofs::Leading::argument_none))]
fn argument(net: &Net, args: &[Val], n: u32) -> Result<Set, OutOfMemory>
    requires args { AreBelow net.now args.now }
    ensures { IfOk result (λ r. IsArgument net.now args.now n r.pairs.items) }
{
    match args.get(n as usize) {
        None => Ok(Set::one(net, 0)),
        Some(val) => {
            let pointer = pointer_of(net, val)?;
            Ok(pointer)
        }
    }
}

// The steps from a global.
fn from_global(
    layout: &Lookup,
    net: &mut Net,
    store: &Store,
    n: u32,
    steps: &[Step],
) -> Result<Set, OutOfMemory>
    requires store { locations_top store.now.locations.items ≤ length net.old }
    ensures grown { Grown net.old net.new }
    ensures ok { IfOk result (λ r. FromGlobal net.new (laid.layout_of layout.now.places.now) store.now.locations.items
        n steps.now r.pairs.items) }
{
    let target = target_of(Some(layout.location_of(Origin::Global(n))))?;
    let begin = Set::one(net, target);
    let made = follow(layout, net, store, steps, begin)?;
    Ok(made)
}

// The steps from what an argument points to. An argument itself has no location, and no parts.
#[tactic(auto, using(crate::proofs::Leading::from_nothing, crate::proofs::Leading::from_part, crate::proofs::Leading::from_pointer))]
fn from_argument(
    layout: &Lookup,
    net: &mut Net,
    store: &Store,
    args: &[Val],
    n: u32,
    steps: &[Step],
) -> Result<Set, OutOfMemory>
    requires store { locations_top store.now.locations.items ≤ length net.old }
    requires args { AreBelow net.old args.now }
    ensures grown { Grown net.old net.new }
    ensures ok { IfOk result (λ r. FromArgument net.new (laid.layout_of layout.now.places.now) store.now.locations.items
        args.now n steps.now r.pairs.items) }
{
    match steps {
        [] => Ok(Set::one(net, 0)),
        [step, rest @ ..] => match step {
            Step::Deref => {
                let pointer = argument(net, args, n)?;
                let begin = usable(layout, net, store, &pointer)?;
                let made = follow(layout, net, store, rest, begin)?;
                Ok(made)
            }
            Step::Field(_) | Step::Elem(_) => Ok(Set::one(net, 0)),
        },
    }
}

/// Where a path leads from the arguments and globals of a call: for every choice the set points to the location, or to 0 where the path is
/// missing. Nothing is changed but that the net grows.
#[tactic(auto, using(crate::proofs::Leading::follows_argument, crate::proofs::Leading::follows_global))]
pub fn follow_path(
    layout: &Lookup,
    net: &mut Net,
    store: &Store,
    args: &[Val],
    path: &Path,
) -> Result<Set, OutOfMemory>
    requires store { locations_top store.now.locations.items ≤ length net.old }
    requires args { AreBelow net.old args.now }
    ensures grown { Grown net.old net.new }
    ensures ok { IfOk result (λ r. FollowsPath net.new (laid.layout_of layout.now.places.now) store.now.locations.items
        args.now path.now r.pairs.items) }
{
    let steps = path.steps.as_slice();
    match path.root {
        Root::Param(n) => {
            let made = from_argument(layout, net, store, args, n, steps)?;
            Ok(made)
        }
        Root::Global(n) => {
            let made = from_global(layout, net, store, n, steps)?;
            Ok(made)
        }
    }
}

/// The pointer cell that the argument with that number points to: for every choice the set points to the location, or to 0 where it is
/// missing, as `follow_path` does it.
pub fn follow_out(
    layout: &Lookup,
    net: &mut Net,
    store: &Store,
    args: &[Val],
    n: u32,
) -> Result<Set, OutOfMemory>
    requires store { locations_top store.now.locations.items ≤ length net.old }
    requires args { AreBelow net.old args.now }
    ensures grown { Grown net.old net.new }
    ensures ok { IfOk result (λ r. FollowsOut net.new (laid.layout_of layout.now.places.now) store.now.locations.items
        args.now n r.pairs.items) }
{
    let pointer = argument(net, args, n)?;
    let there = usable(layout, net, store, &pointer)?;
    let made = go(layout, net, Move::Cell, &there)?;
    Ok(made)
}
