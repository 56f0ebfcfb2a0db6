// Paths of locations.

ghost use Rattle.std.specs.Prelude.{◌≡◌, IfOk};
ghost use Rattle.sc_world.specs.Paths as spec;
ghost use Rattle.layout_base.specs.Seen as laid;

use crate::origins::origin_at;
use layout_base::Places;
use sc_base::{List, OutOfMemory};
use sc_world::Origin;
use std::alloc::Global;
use sum_rows::{Path, Root, Step};

// The path without steps.
fn begun(alloc: Global, root: Root) -> Path
    ensures { result ≡ spec.begun root }
{
    Path {
        root,
        steps: List::new(alloc),
    }
}

// The path with one step more.
fn with_step(mut path: Path, step: Step) -> Result<Path, OutOfMemory>
    ensures { IfOk result (λ p. p ≡ spec.with_step step path) }
{
    path.steps.push(step)?;
    Ok(path)
}

// The path of a location, upward over so many locations at most.
#[tactic(auto, using(crate::proofs::Steps::path_steps))]
fn path_by(alloc: Global, places: &Places, most: usize, at: u32) -> Result<Path, OutOfMemory>
    ensures { IfOk result (λ p. p ≡ spec.path_by most (laid.layout_of places.now) at) }
{
    if most == 0 {
        return Ok(begun(alloc, Root::Param(0)));
    }
    match origin_at(places, at) {
        Origin::Param(n) => Ok(begun(alloc, Root::Param(n))),
        Origin::Global(n) => Ok(begun(alloc, Root::Global(n))),
        Origin::Target(up) => with_step(path_by(alloc, places, most - 1, up)?, Step::Deref),
        Origin::Part(up, step) => with_step(path_by(alloc, places, most - 1, up)?, step),
        Origin::Local(_) | Origin::Literal(_) | Origin::Function(_) | Origin::Call(_) => Ok(begun(
            alloc,
            Root::Param(0),
        )),
    }
}

/// The path of a location that is reached from parameters and globals.
pub fn path_of(alloc: Global, places: &Places, at: u32) -> Result<Path, OutOfMemory>
    ensures { IfOk result (λ p. p ≡ spec.path_of (laid.layout_of places.now) at) }
{
    path_by(alloc, places, places.count(), at)
}
