// Pointer cells by which others hold objects.

ghost use Rattle.std.specs.Prelude.{◌≡◌, ◌++◌, [], IfOk, OnOk};
ghost use Rattle.sc_world.specs.Shows as spec;
ghost use Rattle.run_answers.specs.Seen as seen;

use crate::over::{Over, count, has, is_pointer_cell, location_at, object_of, root_at, value_now};
use run_store::Flag;
use sc_base::OutOfMemory;
use sc_world::Origin;
use std::alloc::Global;

/// Which holders do not count.
#[derive(Clone, Copy, Debug, PartialEq, Eq)]
pub enum Beside {
    /// All count.
    Nothing,
    /// The cells of that object do not.
    Object(u32),
    /// That cell does not.
    Cell(u32),
}

fn is_held_by_entry(origin: Origin) -> bool
    ensures { result ≡ spec.is_held_by_entry origin }
{
    match origin {
        Origin::Global(_) | Origin::Target(_) => true,
        Origin::Param(_)
        | Origin::Local(_)
        | Origin::Literal(_)
        | Origin::Function(_)
        | Origin::Call(_)
        | Origin::Part(_, _) => false,
    }
}

// Whether an object is a global, or a pointer pointed to it at entry.
fn is_known(over: &Over, object: u32) -> bool
    ensures { result ≡ spec.is_known (seen.over over.now) object }
{
    let location = location_at(over, object);
    is_held_by_entry(location.origin) && location.state.is_some()
}

// Whether others have what an object points to.
fn holds_objects(over: &Over, object: u32) -> bool
    ensures { result ≡ spec.holds_objects (seen.over over.now) object }
{
    !has(over, Flag::Freed, object) && (is_known(over, object) || has(over, Flag::Escaped, object))
}

// Whether others have what the cell at a location points to.
fn is_holder(over: &Over, at: u32) -> bool
    ensures { result ≡ spec.is_holder (seen.over over.now) at }
{
    is_pointer_cell(over, at) && holds_objects(over, root_at(over, at))
}

// Whether a holder counts.
fn counts(over: &Over, beside: Beside, at: u32) -> bool
    ensures { result ≡ seen.counts (seen.over over.now) beside at }
{
    match beside {
        Beside::Nothing => true,
        Beside::Object(object) => root_at(over, at) != object,
        Beside::Cell(cell) => at != cell,
    }
}

// The object that the cell at a location holds for others.
#[tactic(auto, unfolding(crate::specs::Seen::held_at))]
fn held_at(over: &Over, beside: Beside, at: u32) -> Option<u32>
    ensures { result ≡ seen.held_at (seen.over over.now) beside at }
{
    if is_holder(over, at) && counts(over, beside, at) {
        object_of(over, value_now(over, at))
    } else {
        None
    }
}

// An object is put behind others, if there is one.
fn put(objects: &mut Vec<u32>, object: Option<u32>) -> Result<(), OutOfMemory>
    ensures { OnOk result (objects.new.items ≡ objects.old.items ++ spec.with_object object []) }
{
    if let Some(n) = object {
        objects.push(n)?;
    }
    Ok(())
}

/// An object, if there is one, and those that the holders which count hold.
#[tactic(auto, using(crate::proofs::Held::held_steps))]
pub fn held(
    alloc: Global,
    over: &Over,
    first: Option<u32>,
    beside: Beside,
) -> Result<Vec<u32>, OutOfMemory>
    requires { seen.HasFew over.now }
    ensures { IfOk result (λ v. v.items ≡ seen.held (seen.over over.now) first beside) }
{
    let mut objects = Vec::new(alloc);
    put(&mut objects, first)?;
    for k in 0..count(over) {
        put(&mut objects, held_at(over, beside, k as u32))?;
    }
    Ok(objects)
}
