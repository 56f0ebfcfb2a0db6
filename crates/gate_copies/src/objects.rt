//! The cells of the objects to which targets lead.

ghost use Rattle.std.specs.Prelude.{◌≡◌, ℕ, ◌+◌, ◌<◌, ◌^◌, ◌++◌, suc, length, map, max, IfOk, OnOk};
ghost use Rattle.gl_sets.specs.Guards.{targets_of};
ghost use Rattle.layout_base.specs.Seen as laid;
ghost use Rattle.sc_world.specs.Eval as spec;
ghost use Rattle.sc_world.specs.Layout as layouts;
ghost use Rattle.sc_world.specs.View.{type};
ghost use Rattle.run_values.specs.Objects.{is_cell_of, cells_from};
ghost use Rattle.gate_copies.specs.Objects.{cell_targets, cell_with, cells_in, may_stand, most, object_targets};

use bit_net::OutOfMemory;
use gl_sets::Pair;
use layout_base::{Kind, Places};
use layout_lookup::is_cell;
use run_world::same_type;
use sc_tree::ctype::CType;
use sc_world::Origin;
use std::alloc::Global;

// No function has more locations, so no location is a part of another one through more steps.
const MOST_STEPS: u32 = 256;

/// An object, by the targets of its cells, in order.
#[derive(Drop)]
pub struct Object {
    pub cells: Vec<u32>,
}

fn origin_at(places: &Places, at: u32) -> Origin
    ensures { result ≡ (layouts.location (laid.layout_of places.now) at).origin }
{
    places.location(at).origin
}

fn is_cell_at(places: &Places, at: u32) -> bool
    ensures { result ≡ layouts.is_cell (layouts.location (laid.layout_of places.now) at) }
{
    is_cell(places.location(at))
}

// Whether a location is the one at `at` or a part of it, through so many steps at most.
#[tactic(auto, using(run_values::proofs::Cells::within_steps))]
fn is_within(places: &Places, steps: u32, at: u32, k: u32) -> bool
    ensures { result ≡ spec.is_within steps (laid.layout_of places.now) at k }
{
    if at == k {
        return true;
    }
    if steps == 0 {
        return false;
    }
    match origin_at(places, k) {
        Origin::Part(up, _) => is_within(places, steps - 1, at, up),
        Origin::Param(_)
        | Origin::Global(_)
        | Origin::Local(_)
        | Origin::Literal(_)
        | Origin::Function(_)
        | Origin::Target(_)
        | Origin::Call(_) => false,
    }
}

// Whether a location is a cell of the object at `at`.
#[tactic(auto, unfolding(run_values::specs::Objects::is_cell_of))]
fn belongs(places: &Places, at: u32, k: u32) -> bool
    ensures { result ≡ is_cell_of (laid.layout_of places.now) at k }
{
    is_cell_at(places, k) && is_within(places, MOST_STEPS, at, k)
}

// Location k is passed: where it is a cell of the object, its target stands behind those before.
fn add_cell(places: &Places, at: u32, k: u32, cells: &mut Vec<u32>) -> Result<(), OutOfMemory>
    requires few { length (laid.layout_of places.now).locations < 2 ^ 32 }
    requires low { k < length (laid.layout_of places.now).locations }
    ensures { OnOk result (cells.new.items ++ map suc (cells_from (laid.layout_of places.now) at (k + 1))
        ≡ cells.old.items ++ map suc (cells_from (laid.layout_of places.now) at k)) }
{
    if !belongs(places, at, k) {
        return Ok(());
    }
    let target = k + 1;
    cells.push(target)?;
    Ok(())
}

/// The targets of the cells of the object at `at`, in order.
pub fn cells_of(places: &Places, alloc: Global, at: u32) -> Result<Object, OutOfMemory>
    requires few { length (laid.layout_of places.now).locations < 2 ^ 32 }
    ensures { IfOk result (λ r. r.cells.items ≡ cell_targets (laid.layout_of places.now) at) }
{
    let mut cells = Vec::new(alloc);
    for k in 0..places.count() {
        add_cell(places, at, k as u32, &mut cells)?;
    }
    Ok(Object { cells })
}

// Whether an object of the type may stand there: a location of the type, or a stub.
fn may_stand(places: &Places, t: &CType, at: u32) -> bool
    ensures { result ≡ may_stand (laid.layout_of places.now) (type t.now) at }
{
    let location = places.location(at);
    match location.kind {
        Kind::Stub => true,
        Kind::Void => matches!(t, CType::Void),
        Kind::Of(u) => same_type(u, t),
    }
}

// The object to which a target leads, where it may be of the type; else one without cells.
fn object_of(places: &Places, alloc: Global, t: &CType, target: u32) -> Result<Object, OutOfMemory>
    requires few { length (laid.layout_of places.now).locations < 2 ^ 32 }
    ensures { IfOk result (λ r. r.cells.items ≡ object_targets (laid.layout_of places.now) (type t.now) target) }
{
    if target > 0 && may_stand(places, t, target - 1) {
        let object = cells_of(places, alloc, target - 1)?;
        Ok(object)
    } else {
        let cells = Vec::new(alloc);
        Ok(Object { cells })
    }
}

/// For each pair the object to which its target leads, where it may be of the type.
pub fn objects_of(
    places: &Places,
    alloc: Global,
    t: &CType,
    pairs: &[Pair],
) -> Result<Vec<Object>, OutOfMemory>
    requires few { length (laid.layout_of places.now).locations < 2 ^ 32 }
    ensures { IfOk result (λ r. map cells_in r.items
        ≡ map (λ target. object_targets (laid.layout_of places.now) (type t.now) target) (targets_of pairs.now)) }
{
    let mut made = Vec::new(alloc);
    for pair in pairs {
        let object = object_of(places, alloc, t, pair.target)?;
        made.push(object)?;
    }
    Ok(made)
}

// The greater of two numbers of cells.
fn longer(most: usize, object: &Object) -> usize
    ensures { result ≡ max most (length object.now.cells.items) }
{
    let count = object.cells.len();
    if count > most { count } else { most }
}

/// How many cells an object has at most.
pub fn most_cells(objects: &[Object]) -> usize
    ensures { result ≡ most (map cells_in objects.now) }
{
    let mut most = 0;
    for object in objects {
        let more = longer(most, object);
        most = more;
    }
    most
}

// The target of the cell with that number; null where there is none.
fn cell_with(object: &Object, number: usize) -> u32
    ensures { result ≡ cell_with object.now.cells.items number }
{
    match object.cells.get(number) {
        None => 0,
        Some(cell) => *cell,
    }
}

/// For each object the target of the cell with that number; null where there is none.
pub fn cells_with(alloc: Global, objects: &[Object], number: usize) -> Result<Vec<u32>, OutOfMemory>
    ensures { IfOk result (λ r. r.items ≡ map (λ cells. cell_with cells number) (map cells_in objects.now)) }
{
    let mut targets = Vec::new(alloc);
    for object in objects {
        let target = cell_with(object, number);
        targets.push(target)?;
    }
    Ok(targets)
}
