//! What is done with one value: an object is set to it, or its cells are kept.

ghost use Rattle.std.specs.Prelude.{◌≡◌, ◌<◌, ◌≤◌, ◌^◌, length, IfOk, OnOk};
ghost use Rattle.bit_net.specs.Runs.{Grown};
ghost use Rattle.gl_sets.specs.Guards.{guards_top};
ghost use Rattle.gl_store.specs.Meets.{locations_top, val_top};
ghost use Rattle.gate_runs.specs.Stands.{AreEnds};
ghost use Rattle.layout_base.specs.Seen as laid;
ghost use Rattle.sc_world.specs.View.{type};
ghost use Rattle.run_laws.specs.Fits as fits;
ghost use Rattle.run_world.specs.Seen as seen;
ghost use Rattle.gate_places.specs.Places.{IsLaid};
ghost use Rattle.gate_copies.specs.Copies.{HaveRead};
ghost use Rattle.gate_copies.specs.Objects.{most};
ghost use Rattle.gate_inits.specs.Inits.{DoesGive, DoesSet, IsOneCell, objects_at};

use bit_net::{Net, OutOfMemory};
use gate_copies::{Guarded, Reading, copy, objects_of, read_all};
use gate_runs::Ends;
use gate_steps::store;
use gl_sets::Set;
use gl_store::{Store, Val};
use layout_lookup::Lookup;
use run_world::Here;
use sc_gather::{is_integer, is_pointer};
use sc_tree::ctype::CType;

/// An object that is set: its location, and its type.
#[derive(Clone, Copy)]
pub struct Local<'t> {
    pub at: u32,
    pub ctype: &'t CType,
}

/// Whether a type is that of a number or of a pointer.
pub fn is_scalar(t: &CType) -> bool
    ensures { result ≡ fits.is_scalar (type t.now) }
{
    is_integer(t) || is_pointer(t)
}

/// Sets an object to a value, where the run goes on: a scalar to the value itself, an object to a copy of the one to which the value leads.
/// After a refusal of memory the store may be written in part, and is not to be used again.
pub fn set_local(
    here: &Here,
    layout: &Lookup,
    net: &mut Net,
    stored: &mut Store,
    ends: &Ends,
    local: &Local,
    val: &Val,
) -> Result<(), OutOfMemory>
    requires few { length (laid.layout_of layout.now.places.now).locations < 2 ^ 32 }
    requires same { laid.layout_of layout.now.places.now ≡ (seen.env here.now).layout }
    requires laid { IsLaid (seen.env here.now).source (seen.env here.now).layout stored.old.locations.items }
    requires there { local.now.at < length (seen.env here.now).layout.locations }
    requires store { locations_top stored.old.locations.items ≤ length net.old }
    requires ends { AreEnds net.old ends.now }
    requires val { val_top val.now ≤ length net.old }
    ensures grown { Grown net.old net.new }
    ensures ok { OnOk result (DoesSet (seen.env here.now).source (seen.env here.now).layout
        net.new ends.now (type local.now.ctype.now) local.now.at val.now stored.old.locations.items stored.new.locations.items) }
{
    let to = Set::one(net, local.at + 1);
    if is_scalar(local.ctype) {
        store(net, stored, ends, &to, val)?;
        return Ok(());
    }
    match val {
        Val::Set(from) => {
            copy(here, layout, net, stored, ends, local.ctype, &to, from)?;
            Ok(())
        }
        Val::Word(_) => Ok(()),
        Val::Unit => Ok(()),
    }
}

// The value of a scalar as its one cell.
fn one_cell(net: &Net, val: Val) -> Result<Vec<Reading>, OutOfMemory>
    requires val { val_top val ≤ length net.now }
    ensures { IfOk result (λ r. IsOneCell net.now val r.items) }
{
    let when = net.constant(true);
    let mut vals = Vec::new(net.alloc());
    vals.push(Guarded { when, val })?;
    let mut cells = Vec::new(net.alloc());
    cells.push(Reading { vals })?;
    Ok(cells)
}

// The cells of the object to which a value leads.
fn cells_behind(
    here: &Here,
    layout: &Lookup,
    net: &mut Net,
    stored: &Store,
    t: &CType,
    from: &Set,
) -> Result<Vec<Reading>, OutOfMemory>
    requires few { length (laid.layout_of layout.now.places.now).locations < 2 ^ 32 }
    requires same { laid.layout_of layout.now.places.now ≡ (seen.env here.now).layout }
    requires laid { IsLaid (seen.env here.now).source (seen.env here.now).layout stored.now.locations.items }
    requires store { locations_top stored.now.locations.items ≤ length net.old }
    requires from { guards_top from.now.pairs.items ≤ length net.old }
    ensures grown { Grown net.old net.new }
    ensures ok { IfOk result (λ r. HaveRead net.new (seen.env here.now).source (seen.env here.now).layout stored.now.locations.items
        from.now.pairs.items (objects_at (seen.env here.now).layout (type t.now) from.now.pairs.items)
        (most (objects_at (seen.env here.now).layout (type t.now) from.now.pairs.items)) r.items) }
{
    let objects = objects_of(layout.places, net.alloc(), t, from.pairs.as_slice())?;
    let readings = read_all(here, net, stored, from, objects.as_slice())?;
    Ok(readings)
}

/// The cells of a value, as they are now: one of a scalar, those of the object to which the value leads.
pub fn cells_given(
    here: &Here,
    layout: &Lookup,
    net: &mut Net,
    stored: &Store,
    t: &CType,
    val: Val,
) -> Result<Vec<Reading>, OutOfMemory>
    requires few { length (laid.layout_of layout.now.places.now).locations < 2 ^ 32 }
    requires same { laid.layout_of layout.now.places.now ≡ (seen.env here.now).layout }
    requires laid { IsLaid (seen.env here.now).source (seen.env here.now).layout stored.now.locations.items }
    requires store { locations_top stored.now.locations.items ≤ length net.old }
    requires val { val_top val ≤ length net.old }
    ensures grown { Grown net.old net.new }
    ensures ok { IfOk result (λ r. DoesGive (seen.env here.now).source (seen.env here.now).layout
        net.new (type t.now) val stored.now.locations.items r.items) }
{
    if is_scalar(t) {
        let cells = one_cell(net, val)?;
        return Ok(cells);
    }
    match val {
        Val::Set(from) => {
            let cells = cells_behind(here, layout, net, stored, t, &from)?;
            Ok(cells)
        }
        Val::Word(_) => Ok(Vec::new(net.alloc())),
        Val::Unit => Ok(Vec::new(net.alloc())),
    }
}
