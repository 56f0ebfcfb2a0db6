//! What stands at places, and what is stored there.

ghost use Rattle.std.specs.Prelude.{◌≡◌, ℕ, ◌<◌, ◌≤◌, true, false, Some, length, IfOk};
ghost use Rattle.bit_net.specs.Runs.{Grown};
ghost use Rattle.bit_words.specs.Number.{top};
ghost use Rattle.gl_sets.specs.Guards.{guards_top};
ghost use Rattle.gl_store.specs.Meets.{val_top, locations_top};
ghost use Rattle.gate_runs.specs.Stands.{AreEnds};
ghost use Rattle.run_store.specs.Concrete.{width_kind};
ghost use Rattle.sc_world.specs.View.{type};
ghost use Rattle.sc_world.specs.World.{kind_of_type};
ghost use Rattle.run_laws.specs.Fits as fits;
ghost use Rattle.run_world.specs.Seen as seen;
ghost use Rattle.run_values.specs.Seen.{want_of};
ghost use Rattle.gate_places.specs.Places.{DoesAssign, DoesFind, DoesIndex, DoesIndirect, IsLaid, reads_cell};

use crate::following::dereference;
use bit_net::{Net, OutOfMemory};
use bit_words::{Word, is_zero};
use gate_runs::Ends;
use gate_steps::{load, store, unless};
use gl_sets::Set;
use gl_store::{Store, Val};
use layout_base::is_cell;
use run_entry::integer_bits;
use run_values::Want;
use run_world::Here;
use sc_gather::is_pointer;
use sc_tree::ctype::CType;
use sc_world::Reason;

// The width of a pointer's cell.
const POINTER: u32 = 255;

// Whether the cell at a place is wanted; else the place itself is.
fn reads_cell(want: Want, t: &CType) -> bool
    ensures { result ≡ reads_cell (want_of want) (type t.now) }
{
    match want {
        Want::Value => is_cell(t),
        Want::Place => false,
    }
}

// The width of the cell of a scalar type, as stores have it.
#[tactic(auto, using(crate::proofs::Placing::pointer_width, crate::proofs::Placing::integer_width))]
fn cell_width(here: &Here, t: &CType) -> u32
    requires { fits.is_scalar (type t.now) ≡ true }
    ensures { width_kind result ≡ kind_of_type (seen.env here.now).source (Some (type t.now)) }
{
    if is_pointer(t) {
        POINTER
    } else {
        integer_bits(here, t)
    }
}

// The value of the cell at a place.
fn cell_at(
    here: &Here,
    net: &mut Net,
    store: &Store,
    want: Want,
    t: &CType,
    pointer: &Set,
) -> Result<Val, OutOfMemory>
    requires reads { reads_cell (want_of want) (type t.now) ≡ true }
    requires scalar { fits.is_scalar (type t.now) ≡ true }
    requires laid { IsLaid (seen.env here.now).source (seen.env here.now).layout store.now.locations.items }
    requires store { locations_top store.now.locations.items ≤ length net.old }
    requires pointer { guards_top pointer.now.pairs.items ≤ length net.old }
    ensures grown { Grown net.old net.new }
    ensures ok { IfOk result (λ r. DoesFind (seen.env here.now).source (seen.env here.now).layout
        net.new store.now.locations.items (want_of want) (type t.now) pointer.now.pairs.items r) }
{
    let width = cell_width(here, t);
    let val = load(net, store, pointer, width)?;
    Ok(val)
}

// The place itself.
fn place_at(
    here: &Here,
    net: &Net,
    store: &Store,
    want: Want,
    t: &CType,
    pointer: &Set,
) -> Result<Val, OutOfMemory>
    requires reads { reads_cell (want_of want) (type t.now) ≡ false }
    requires pointer { guards_top pointer.now.pairs.items ≤ length net.now }
    ensures { IfOk result (λ r. DoesFind (seen.env here.now).source (seen.env here.now).layout
        net.now store.now.locations.items (want_of want) (type t.now) pointer.now.pairs.items r) }
{
    let place = pointer.try_clone(net)?;
    Ok(Val::Set(place))
}

/// What is wanted of the place to which the pointer leads: the value of its cell, or the place itself.
#[tactic(auto, using(crate::proofs::Placing::reads_scalar))]
pub fn wanted(
    here: &Here,
    net: &mut Net,
    store: &Store,
    want: Want,
    t: &CType,
    pointer: &Set,
) -> Result<Val, OutOfMemory>
    requires laid { IsLaid (seen.env here.now).source (seen.env here.now).layout store.now.locations.items }
    requires store { locations_top store.now.locations.items ≤ length net.old }
    requires pointer { guards_top pointer.now.pairs.items ≤ length net.old }
    ensures grown { Grown net.old net.new }
    ensures ok { IfOk result (λ r. DoesFind (seen.env here.now).source (seen.env here.now).layout
        net.new store.now.locations.items (want_of want) (type t.now) pointer.now.pairs.items r) }
{
    if reads_cell(want, t) {
        cell_at(here, net, store, want, t, pointer)
    } else {
        place_at(here, net, store, want, t, pointer)
    }
}

/// What is wanted of the place behind the pointer (C11 6.5.3.2); it is followed first, which may set the run aside.
#[tactic(auto, using(crate::proofs::Placing::does_indirect), unfolding(run_world::specs::Seen::env))]
pub fn indirection(
    here: &Here,
    net: &mut Net,
    store: &Store,
    ends: &mut Ends,
    want: Want,
    t: &CType,
    pointer: &Set,
) -> Result<Val, OutOfMemory>
    requires laid { IsLaid (seen.env here.now).source (seen.env here.now).layout store.now.locations.items }
    requires store { locations_top store.now.locations.items ≤ length net.old }
    requires ends { AreEnds net.old ends.old }
    requires pointer { guards_top pointer.now.pairs.items ≤ length net.old }
    ensures grown { Grown net.old net.new }
    ensures ready { IfOk result (λ r. AreEnds net.new ends.new) }
    ensures locations { length ends.new.bads.items ≡ length ends.old.bads.items }
    ensures ok { IfOk result (λ r. DoesIndirect (seen.env here.now).source (seen.env here.now).layout
        net.new store.now.locations.items (want_of want) (type t.now) pointer.now.pairs.items ends.old ends.new r) }
{
    dereference(here.places, net, store, ends, t, pointer)?;
    let val = wanted(here, net, store, want, t, pointer)?;
    Ok(val)
}

/// `p [ k ]` of a pointer (C11 6.5.2.1): only `p [ 0 ]` is there, any other index sets the run aside.
#[tactic(auto, unfolding(run_world::specs::Seen::env))]
pub fn pointer_index(
    here: &Here,
    net: &mut Net,
    store: &Store,
    ends: &mut Ends,
    want: Want,
    t: &CType,
    pointer: &Set,
    index: &Word,
) -> Result<Val, OutOfMemory>
    requires laid { IsLaid (seen.env here.now).source (seen.env here.now).layout store.now.locations.items }
    requires store { locations_top store.now.locations.items ≤ length net.old }
    requires ends { AreEnds net.old ends.old }
    requires pointer { guards_top pointer.now.pairs.items ≤ length net.old }
    requires index { top index.now.bits.items ≤ length net.old }
    ensures grown { Grown net.old net.new }
    ensures ready { IfOk result (λ r. AreEnds net.new ends.new) }
    ensures locations { length ends.new.bads.items ≡ length ends.old.bads.items }
    ensures ok { IfOk result (λ r. DoesIndex (seen.env here.now).source (seen.env here.now).layout
        net.new store.now.locations.items (want_of want) (type t.now) pointer.now.pairs.items index.now ends.old ends.new r) }
{
    dereference(here.places, net, store, ends, t, pointer)?;
    let zero = is_zero(net, index)?;
    unless(net, ends, zero, Reason::Index)?;
    let val = wanted(here, net, store, want, t, pointer)?;
    Ok(val)
}

/// Stores the value at the place to which the pointer leads, where the run goes on, and gives what is wanted of the place
/// (C11 6.5.16). After a refusal of memory the store may be written in part, and is not to be used again.
pub fn assign(
    here: &Here,
    net: &mut Net,
    stored: &mut Store,
    ends: &Ends,
    want: Want,
    t: &CType,
    place: &Set,
    val: &Val,
) -> Result<Val, OutOfMemory>
    requires laid { IsLaid (seen.env here.now).source (seen.env here.now).layout stored.old.locations.items }
    requires store { locations_top stored.old.locations.items ≤ length net.old }
    requires ends { AreEnds net.old ends.now }
    requires place { guards_top place.now.pairs.items ≤ length net.old }
    requires val { val_top val.now ≤ length net.old }
    ensures grown { Grown net.old net.new }
    ensures ok { IfOk result (λ r. DoesAssign (seen.env here.now).source (seen.env here.now).layout
        net.new ends.now (want_of want) (type t.now) place.now val.now stored.old.locations.items stored.new.locations.items r) }
{
    store(net, stored, ends, place, val)?;
    let made = wanted(here, net, stored, want, t, place)?;
    Ok(made)
}
