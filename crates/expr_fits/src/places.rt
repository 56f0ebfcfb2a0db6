// Which locations have what an expression names.

ghost use Rattle.std.specs.Prelude.{◌≡◌, ◌<◌, ◌^◌, length};
ghost use Rattle.sc_world.specs.Layout as layouts;
ghost use Rattle.sc_world.specs.Tree.{is_array};
ghost use Rattle.sc_world.specs.View.{type};
ghost use Rattle.layout_base.specs.Seen as laid;
ghost use Rattle.expr_fits.specs.Here as here;

use crate::types::may_be_stub;
use layout_base::{Kind, Places};
use layout_lookup::{Lookup, is_stub};
use run_world::same_type;
use sc_base::{NameId, Pos};
use sc_gather::is_pointer;
use sc_tree::ctype::CType;
use sc_world::Origin;
use sum_rows::Step;

fn has_type(places: &Places, at: u32, t: &CType) -> bool
    ensures { result ≡ layouts.has_type (layouts.location (laid.layout_of places.now) at) (type t.now) }
{
    match places.location(at).kind {
        Kind::Stub => false,
        Kind::Void => matches!(t, CType::Void),
        Kind::Of(u) => same_type(u, t),
    }
}

fn is_stub_at(places: &Places, at: u32) -> bool
    ensures { result ≡ layouts.is_stub (layouts.location (laid.layout_of places.now) at) }
{
    is_stub(places.location(at))
}

fn origin_of(places: &Places, at: u32) -> Origin
    ensures { result ≡ (layouts.location (laid.layout_of places.now) at).origin }
{
    places.location(at).origin
}

fn same_pos(p: Pos, q: Pos) -> bool
    ensures { result ≡ layouts.same_pos p q }
{
    p.file == q.file && (p.line == q.line && p.col == q.col)
}

fn same_step(a: Step, b: Step) -> bool
    ensures { result ≡ layouts.same_step a b }
{
    match (a, b) {
        (Step::Deref, Step::Deref) => true,
        (Step::Field(m), Step::Field(n)) => m.at == n.at,
        (Step::Elem(m), Step::Elem(n)) => m == n,
        _ => false,
    }
}

fn same_origin(a: Origin, b: Origin) -> bool
    ensures { result ≡ layouts.same_origin a b }
{
    match (a, b) {
        (Origin::Param(m), Origin::Param(n)) => m == n,
        (Origin::Global(m), Origin::Global(n)) => m == n,
        (Origin::Local(m), Origin::Local(n)) => m == n,
        (Origin::Literal(p), Origin::Literal(q)) => same_pos(p, q),
        (Origin::Function(m), Origin::Function(n)) => m.at == n.at,
        (Origin::Target(m), Origin::Target(n)) => m == n,
        (Origin::Call(m), Origin::Call(n)) => m == n,
        (Origin::Part(m, s), Origin::Part(n, t)) => m == n && same_step(s, t),
        _ => false,
    }
}

fn is_there(layout: &Lookup, origin: Origin) -> bool
    ensures { result ≡ here.is_there (laid.layout_of layout.now.places.now) origin }
{
    let at = layout.location_of(origin);
    (at as usize) < layout.places.count() && same_origin(origin, origin_of(layout.places, at))
}

/// Whether a parameter, a local or a global is there, with that type.
pub fn is_typed_there(layout: &Lookup, origin: Origin, t: &CType) -> bool
    ensures { result ≡ here.is_typed_there (laid.layout_of layout.now.places.now) origin (type t.now) }
{
    is_there(layout, origin) && has_type(layout.places, layout.location_of(origin), t)
}

/// Whether the stub of a string or a function is there.
pub fn is_stub_there(layout: &Lookup, origin: Origin, t: &CType) -> bool
    ensures { result ≡ here.is_stub_there (laid.layout_of layout.now.places.now) origin (type t.now) }
{
    is_there(layout, origin)
        && (may_be_stub(t) && is_stub_at(layout.places, layout.location_of(origin)))
}

// Whether something of that type stands there, or the stub of a string or a function.
fn stands_at(places: &Places, t: &CType, at: u32) -> bool
    ensures { result ≡ here.stands_at (laid.layout_of places.now) (type t.now) at }
{
    has_type(places, at, t)
        || ((at as usize) < places.count() && (may_be_stub(t) && is_stub_at(places, at)))
}

fn has_type_there(places: &Places, at: Option<u32>, t: &CType) -> bool
    ensures { result ≡ here.has_type_there (laid.layout_of places.now) at (type t.now) }
{
    match at {
        None => false,
        Some(at) => has_type(places, at, t),
    }
}

// Whether the member is there, with its type, if something of the whole type stands there.
fn member_fits(layout: &Lookup, whole: &CType, name: NameId, member: &CType, at: u32) -> bool
    ensures { result ≡ here.member_fits (laid.layout_of layout.now.places.now) (type whole.now) name (type member.now) at }
{
    !stands_at(layout.places, whole, at)
        || has_type_there(layout.places, layout.part(at, Step::Field(name)), member)
}

// Whether the member is there, with its type, in each location of the whole type.
#[tactic(auto, using(crate::proofs::Below::fewer))]
fn members_fit(layout: &Lookup, whole: &CType, name: NameId, member: &CType) -> bool
    requires few { length (laid.layout_of layout.now.places.now).locations < 2 ^ 32 }
    ensures { result ≡ here.members_fit (laid.layout_of layout.now.places.now) (type whole.now) name (type member.now) }
{
    let mut at = layout.places.count();
    while at > 0 {
        at -= 1;
        if !member_fits(layout, whole, name, member, at as u32) {
            return false;
        }
    }
    true
}

// The same behind a pointer of that type.
fn members_behind_fit(layout: &Lookup, pointer: &CType, name: NameId, member: &CType) -> bool
    requires few { length (laid.layout_of layout.now.places.now).locations < 2 ^ 32 }
    ensures { result ≡ here.members_behind_fit (laid.layout_of layout.now.places.now) (type pointer.now) name (type member.now) }
{
    match pointer {
        CType::Ptr(whole) => members_fit(layout, whole.get(), name, member),
        CType::Void
        | CType::Bool
        | CType::Int(_)
        | CType::Array(_, _)
        | CType::Struct(_)
        | CType::Union(_)
        | CType::Func(_)
        | CType::Opaque(_) => false,
    }
}

/// Whether the member is there, with its type: for `->` behind a pointer, for `.` in an object.
pub fn field_fits(
    layout: &Lookup,
    arrow: bool,
    object: &CType,
    name: NameId,
    member: &CType,
) -> bool
    requires few { length (laid.layout_of layout.now.places.now).locations < 2 ^ 32 }
    ensures { result ≡ here.field_fits (laid.layout_of layout.now.places.now) arrow (type object.now) name (type member.now) }
{
    if arrow {
        members_behind_fit(layout, object, name, member)
    } else {
        members_fit(layout, object, name, member)
    }
}

fn is_element_of(places: &Places, array: &CType, origin: Origin) -> bool
    ensures { result ≡ here.is_element_of (laid.layout_of places.now) (type array.now) origin }
{
    match origin {
        Origin::Part(up, step) => match step {
            Step::Elem(_) => stands_at(places, array, up),
            Step::Deref | Step::Field(_) => false,
        },
        Origin::Param(_)
        | Origin::Global(_)
        | Origin::Local(_)
        | Origin::Literal(_)
        | Origin::Function(_)
        | Origin::Target(_)
        | Origin::Call(_) => false,
    }
}

// Whether what is there has the element type, if it is an element of an array of that type.
fn element_fits(places: &Places, array: &CType, element: &CType, at: u32) -> bool
    ensures { result ≡ here.element_fits (laid.layout_of places.now) (type array.now) (type element.now) at }
{
    !is_element_of(places, array, origin_of(places, at)) || has_type(places, at, element)
}

#[tactic(auto, using(crate::proofs::Below::fewer))]
fn elements_fit(places: &Places, array: &CType, element: &CType) -> bool
    requires few { length (laid.layout_of places.now).locations < 2 ^ 32 }
    ensures { result ≡ here.elements_fit (laid.layout_of places.now) (type array.now) (type element.now) }
{
    let mut at = places.count();
    while at > 0 {
        at -= 1;
        if !element_fits(places, array, element, at as u32) {
            return false;
        }
    }
    true
}

/// Whether an index into what has that type gives the other one, as far as the layout tells.
pub fn indexed_fits(layout: &Lookup, whole: &CType, element: &CType) -> bool
    requires few { length (laid.layout_of layout.now.places.now).locations < 2 ^ 32 }
    ensures { result ≡ here.indexed_fits (laid.layout_of layout.now.places.now) (is_array (type whole.now)) (type whole.now) (type element.now) }
{
    if run_values::is_array(whole) {
        elements_fit(layout.places, whole, element)
    } else {
        is_pointer(whole)
    }
}
