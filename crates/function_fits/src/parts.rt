// The part of an object that a value in braces sets (C11 6.7.9), and locals.

ghost use Rattle.std.specs.Prelude.{◌≡◌, Some};
ghost use Rattle.sc_world.specs.declared.run.Origin.TheVariants as origin;
ghost use Rattle.sc_world.specs.Exec as spec;
ghost use Rattle.sc_world.specs.Layout as layouts;
ghost use Rattle.sc_world.specs.Tree as tree;
ghost use Rattle.layout_base.specs.Seen as placed;
ghost use Rattle.expr_fits.specs.Here as here;
ghost use Rattle.function_fits.specs.Laid.{env_in, layout_of, source_of};

use crate::laid::Laid;
use layout_base::Kind;
use sc_base::{List, NameId};
use sc_tree::ctype::CType;
use sc_typed::InitStep;
use sc_world::Origin;
use sum_rows::Step;

// The name of a member of a struct, by its number; none where it has no name or is not there.
#[tactic(auto, unfolding(sc_gather::specs::Seen::source_of, sc_world::specs::Programs::source_by))]
fn field_name(laid: &Laid, number: u32, member: u32) -> Option<NameId>
    ensures { result ≡ spec.name_of_member (source_of laid.now) (Some (tree.Struct number)) member }
{
    let structs = laid.function.program.structs.as_slice();
    match structs.get(number as usize) {
        None => None,
        Some(definition) => match &definition.fields {
            None => None,
            Some(fields) => match fields.as_slice().get(member as usize) {
                None => None,
                Some(field) => field.name,
            },
        },
    }
}

// The same of a location of that kind: one that is no struct has no member.
fn name_in(laid: &Laid, kind: Kind, member: u32) -> Option<NameId>
    ensures { result ≡ spec.name_of_member (source_of laid.now) (placed.type_of kind.entry) member }
{
    match kind {
        Kind::Stub | Kind::Void => None,
        Kind::Of(t) => match t {
            CType::Struct(number) => field_name(laid, *number, member),
            CType::Void
            | CType::Bool
            | CType::Int(_)
            | CType::Ptr(_)
            | CType::Array(_, _)
            | CType::Union(_)
            | CType::Func(_)
            | CType::Opaque(_) => None,
        },
    }
}

// The part to which a step leads.
fn part_into(laid: &Laid, at: u32, step: InitStep) -> Option<u32>
    ensures { result ≡ spec.part_into (env_in laid.now) at step }
{
    match step {
        InitStep::Field(n) => {
            let location = laid.layout.places.location(at);
            match name_in(laid, location.kind, n) {
                None => None,
                Some(name) => laid.layout.part(at, Step::Field(name)),
            }
        }
        InitStep::Elem(n) => laid.layout.part(at, Step::Elem(n)),
    }
}

// The part to which these steps lead, one after another.
fn part_along(laid: &Laid, steps: &[InitStep], from: u32) -> Option<u32>
    ensures { result ≡ spec.part_along (env_in laid.now) steps.now from }
{
    let mut at = from;
    for step in steps {
        match part_into(laid, at, *step) {
            None => return None,
            Some(part) => at = part,
        }
    }
    Some(at)
}

/// The part to which a way leads; none where there is no way.
pub fn part_at(laid: &Laid, at: u32, way: &Option<List<InitStep>>) -> Option<u32>
    ensures { result ≡ spec.part_at (env_in laid.now) at way.now }
{
    match way {
        None => None,
        Some(steps) => part_along(laid, steps.as_slice(), at),
    }
}

/// The location that a local is; 0 where it has none.
pub fn local_at(laid: &Laid, n: u32) -> u32
    ensures { result ≡ layouts.location_of (layout_of laid.now) (origin.Local n) }
{
    laid.layout.location_of(Origin::Local(n))
}

// Whether what comes from there is that local.
fn is_local(n: u32, from: Origin) -> bool
    ensures { result ≡ layouts.same_origin (origin.Local n) from }
{
    match from {
        Origin::Local(m) => n == m,
        Origin::Param(_)
        | Origin::Global(_)
        | Origin::Literal(_)
        | Origin::Function(_)
        | Origin::Target(_)
        | Origin::Call(_)
        | Origin::Part(_, _) => false,
    }
}

/// Whether a local is there.
pub fn is_local_there(laid: &Laid, n: u32) -> bool
    ensures { result ≡ here.is_there (layout_of laid.now) (origin.Local n) }
{
    let at = local_at(laid, n);
    let places = laid.layout.places;
    (at as usize) < places.count() && is_local(n, places.location(at).origin)
}
