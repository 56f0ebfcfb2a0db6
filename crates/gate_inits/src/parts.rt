//! The part of an object that a value in braces sets.

ghost use Rattle.std.specs.Prelude.{◌≡◌, ℕ, Bool, Some, List as Lists};
ghost use Rattle.run_store.specs.Concrete.{Cell};
ghost use Rattle.sc_world.specs.Exec as spec;
ghost use Rattle.sc_world.specs.Layout as layouts;
ghost use Rattle.sc_world.specs.Tree as tree;
ghost use Rattle.layout_base.specs.Seen as laid;
ghost use Rattle.run_world.specs.Seen as seen;
ghost use Rattle.gate_places.specs.Places.{env_of};

use layout_base::Kind;
use layout_lookup::Lookup;
use run_world::Here;
use sc_base::{List, NameId};
use sc_tree::ctype::CType;
use sc_typed::InitStep;
use sum_rows::Step;

// The name of a member of a struct, by its number; none where it has no name or is not there.
#[tactic(auto, unfolding(run_world::specs::Seen::env, layout_base::specs::Seen::ground_of, sc_gather::specs::Seen::source_of, sc_world::specs::Programs::source_by))]
fn field_name(here: &Here, number: u32, member: u32) -> Option<NameId>
    ensures { result ≡ spec.name_of_member (seen.env here.now).source (Some (tree.Struct number)) member }
{
    match here
        .ground
        .here
        .program
        .structs
        .as_slice()
        .get(number as usize)
    {
        None => None,
        Some(definition) => match &definition.fields {
            None => None,
            Some(fields) => match fields.as_slice().get(member as usize) {
                None => None,
                Some(field) => field.name,
            },
        },
    }
}

// The same of a location of that kind: one that is no struct has no member.
fn member_name(here: &Here, kind: Kind, member: u32) -> Option<NameId>
    ensures { result ≡ spec.name_of_member (seen.env here.now).source (laid.type_of kind.entry) member }
{
    match kind {
        Kind::Stub | Kind::Void => None,
        Kind::Of(t) => match t {
            CType::Struct(number) => field_name(here, *number, member),
            CType::Void
            | CType::Bool
            | CType::Int(_)
            | CType::Ptr(_)
            | CType::Array(_, _)
            | CType::Union(_)
            | CType::Func(_)
            | CType::Opaque(_) => None,
        },
    }
}

// The member of a location with that number.
#[tactic(auto, unfolding(run_world::specs::Seen::env))]
fn member(here: &Here, layout: &Lookup, at: u32, n: u32) -> Option<u32>
    requires same { laid.layout_of layout.now.places.now ≡ (seen.env here.now).layout }
    ensures { result ≡ spec.member_part (seen.env here.now).layout at
        (spec.name_of_member (seen.env here.now).source (layouts.location (seen.env here.now).layout at).type n) }
{
    let location = here.places.location(at);
    match member_name(here, location.kind, n) {
        None => None,
        Some(name) => layout.part(at, Step::Field(name)),
    }
}

// The part to which a step leads.
fn part_into(here: &Here, layout: &Lookup, at: u32, step: InitStep) -> Option<u32>
    requires same { laid.layout_of layout.now.places.now ≡ (seen.env here.now).layout }
    ensures { result ≡ spec.part_into (seen.env here.now) at step }
{
    match step {
        InitStep::Field(n) => member(here, layout, at, n),
        InitStep::Elem(n) => layout.part(at, Step::Elem(n)),
    }
}

// The part to which these steps lead, one after another.
fn part_along(here: &Here, layout: &Lookup, steps: &[InitStep], from: u32) -> Option<u32>
    requires same { laid.layout_of layout.now.places.now ≡ (seen.env here.now).layout }
    ensures { result ≡ spec.part_along (seen.env here.now) steps.now from }
{
    let mut at = from;
    for step in steps {
        match part_into(here, layout, at, *step) {
            None => return None,
            Some(part) => at = part,
        }
    }
    Some(at)
}

/// The part of the object at a location to which a way leads; none where there is no way.
pub fn part_at(here: &Here, layout: &Lookup, at: u32, way: &Option<List<InitStep>>) -> Option<u32>
    requires same { laid.layout_of layout.now.places.now ≡ (seen.env here.now).layout }
    ensures { (bits : Lists Bool) (temps : Lists Cell) (turn : ℕ)
        → result ≡ spec.part_at (env_of (seen.env here.now).source (seen.env here.now).layout bits temps turn) at way.now }
{
    match way {
        None => None,
        Some(steps) => part_along(here, layout, steps.as_slice(), at),
    }
}
