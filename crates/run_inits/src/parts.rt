// The part of an object that a value in braces sets (C11 6.7.9).

ghost use Rattle.std.specs.Prelude.{◌≡◌, ◌<◌, ◌^◌, length};
ghost use Rattle.sc_world.specs.Exec as spec;
ghost use Rattle.sc_world.specs.Tree as tree;
ghost use Rattle.layout_base.specs.Seen as laid;
ghost use Rattle.run_world.specs.Seen as seen;

use crate::lookup::part;
use layout_base::Kind;
use run_world::Here;
use sc_base::{List, NameId};
use sc_tree::ctype::CType;
use sc_typed::InitStep;
use sum_rows::Step;

// The name of a member of a struct, by its number; none where it has no name or is not there.
#[tactic(auto, unfolding(run_world::specs::Seen::env, layout_base::specs::Seen::ground_of, sc_gather::specs::Seen::source_of, sc_world::specs::Programs::source_by))]
fn field_name(here: &Here, number: u32, member: u32) -> Option<NameId>
    ensures { result ≡ spec.name_of_member (seen.env here.now).source (Some (tree.Struct number)) member }
{
    match here
        .ground
        .here
        .program
        .structs
        .as_slice()
        .get(number as usize)
    {
        None => None,
        Some(definition) => match &definition.fields {
            None => None,
            Some(fields) => match fields.as_slice().get(member as usize) {
                None => None,
                Some(field) => field.name,
            },
        },
    }
}

// The same of a location of that kind: one that is no struct has no member.
fn member_name(here: &Here, kind: Kind, member: u32) -> Option<NameId>
    ensures { result ≡ spec.name_of_member (seen.env here.now).source (laid.type_of kind.entry) member }
{
    match kind {
        Kind::Stub | Kind::Void => None,
        Kind::Of(t) => match t {
            CType::Struct(number) => field_name(here, *number, member),
            CType::Void
            | CType::Bool
            | CType::Int(_)
            | CType::Ptr(_)
            | CType::Array(_, _)
            | CType::Union(_)
            | CType::Func(_)
            | CType::Opaque(_) => None,
        },
    }
}

// The part to which a step leads.
#[tactic(auto, unfolding(run_world::specs::Seen::env))]
fn part_into(here: &Here, at: u32, step: InitStep) -> Option<u32>
    requires { length here.now.places.now.locations.items < 2 ^ 32 }
    ensures { result ≡ spec.part_into (seen.env here.now) at step }
{
    match step {
        InitStep::Field(n) => {
            let location = here.places.location(at);
            match member_name(here, location.kind, n) {
                None => None,
                Some(name) => part(here, at, Step::Field(name)),
            }
        }
        InitStep::Elem(n) => part(here, at, Step::Elem(n)),
    }
}

// The part to which these steps lead, one after another.
fn part_along(here: &Here, steps: &[InitStep], from: u32) -> Option<u32>
    requires { length here.now.places.now.locations.items < 2 ^ 32 }
    ensures { result ≡ spec.part_along (seen.env here.now) steps.now from }
{
    let mut at = from;
    for step in steps {
        match part_into(here, at, *step) {
            None => return None,
            Some(part) => at = part,
        }
    }
    Some(at)
}

/// The part to which a way leads; none where there is no way.
pub fn part_at(here: &Here, at: u32, way: &Option<List<InitStep>>) -> Option<u32>
    requires { length here.now.places.now.locations.items < 2 ^ 32 }
    ensures { result ≡ spec.part_at (seen.env here.now) at way.now }
{
    match way {
        None => None,
        Some(steps) => part_along(here, steps.as_slice(), at),
    }
}
