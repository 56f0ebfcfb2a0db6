// How large a type may be.

ghost use Rattle.std.specs.Prelude.{◌≡◌, map};
ghost use Rattle.sc_rules.specs.Walks.{given};
ghost use Rattle.sc_parts.specs.Bounds as spec;

use sc_base::{List, Pos, Skip};
use sc_rules::{Fault, Walk, fault};
use sc_tree::ctype::{CType, Signature};

const MAX_DERIVATIONS: u32 = 128;

const MAX_PARTS: u32 = 4096;

// Whether at most so many derivations stand in one another.
#[cycle(within)]
fn within(t: &CType, most: u32) -> bool
    ensures { result ≡ spec.within t.now most }
{
    match t {
        CType::Ptr(target) => most != 0 && within(target.get(), most - 1),
        CType::Array(element, _) => most != 0 && within(element.get(), most - 1),
        CType::Func(signature) => most != 0 && signature_within(signature.get(), most - 1),
        CType::Void
        | CType::Bool
        | CType::Int(_)
        | CType::Struct(_)
        | CType::Union(_)
        | CType::Opaque(_) => true,
    }
}

#[cycle(within)]
fn signature_within(s: &Signature, most: u32) -> bool
    ensures { result ≡ spec.signature_within s.now most }
{
    within(&s.result, most)
        && match &s.params {
            None => true,
            Some(types) => all_within(types, most),
        }
}

#[cycle(within)]
fn all_within(types: &List<CType>, most: u32) -> bool
    ensures { result ≡ spec.all_within (Some (map spec.within types.now)) most }
{
    for t in types.as_slice() {
        if !within(t, most) {
            return false;
        }
    }
    true
}

// What is left of a room of so many parts when one part stands in it.
fn part_left(room: u32) -> Option<u32>
    ensures { result ≡ spec.part_left room }
{
    if room == 0 { None } else { Some(room - 1) }
}

// What is left of a room of so many parts when the type stands in it; `None` where it does not fit.
#[cycle(left)]
fn left(t: &CType, room: u32) -> Option<u32>
    ensures { result ≡ spec.left t.now room }
{
    let rest = part_left(room)?;
    match t {
        CType::Ptr(target) => left(target.get(), rest),
        CType::Array(element, _) => left(element.get(), rest),
        CType::Func(signature) => signature_left(signature.get(), rest),
        CType::Void
        | CType::Bool
        | CType::Int(_)
        | CType::Struct(_)
        | CType::Union(_)
        | CType::Opaque(_) => Some(rest),
    }
}

#[cycle(left)]
fn signature_left(s: &Signature, room: u32) -> Option<u32>
    ensures { result ≡ spec.signature_left s.now room }
{
    let rest = left(&s.result, room)?;
    match &s.params {
        None => Some(rest),
        Some(types) => all_left(types, rest),
    }
}

#[cycle(left)]
fn all_left(types: &List<CType>, room: u32) -> Option<u32>
    ensures { result ≡ spec.all_left (map spec.left types.now) room }
{
    let mut rest = room;
    for t in types.as_slice() {
        rest = left(t, rest)?;
    }
    Some(rest)
}

// Whether a type is no larger than types may be.
fn is_bounded(t: &CType) -> bool
    ensures { result ≡ spec.is_bounded t.now }
{
    within(t, MAX_DERIVATIONS) && left(t, MAX_PARTS).is_some()
}

// The fault of a declarator at that place that makes too large a type.
fn too_large(at: Pos) -> Fault
    ensures { result ≡ spec.too_large at }
{
    Fault {
        pos: at,
        skip: Skip::Grammar { pos: at },
    }
}

/// The type of what is declared at that place. One with more than 128 pointers, arrays and functions in one another,
/// or with more than 4,096 parts, is refused there, as what the grammar does not have. The time is linear in the
/// parts of the type.
pub fn bounded(walk: &mut Walk, at: Pos, t: Option<CType>) -> Option<CType>
    ensures { given t (spec.bounded at) walk.old ≡ (result, walk.new) }
{
    match t {
        None => None,
        Some(t) => {
            if is_bounded(&t) {
                Some(t)
            } else {
                fault(walk, too_large(at))
            }
        }
    }
}
