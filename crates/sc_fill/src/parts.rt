// The parts of an object to which values go (C11 6.7.9).

ghost use Rattle.std.specs.Prelude.{◌≡◌, IfOk};
ghost use Rattle.sc_unary.specs.Members.{body_of};
ghost use Rattle.sc_fill.specs.Parts as spec;

use sc_base::{List, OutOfMemory};
use sc_tree::ctype::{CType, IntKind};
use sc_typed::{FieldDef, StructDef, TExpr, What};
use sc_types::copy_type;
use sc_unary::fields_of;
use std::alloc::Global;

/// Whether an expression is a string.
pub fn is_string(e: &TExpr) -> bool
    ensures { result ≡ spec.is_string e.now }
{
    matches!(&e.what, What::Str(_))
}

fn is_char_kind(kind: IntKind) -> bool
    ensures { result ≡ spec.is_char_kind kind }
{
    matches!(kind, IntKind::Char | IntKind::SChar | IntKind::UChar)
}

fn is_char(t: &CType) -> bool
    ensures { result ≡ spec.is_char t.now }
{
    match t {
        CType::Int(kind) => is_char_kind(*kind),
        _ => false,
    }
}

/// Whether a type is an array of characters.
pub fn is_char_array(t: &CType) -> bool
    ensures { result ≡ spec.is_char_array t.now }
{
    match t {
        CType::Array(element, _) => is_char(element.get()),
        _ => false,
    }
}

// Whether a member takes values: all but bit fields without a name do.
fn takes_values(field: &FieldDef) -> bool
    ensures { result ≡ spec.takes_values field.now }
{
    field.name.is_some() || field.bits.is_none()
}

// The members that take values, with their numbers. A number of 2^32 and more is refused as too much for memory.
fn numbered(alloc: Global, fields: &[FieldDef]) -> Result<List<(u32, CType)>, OutOfMemory>
    ensures { IfOk result (λ members. members ≡ spec.numbered 0 fields.now) }
{
    let mut members = List::new(alloc);
    for (k, field) in fields.iter().enumerate() {
        if takes_values(field) {
            if k > u32::MAX as usize {
                return Err(OutOfMemory);
            }
            members.push((k as u32, copy_type(alloc, &field.ctype)?))?;
        }
    }
    Ok(members)
}

// The members of a union that take values: the first alone.
fn first_alone(members: List<(u32, CType)>) -> List<(u32, CType)>
    ensures { result ≡ spec.first_alone members }
{
    let mut members = members.into_vec();
    members.truncate(1);
    List::from_vec(members)
}

// Whether a type is a union of the table.
fn is_union(structs: &[StructDef], t: &CType) -> bool
    ensures { result ≡ (body_of structs.now t.now).union }
{
    match t {
        CType::Struct(number) | CType::Union(number) => match structs.get(*number as usize) {
            None => false,
            Some(definition) => definition.union,
        },
        _ => false,
    }
}

/// The members of a struct or union type that values go to, with their numbers: none without a name that is a bit
/// field, and of a union the first alone.
pub fn members_given(
    alloc: Global,
    structs: &[StructDef],
    t: &CType,
) -> Result<List<(u32, CType)>, OutOfMemory>
    ensures { IfOk result (λ members. members ≡ spec.members_given (body_of structs.now t.now)) }
{
    let members = numbered(alloc, fields_of(structs, t))?;
    if is_union(structs, t) {
        Ok(first_alone(members))
    } else {
        Ok(members)
    }
}
