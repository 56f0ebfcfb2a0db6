// Members and enumerators (C11 6.7.2.1, 6.7.2.2).

ghost use Rattle.std.specs.Prelude.{◌≡◌, IfOk};
ghost use Rattle.std.specs.Option.{option_copied};
ghost use Rattle.sc_rules.specs.Gives.{Gives};
ghost use Rattle.sc_rules.specs.Walks.{given};
ghost use Rattle.sc_parts.specs.Fields as spec;

use crate::declarators::{constant_of, ranged};
use sc_base::{IllTyped, NameId, OutOfMemory, Pos};
use sc_names::{declare_if, new_here, object_at};
use sc_rules::{Entity, TagKind, Walk, holds_or, ill_typed, ill_typed_at};
use sc_tree::ctype::{CType, IntKind, Widths};
use sc_typed::{FieldDef, TExpr};
use sc_types::{constant_bits, converted};
use struct_table::Members;

// The width of a bit field, by the value that is written.
fn width_of(walk: &mut Walk, w: Widths, e: &TExpr) -> Option<Option<u32>>
    ensures { spec.width_of w e.now walk.old ≡ (result, walk.new) }
{
    match constant_of(w, e) {
        None => ill_typed(walk, IllTyped::Constant, e.place.token),
        Some(z) => ranged(walk, z, e.place.token),
    }
}

/// The width of a bit field, by the value that is written, in which a fault may stand.
pub fn width_given(walk: &mut Walk, w: Widths, e: Option<&TExpr>) -> Option<Option<u32>>
    ensures { given (option_copied e.entry) (spec.width_of w) walk.old ≡ (result, walk.new) }
{
    match e {
        None => None,
        Some(e) => width_of(walk, w, e),
    }
}

/// The members so far and one more; `None` where there is a fault in one.
pub fn with_field(
    name: Option<NameId>,
    t: Option<CType>,
    bits: Option<Option<u32>>,
    fields: Option<Members>,
) -> Result<Option<Members>, OutOfMemory>
    ensures { IfOk result (λ x. x ≡ spec.with_field name t bits fields) }
{
    let Some(ctype) = t else {
        return Ok(None);
    };
    let Some(bits) = bits else {
        return Ok(None);
    };
    let Some(fields) = fields else {
        return Ok(None);
    };
    Ok(Some(fields.with(FieldDef { name, ctype, bits })?))
}

// Whether one of the members so far has a name.
fn names_field(name: NameId, fields: &Option<Members>) -> bool
    ensures { result ≡ spec.names_field name fields.now }
{
    match fields {
        None => false,
        Some(fields) => fields.names(name),
    }
}

/// Whether no member has a name yet. Else there is a fault at that place.
pub fn new_member(walk: &mut Walk, name: NameId, at: Pos, fields: &Option<Members>) -> bool
    ensures { spec.new_member name at fields.now walk.old ≡ (result, walk.new) }
{
    let new = !names_field(name, fields);
    holds_or(walk, new, ill_typed_at(IllTyped::Again, at))
}

/// The type of a member at that place, where an object has it.
pub fn member_object(walk: &mut Walk, w: Widths, at: Pos, t: Option<CType>) -> Option<CType>
    ensures { spec.member_object w at t walk.old ≡ (result, walk.new) }
{
    match t {
        None => None,
        Some(t) => {
            if object_at(walk, w, at, &t) {
                Some(t)
            } else {
                None
            }
        }
    }
}

/// What the tag of a struct or union names.
pub fn aggregate_kind(union: bool) -> TagKind
    ensures { result ≡ spec.aggregate_kind union }
{
    if union {
        TagKind::Union
    } else {
        TagKind::Struct
    }
}

/// The struct or union of that number.
pub fn aggregate_type(union: bool, number: u32) -> CType
    ensures { result ≡ spec.aggregate_type union number }
{
    if union {
        CType::Union(number)
    } else {
        CType::Struct(number)
    }
}

// The number of an enumerator, by the constant that is written.
fn enumerator_bits(
    walk: &mut Walk,
    w: Widths,
    next: u64,
    t: &CType,
    bits: Option<u64>,
    at: Pos,
) -> u64
    ensures { spec.enumerator_bits w next t.now bits at walk.old ≡ (result, walk.new) }
{
    match bits {
        None => {
            holds_or(walk, false, ill_typed_at(IllTyped::Constant, at));
            next
        }
        Some(n) => converted(w, t, &CType::Int(IntKind::Int), n),
    }
}

/// The number of an enumerator, by the value that is written, in which a fault may stand.
pub fn enumerator_value(walk: &mut Walk, w: Widths, next: u64, at: Pos, e: Option<&TExpr>) -> u64
    ensures { spec.enumerator_value w next at (option_copied e.entry) walk.old ≡ (result, walk.new) }
{
    match e {
        None => next,
        Some(e) => enumerator_bits(walk, w, next, &e.ctype, constant_bits(w, e), at),
    }
}

/// Declares an enumerator of that number, and gives the number of the next one.
pub fn enumerator(walk: &mut Walk, name: NameId, at: Pos, number: u64) -> Result<u64, OutOfMemory>
    ensures { Gives (spec.enumerator name at number walk.old) result walk.new }
{
    let new = new_here(walk, name, at);
    declare_if(walk, new, name, Entity::Constant(number))?;
    let next = (u128::from(number) + 1) % (1 << 32);
    Ok(next as u64)
}
