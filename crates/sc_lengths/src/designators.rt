// The ways that designators name (C11 6.7.9, 6 and 7).

ghost use Rattle.std.specs.Prelude.{◌≡◌, IfOk};
ghost use Rattle.std.specs.Option.{option_copied};
ghost use Rattle.sc_tree.specs.declared.ctype.CType.{out-CType};
ghost use Rattle.sc_rules.specs.Gives.{Gives};
ghost use Rattle.sc_unary.specs.Members.{body_at};
ghost use Rattle.sc_typing.specs.Tables as tables;
ghost use Rattle.sc_lengths.specs.Designators as spec;

use crate::ways::part;
use sc_base::{List, NameId, OutOfMemory};
use sc_rules::Walk;
use sc_tree::ctype::{CType, Widths};
use sc_tree::decl::Designator;
use sc_tree::expr::Expr;
use sc_typed::{FieldDef, StructDef, TExpr};
use sc_types::{constant_bits, copy_type, number};
use sc_typing::{Tables, valued_expression};
use sc_unary::fields_of;
use std::alloc::Global;
use struct_table::is_called;

// The number of the member of that name, among those that take values. One of 2^32 - 1 is refused as too much for
// memory.
fn index_in(name: NameId, fields: &[FieldDef]) -> Result<Option<u32>, OutOfMemory>
    ensures { IfOk result (λ k. k ≡ spec.index_in 0 name fields.now) }
{
    let mut k: u32 = 0;
    for field in fields {
        if is_called(name, field.name) {
            return Ok(Some(k));
        }
        if field.name.is_some() || field.bits.is_none() {
            if k == u32::MAX {
                return Err(OutOfMemory);
            }
            k += 1;
        }
    }
    Ok(None)
}

// Whether the struct with that number of the table is a union.
fn is_union(structs: &[StructDef], number: u32) -> bool
    ensures { result ≡ (body_at structs.now number).union }
{
    match structs.get(number as usize) {
        None => false,
        Some(definition) => definition.union,
    }
}

// The part that `. name` names: a member of a struct.
fn field_part(structs: &[StructDef], t: &CType, name: NameId) -> Result<Option<u32>, OutOfMemory>
    ensures { IfOk result (λ k. k ≡ spec.field_part structs.now t.now name (out-CType t.now)) }
{
    match t {
        CType::Struct(number) => {
            if is_union(structs, *number) {
                Ok(None)
            } else {
                index_in(name, fields_of(structs, t))
            }
        }
        CType::Void
        | CType::Bool
        | CType::Int(_)
        | CType::Ptr(_)
        | CType::Array(_, _)
        | CType::Func(_)
        | CType::Union(_)
        | CType::Opaque(_) => Ok(None),
    }
}

fn element_number(z: i128) -> Option<u32>
    ensures { result ≡ spec.element_number z }
{
    if z < 0 || z >= (1 << 32) - 1 {
        None
    } else {
        Some(z as u32)
    }
}

// The part that `[ number ]` names: an element of an array.
fn element_part(z: Option<i128>, t: &CType) -> Option<u32>
    ensures { result ≡ spec.element_part z (out-CType t.now) }
{
    match z {
        None => None,
        Some(z) => match t {
            CType::Array(_, _) => element_number(z),
            CType::Void
            | CType::Bool
            | CType::Int(_)
            | CType::Ptr(_)
            | CType::Func(_)
            | CType::Struct(_)
            | CType::Union(_)
            | CType::Opaque(_) => None,
        },
    }
}

// The number of a constant.
fn number_if(w: Widths, e: Option<&TExpr>) -> Option<i128>
    ensures { result ≡ spec.number_if w (option_copied e.entry) }
{
    match e {
        None => None,
        Some(e) => match constant_bits(w, e) {
            None => None,
            Some(bits) => Some(number(w, &e.ctype, bits)),
        },
    }
}

// The value of a designator's expression, whose faults are not noted.
fn unnoted_value(
    alloc: Global,
    walk: &mut Walk,
    here: &Tables,
    e: &Expr,
) -> Result<Option<TExpr>, OutOfMemory>
    ensures { Gives (spec.unnoted_value (tables.here_of here.now) e.now walk.old) result walk.new }
{
    let first = walk.first;
    let value = valued_expression(alloc, walk, here, e)?;
    walk.first = first;
    Ok(value)
}

// The number of a designator's constant.
fn number_now(
    alloc: Global,
    walk: &mut Walk,
    here: &Tables,
    e: &Expr,
) -> Result<Option<i128>, OutOfMemory>
    ensures { Gives (spec.number_now (tables.here_of here.now) e.now walk.old) result walk.new }
{
    let value = unnoted_value(alloc, walk, here, e)?;
    let number = number_if(here.widths(), value.as_ref());
    drop(value);
    Ok(number)
}

// The part of a type that a designator names.
fn designated_part(
    alloc: Global,
    walk: &mut Walk,
    here: &Tables,
    t: &CType,
    d: &Designator,
) -> Result<Option<u32>, OutOfMemory>
    ensures { Gives (spec.designated_part (tables.here_of here.now) t.now d.now walk.old) result walk.new }
{
    match d {
        Designator::Field(name) => field_part(walk.structs.as_slice(), t, *name),
        Designator::Index(e) => {
            let number = number_now(alloc, walk, here, e.get())?;
            Ok(element_part(number, t))
        }
    }
}

/// The way that designators name, in an object of that type; `None` where one of them names no part. Their expressions
/// are typed: what they declare stays, and their faults are not noted.
pub fn designated(
    alloc: Global,
    walk: &mut Walk,
    here: &Tables,
    t: &CType,
    designators: &[Designator],
) -> Result<Option<List<u32>>, OutOfMemory>
    ensures { Gives (spec.designated (tables.here_of here.now) t.now designators.now walk.old) result walk.new }
{
    let mut at = copy_type(alloc, t)?;
    let mut way = List::new(alloc);
    for d in designators {
        match designated_part(alloc, walk, here, &at, d)? {
            None => return Ok(None),
            Some(k) => {
                at = part(alloc, walk.structs.as_slice(), &at, k)?;
                way.push(k)?;
            }
        }
    }
    Ok(Some(way))
}
