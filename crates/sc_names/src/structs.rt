// Structs and unions (C11 6.7.2.1): one is met where its tag is new or where it has none, and complete behind
// its body; and which types an object has (C11 6.7, 7).

ghost use Rattle.std.specs.Prelude.{◌≡◌, OnOk, OnErr};
ghost use Rattle.sc_typed.specs.Extents.{struct_at};
ghost use Rattle.sc_rules.specs.Gives.{Gives};
ghost use Rattle.sc_names.specs.Structs as spec;

use sc_base::{IllTyped, OutOfMemory, Pos};
use sc_rules::{Walk, holds_or, ill_typed_at};
use sc_tree::ctype::{CType, Widths};
use sc_typed::StructDef;
use sc_types::{extent, is_function, is_void, struct_extent};
use std::alloc::Global;
use struct_table::Members;

/// Meets a struct or union, which is incomplete so far, and gives its number. Where memory is refused nothing
/// changes; the number 2^32 - 1 is refused in the same way.
pub fn new_struct(alloc: Global, walk: &mut Walk, union: bool) -> Result<u32, OutOfMemory>
    ensures ok { Gives (spec.new_struct union walk.old) result walk.new }
    ensures err { OnErr result (walk.new ≡ walk.old) }
{
    let number = walk.met;
    if number == u32::MAX {
        return Err(OutOfMemory);
    }
    walk.structs.put(alloc, number as usize, union)?;
    walk.met = number + 1;
    Ok(number)
}

// Whether the struct with that number is a union.
fn union_at(structs: &[StructDef], number: u32) -> bool
    ensures { result ≡ (struct_at structs.now number).union }
{
    match structs.get(number as usize) {
        Some(definition) => definition.union,
        None => false,
    }
}

/// Completes a struct or union with its members. Where memory is refused nothing changes.
pub fn complete(walk: &mut Walk, w: Widths, number: u32, fields: Members) -> Result<(), OutOfMemory>
    ensures ok { Gives (spec.complete w number fields walk.old) result walk.new }
    ensures err { OnErr result (walk.new ≡ walk.old) }
{
    let union = union_at(walk.structs.as_slice(), number);
    let extent = struct_extent(w, walk.structs.as_slice(), union, fields.as_slice());
    walk.completed.push(number)?;
    walk.structs
        .complete(number as usize, union, fields, extent);
    Ok(())
}

/// Completes a struct or union, if nothing in its body is refused. Where memory is refused nothing changes.
pub fn complete_if(
    walk: &mut Walk,
    w: Widths,
    number: u32,
    fields: Option<Members>,
) -> Result<(), OutOfMemory>
    ensures ok { Gives (spec.complete_if w number fields walk.old) result walk.new }
    ensures err { OnErr result (walk.new ≡ walk.old) }
{
    match fields {
        None => Ok(()),
        Some(fields) => complete(walk, w, number, fields),
    }
}

/// The size of a type now; `None` while it is incomplete or where it is too large.
pub fn size_now(walk: &Walk, w: Widths, t: &CType) -> Option<u64>
    ensures { spec.size_now w t.now walk.now ≡ (result, walk.now) }
{
    match extent(w, walk.structs.as_slice(), t) {
        Some(e) => Some(e.size),
        None => None,
    }
}

// Whether an object may have a type of that size.
fn is_object(t: &CType, size: Option<u64>) -> bool
    ensures { result ≡ spec.is_object t.now size }
{
    size.is_some() && !(is_void(t) || is_function(t))
}

/// Whether an object may have a type: one that has a size and is no function and not `void`. Else there is a
/// fault at that place.
pub fn object_at(walk: &mut Walk, w: Widths, at: Pos, t: &CType) -> bool
    ensures { spec.object_at w at t.now walk.old ≡ (result, walk.new) }
{
    let size = size_now(walk, w, t);
    holds_or(
        walk,
        is_object(t, size),
        ill_typed_at(IllTyped::Incomplete, at),
    )
}
