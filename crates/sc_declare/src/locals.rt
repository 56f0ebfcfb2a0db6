// Locals (C11 6.2.1, 6.2.2, 6): variables of a body without linkage.

ghost use Rattle.std.specs.Prelude.{◌≡◌, IfOk};
ghost use Rattle.sc_rules.specs.Gives.{Gives};
ghost use Rattle.sc_declare.specs.Locals as spec;

use crate::functions::no_opaque;
use sc_base::{Boxed, List, NameId, OutOfMemory, Pos};
use sc_names::{declare, declare_if, new_here, object_at};
use sc_rules::{Entity, Walk, opaque_kind};
use sc_tree::ctype::{CType, Widths};
use sc_typed::Param;
use sc_types::copy_type;
use std::alloc::Global;
use std::mem;

/// Adds a local, and gives its number. Where memory is refused nothing changes; a number of 2^32 and more is
/// refused in the same way.
pub fn add_local(walk: &mut Walk, name: NameId, ctype: CType) -> Result<u32, OutOfMemory>
    ensures { Gives (spec.add_local name ctype walk.old) result walk.new }
{
    let number = walk.locals.len();
    if number > u32::MAX as usize {
        return Err(OutOfMemory);
    }
    walk.locals.push(Param { name, ctype })?;
    Ok(number as u32)
}

// Adds a local, and declares its name where it is new in its scope.
fn name_local(
    alloc: Global,
    walk: &mut Walk,
    name: NameId,
    at: Pos,
    t: &CType,
) -> Result<u32, OutOfMemory>
    ensures { Gives (spec.name_local name at t.now walk.old) result walk.new }
{
    let new = new_here(walk, name, at);
    let number = add_local(walk, name, copy_type(alloc, t)?)?;
    let local = Entity::Local(number, copy_type(alloc, t)?);
    declare_if(walk, new, name, local)?;
    Ok(number)
}

// Whether the type of a local is one that an object has. An opaque type is a fault too.
fn local_type_at(walk: &mut Walk, w: Widths, at: Pos, t: &CType) -> bool
    ensures { spec.local_type_at w at t.now walk.old ≡ (result, walk.new) }
{
    no_opaque(walk, at, opaque_kind(t));
    object_at(walk, w, at, t)
}

/// Declares a variable of a body without linkage, and gives the number of its local. A value of an opaque type, a
/// type that no object has and a name that its scope has already are faults at that place.
pub fn declare_local(
    alloc: Global,
    walk: &mut Walk,
    w: Widths,
    name: NameId,
    at: Pos,
    t: &CType,
) -> Result<u32, OutOfMemory>
    ensures { Gives (spec.declare_local w name at t.now walk.old) result walk.new }
{
    local_type_at(walk, w, at, t);
    name_local(alloc, walk, name, at, t)
}

// Gives the local with that number another type, if it is there.
fn retype(alloc: Global, locals: &mut List<Param>, number: usize, ctype: CType)
    ensures { locals.new ≡ spec.retyped locals.old number ctype }
{
    let mut all = mem::replace(locals, List::new(alloc)).into_vec();
    if number < all.len() {
        let name = all[number].name;
        all[number] = Param { name, ctype };
    }
    *locals = List::from_vec(all);
}

// A local has that type from now on: its array got its length from its initialiser.
fn lengthened(
    alloc: Global,
    walk: &mut Walk,
    w: Widths,
    number: u32,
    name: NameId,
    at: Pos,
    t: CType,
) -> Result<(), OutOfMemory>
    ensures { Gives (spec.lengthened w number name at t walk.old) result walk.new }
{
    object_at(walk, w, at, &t);
    retype(
        alloc,
        &mut walk.locals,
        number as usize,
        copy_type(alloc, &t)?,
    );
    declare(walk, name, Entity::Local(number, t))
}

// The type of an array without length, with that one.
fn with_length(alloc: Global, t: &CType, length: u32) -> Result<Option<CType>, OutOfMemory>
    ensures { IfOk result (λ x. x ≡ spec.with_length t.now length) }
{
    match t {
        CType::Array(element, None) => {
            let element = copy_type(alloc, element.get())?;
            Ok(Some(CType::Array(Boxed::new(alloc, element)?, Some(length))))
        }
        _ => Ok(None),
    }
}

// The same where there is such a type.
fn lengthened_if(
    alloc: Global,
    walk: &mut Walk,
    w: Widths,
    number: u32,
    name: NameId,
    at: Pos,
    t: Option<CType>,
) -> Result<(), OutOfMemory>
    ensures { Gives (spec.lengthened_if w number name at t walk.old) result walk.new }
{
    match t {
        None => Ok(()),
        Some(t) => lengthened(alloc, walk, w, number, name, at, t),
    }
}

/// Gives the array of a local its length, where its type has none yet and its initialiser gives one
/// (C11 6.7.9, 22).
pub fn lengthen(
    alloc: Global,
    walk: &mut Walk,
    w: Widths,
    number: u32,
    name: NameId,
    at: Pos,
    length: Option<u32>,
    t: &CType,
) -> Result<(), OutOfMemory>
    ensures { Gives (spec.lengthen w number name at length t.now walk.old) result walk.new }
{
    match length {
        None => Ok(()),
        Some(length) => {
            let longer = with_length(alloc, t, length)?;
            lengthened_if(alloc, walk, w, number, name, at, longer)
        }
    }
}
