// Names, characters and strings (C11 6.4.4.4, 6.4.5, 6.5.1).

ghost use Rattle.std.specs.Prelude.{◌≡◌, IfOk, IfSome};
ghost use Rattle.sc_rules.specs.Gives.{Gives};
ghost use Rattle.sc_parts.specs.Names as spec;

use sc_base::{Boxed, IllTyped, NameId, OutOfMemory, Pos, Unsupported};
use sc_calls::unknown_function;
use sc_names::name_means;
use sc_rules::{Entity, Walk, ill_typed, node, unsupported};
use sc_tree::StrToken;
use sc_tree::ctype::{CType, IntKind};
use sc_tree::expr::Place;
use sc_typed::{Global as Variable, TExpr, What};
use sc_types::copy_type;
use std::alloc::Global;

/// A character constant (C11 6.4.4.4), which is an `int`.
pub fn character(value: i8, p: Place) -> TExpr
    ensures { result ≡ spec.character value p }
{
    node(What::Char(value), CType::Int(IntKind::Int), p)
}

// Whether one of the literals of a string has a prefix.
fn is_wide(literals: &[StrToken]) -> bool
    ensures { result ≡ spec.is_wide literals.now }
{
    literals.iter().any(|s| s.wide)
}

// The number of bytes of a string; `None` where 32 bits do not hold it.
fn bytes_of(literals: &[StrToken]) -> Option<u32>
    ensures { IfSome result (λ n. n ≡ spec.bytes_of literals.now) }
{
    let mut bytes: u32 = 0;
    for s in literals {
        match bytes.checked_add(s.len) {
            None => return None,
            Some(more) => bytes = more,
        }
    }
    Some(bytes)
}

// A string of so many bytes.
fn text_of(alloc: Global, bytes: u32, p: Place) -> Result<TExpr, OutOfMemory>
    ensures { IfOk result (λ x. x ≡ spec.text_of bytes p) }
{
    if bytes == u32::MAX {
        return Err(OutOfMemory);
    }
    let of = Boxed::new(alloc, CType::Int(IntKind::Char))?;
    let t = CType::Array(of, Some(bytes + 1));
    Ok(node(What::Str(bytes), t, p))
}

/// A string of one or more literals: an array of `char`, one longer than its bytes. One of 2^32 bytes or more is
/// refused as want of memory.
pub fn string(
    alloc: Global,
    walk: &mut Walk,
    literals: &[StrToken],
    p: Place,
) -> Result<Option<TExpr>, OutOfMemory>
    ensures { Gives (spec.string literals.now p walk.old) result walk.new }
{
    if is_wide(literals) {
        Ok(unsupported(walk, Unsupported::Odd, p.token))
    } else {
        match bytes_of(literals) {
            None => Err(OutOfMemory),
            Some(bytes) => Ok(Some(text_of(alloc, bytes, p)?)),
        }
    }
}

// The type of a global: that of all files, once it is known.
fn global_type(
    alloc: Global,
    settled: bool,
    globals: &[Variable],
    number: u32,
    t: &CType,
) -> Result<CType, OutOfMemory>
    ensures { IfOk result (λ x. x ≡ spec.global_type settled globals.now number t.now) }
{
    if settled {
        match globals.get(number as usize) {
            None => copy_type(alloc, t),
            Some(global) => copy_type(alloc, &global.ctype),
        }
    } else {
        copy_type(alloc, t)
    }
}

// What a name stands for; `None` where it means no value.
fn standing(
    alloc: Global,
    walk: &Walk,
    settled: bool,
    body: Option<u32>,
    name: NameId,
    p: Place,
) -> Result<Option<TExpr>, OutOfMemory>
    ensures { IfOk result (λ x. spec.or_no_name x p.token walk.now ≡ spec.a_name settled body name p walk.now) }
{
    match name_means(walk, name) {
        None | Some(Entity::Typedef(_)) => Ok(None),
        Some(Entity::Function(t, _)) => {
            let t = copy_type(alloc, t)?;
            Ok(Some(node(What::Function(name, body), t, p)))
        }
        Some(Entity::Constant(n)) => Ok(Some(node(What::Int(*n), CType::Int(IntKind::Int), p))),
        Some(Entity::Global(n, t)) => {
            let t = global_type(alloc, settled, walk.globals.as_slice(), *n, t)?;
            Ok(Some(node(What::Global(*n), t, p)))
        }
        Some(Entity::Param(n, t)) => {
            let t = copy_type(alloc, t)?;
            Ok(Some(node(What::Param(*n), t, p)))
        }
        Some(Entity::Local(n, t)) => {
            let t = copy_type(alloc, t)?;
            Ok(Some(node(What::Local(*n), t, p)))
        }
    }
}

/// A name as an expression, whose body in this file has that number. With `settled` the types of globals over all
/// files are known already.
pub fn a_name(
    alloc: Global,
    walk: &mut Walk,
    settled: bool,
    body: Option<u32>,
    name: NameId,
    p: Place,
) -> Result<Option<TExpr>, OutOfMemory>
    ensures { Gives (spec.a_name settled body name p walk.old) result walk.new }
{
    match standing(alloc, walk, settled, body, name, p)? {
        None => Ok(ill_typed(walk, IllTyped::Name, p.token)),
        Some(e) => Ok(Some(e)),
    }
}

/// A name that means nothing, as a function that is called.
pub fn undeclared(
    alloc: Global,
    body: Option<u32>,
    name: NameId,
    p: Place,
) -> Result<TExpr, OutOfMemory>
    ensures { IfOk result (λ x. x ≡ spec.undeclared body name p) }
{
    let t = unknown_function(alloc, CType::Int(IntKind::Int))?;
    Ok(node(What::Function(name, body), t, p))
}

// The type that a name means; `None` where it means no type.
fn meant_type(
    alloc: Global,
    walk: &Walk,
    name: NameId,
    at: Pos,
) -> Result<Option<CType>, OutOfMemory>
    ensures { IfOk result (λ x. spec.or_no_type x at walk.now ≡ spec.a_typedef name at walk.now) }
{
    match name_means(walk, name) {
        Some(Entity::Typedef(t)) => Ok(Some(copy_type(alloc, t)?)),
        _ => Ok(None),
    }
}

/// A typedef name as a type.
pub fn a_typedef(
    alloc: Global,
    walk: &mut Walk,
    name: NameId,
    at: Pos,
) -> Result<Option<CType>, OutOfMemory>
    ensures { Gives (spec.a_typedef name at walk.old) result walk.new }
{
    match meant_type(alloc, walk, name, at)? {
        None => Ok(ill_typed(walk, IllTyped::Name, at)),
        Some(t) => Ok(Some(t)),
    }
}
