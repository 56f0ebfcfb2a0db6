// What declarators make of types (C11 6.7.6): pointers, arrays, functions and their parameters.

ghost use Rattle.std.specs.Prelude.{◌≡◌, IfOk};
ghost use Rattle.std.specs.Option.{option_copied};
ghost use Rattle.sc_typed.specs.Constants as constants;
ghost use Rattle.sc_rules.specs.Conversions as conversions;
ghost use Rattle.sc_rules.specs.Gives.{Gives};
ghost use Rattle.sc_rules.specs.Walks.{given};
ghost use Rattle.sc_parts.specs.Declarators as spec;

use sc_base::{Boxed, IllTyped, List, NameId, OutOfMemory, Pos, Unsupported};
use sc_declare::Parameter;
use sc_names::{declare_if, new_here};
use sc_rules::{Entity, Walk, ill_typed, unsupported};
use sc_tree::ctype::{CType, Signature, Widths};
use sc_typed::TExpr;
use sc_types::{constant_bits, copy_type, is_array, is_function, number};
use std::alloc::Global;

// The number of an integer constant expression.
pub fn constant_of(w: Widths, e: &TExpr) -> Option<i128>
    ensures { result ≡ constants.constant w e.now }
{
    match constant_bits(w, e) {
        None => None,
        Some(n) => Some(number(w, &e.ctype, n)),
    }
}

// A length or a width that 32 bits hold.
fn in_range(z: i128) -> Option<u32>
    ensures { result ≡ spec.in_range z }
{
    if z < 0 || z >= 1 << 32 {
        None
    } else {
        Some(z as u32)
    }
}

/// A length or a width; a number that 32 bits do not hold is a fault at that place.
pub fn ranged(walk: &mut Walk, z: i128, at: Pos) -> Option<Option<u32>>
    ensures { spec.ranged (spec.in_range z) at walk.old ≡ (result, walk.new) }
{
    match in_range(z) {
        None => ill_typed(walk, IllTyped::Constant, at),
        Some(n) => Some(Some(n)),
    }
}

// The length of an array, by the value that is written.
fn length_of(walk: &mut Walk, w: Widths, at: Pos, e: &TExpr) -> Option<Option<u32>>
    ensures { spec.length_of w at e.now walk.old ≡ (result, walk.new) }
{
    match constant_of(w, e) {
        None => unsupported(walk, Unsupported::Vla, at),
        Some(z) => ranged(walk, z, e.place.token),
    }
}

/// The length of an array, by the value that is written, in which a fault may stand. What is no constant is not
/// taken; a number below 0, or of 2^32 and more, is a fault at the value.
pub fn length_given(walk: &mut Walk, w: Widths, at: Pos, e: Option<&TExpr>) -> Option<Option<u32>>
    ensures { given (option_copied e.entry) (spec.length_of w at) walk.old ≡ (result, walk.new) }
{
    match e {
        None => None,
        Some(e) => length_of(walk, w, at, e),
    }
}

/// What an array has as its elements: no functions (C11 6.7.6.2).
pub fn no_function(walk: &mut Walk, at: Pos, t: Option<CType>) -> Option<CType>
    ensures { given t (spec.no_function at) walk.old ≡ (result, walk.new) }
{
    match t {
        None => None,
        Some(t) => {
            if is_function(&t) {
                ill_typed(walk, IllTyped::Incomplete, at)
            } else {
                Some(t)
            }
        }
    }
}

/// What a function gives: no function and no array (C11 6.7.6.3).
pub fn no_array(walk: &mut Walk, at: Pos, t: Option<CType>) -> Option<CType>
    ensures { given t (spec.no_array at) walk.old ≡ (result, walk.new) }
{
    match t {
        None => None,
        Some(t) => {
            if is_function(&t) || is_array(&t) {
                ill_typed(walk, IllTyped::Incomplete, at)
            } else {
                Some(t)
            }
        }
    }
}

/// The pointer to a type.
pub fn pointer_to(alloc: Global, t: Option<CType>) -> Result<Option<CType>, OutOfMemory>
    ensures { IfOk result (λ x. x ≡ spec.pointer_to t) }
{
    match t {
        None => Ok(None),
        Some(t) => Ok(Some(CType::Ptr(Boxed::new(alloc, t)?))),
    }
}

/// The array of a type, with a length or without.
pub fn array_of(
    alloc: Global,
    t: Option<CType>,
    length: Option<Option<u32>>,
) -> Result<Option<CType>, OutOfMemory>
    ensures { IfOk result (λ x. x ≡ spec.array_of t length) }
{
    match t {
        None => Ok(None),
        Some(t) => match length {
            None => Ok(None),
            Some(length) => Ok(Some(CType::Array(Boxed::new(alloc, t)?, length))),
        },
    }
}

// The type of a parameter: an array or a function becomes a pointer.
fn adjusted_type(alloc: Global, t: CType) -> Result<CType, OutOfMemory>
    ensures { IfOk result (λ x. x ≡ spec.adjusted_to (conversions.decayed_type t) t) }
{
    match t {
        CType::Array(element, _) => Ok(CType::Ptr(element)),
        CType::Func(signature) => Ok(CType::Ptr(Boxed::new(alloc, CType::Func(signature))?)),
        CType::Void => Ok(CType::Void),
        CType::Bool => Ok(CType::Bool),
        CType::Int(kind) => Ok(CType::Int(kind)),
        CType::Ptr(pointed) => Ok(CType::Ptr(pointed)),
        CType::Struct(number) => Ok(CType::Struct(number)),
        CType::Union(number) => Ok(CType::Union(number)),
        CType::Opaque(kind) => Ok(CType::Opaque(kind)),
    }
}

/// The type of a parameter (C11 6.7.6.3, 7 and 8).
pub fn adjusted(alloc: Global, t: Option<CType>) -> Result<Option<CType>, OutOfMemory>
    ensures { IfOk result (λ x. x ≡ spec.adjusted t) }
{
    match t {
        None => Ok(None),
        Some(t) => Ok(Some(adjusted_type(alloc, t)?)),
    }
}

// Declares a parameter of that number, where it has a type.
fn declare_param(
    alloc: Global,
    walk: &mut Walk,
    number: u32,
    new: bool,
    name: NameId,
    t: &Option<CType>,
) -> Result<(), OutOfMemory>
    ensures { Gives (spec.declare_param number new name t.now walk.old) result walk.new }
{
    match t {
        None => Ok(()),
        Some(t) => {
            let t = copy_type(alloc, t)?;
            declare_if(walk, new, name, Entity::Param(number, t))
        }
    }
}

/// A parameter of that number: its name is new in its scope. One without a name stands at its first token.
pub fn parameter_of(
    alloc: Global,
    walk: &mut Walk,
    number: u32,
    name: Option<(NameId, Pos)>,
    first: Pos,
    ctype: Option<CType>,
) -> Result<Parameter, OutOfMemory>
    ensures { Gives (spec.parameter_of number name first ctype walk.old) result walk.new }
{
    match name {
        None => Ok(Parameter {
            name: None,
            pos: first,
            ctype,
        }),
        Some((name, pos)) => {
            let new = new_here(walk, name, pos);
            declare_param(alloc, walk, number, new, name, &ctype)?;
            Ok(Parameter {
                name: Some(name),
                pos,
                ctype,
            })
        }
    }
}

/// The types of parameters; `None` where one is missing.
pub fn types_of(alloc: Global, params: &[Parameter]) -> Result<Option<List<CType>>, OutOfMemory>
    ensures { IfOk result (λ x. x ≡ spec.types_of params.now) }
{
    let mut types = List::new(alloc);
    for p in params {
        match &p.ctype {
            None => return Ok(None),
            Some(t) => types.push(copy_type(alloc, t)?)?,
        }
    }
    Ok(Some(types))
}

/// The function that gives that type, with those types of its parameters; with empty brackets nothing is said of
/// them.
pub fn function_with(
    alloc: Global,
    brackets: bool,
    variadic: bool,
    result_type: Option<CType>,
    types: Option<List<CType>>,
) -> Result<Option<CType>, OutOfMemory>
    ensures { IfOk result (λ x. x ≡ spec.function_with brackets variadic result_type types) }
{
    let Some(result) = result_type else {
        return Ok(None);
    };
    let Some(types) = types else {
        return Ok(None);
    };
    let params = if brackets { None } else { Some(types) };
    let signature = Signature {
        result,
        params,
        variadic,
    };
    Ok(Some(CType::Func(Boxed::new(alloc, signature)?)))
}
