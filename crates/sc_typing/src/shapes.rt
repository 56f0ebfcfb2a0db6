// What a declarator makes of a type (C11 6.7.6).

ghost use Rattle.std.specs.Prelude.{◌≡◌, IfOk, None};
ghost use Rattle.sc_rules.specs.Gives.{Gives};
ghost use Rattle.sc_typing.specs.Typing as spec;

use sc_base::{List, NameId, OutOfMemory, Pos};
use sc_declare::Parameter;
use sc_names::{Scope, close_scope, open_scope};
use sc_parts::{function_with, types_of, with_field};
use sc_rules::Walk;
use sc_tree::ctype::CType;
use sc_types::copy_type;
use std::alloc::Global;
use struct_table::Members;

/// The parameters of the function that a declarator declares: those that stand directly round its name.
#[derive(Drop)]
pub struct Own {
    pub params: List<Parameter>,
    /// Their scope, to be opened again by a body.
    pub scope: Scope,
    pub variadic: bool,
    /// Nothing stands between its brackets.
    pub brackets: bool,
}

/// What a declarator makes of a type; no type where there is a fault in it.
#[derive(Drop)]
pub struct Shape {
    pub ctype: Option<CType>,
    pub own: Option<Own>,
}

/// A member of a struct or union, before its width is read.
#[derive(Drop)]
pub struct NewMember {
    pub name: NameId,
    /// No type where there is a fault in it.
    pub ctype: Option<CType>,
    /// No member before it has its name.
    pub new: bool,
}

// The name of what is declared, or else the place.
pub fn where_named(name: Option<(NameId, Pos)>, first: Pos) -> Pos
    ensures { result ≡ spec.where_named name first }
{
    match name {
        None => first,
        Some((_, at)) => at,
    }
}

// A copy of a type, where there is one.
pub fn copy_if(alloc: Global, t: &Option<CType>) -> Result<Option<CType>, OutOfMemory>
    ensures { IfOk result (λ x. x ≡ t.now) }
{
    match t {
        None => Ok(None),
        Some(t) => Ok(Some(copy_type(alloc, t)?)),
    }
}

// The function that gives that type and has these parameters.
pub fn function_of(alloc: Global, t: Option<CType>, own: &Own) -> Result<Option<CType>, OutOfMemory>
    ensures { IfOk result (λ x. x ≡ spec.function_of t own.now) }
{
    let types = types_of(alloc, own.params.as_slice())?;
    function_with(alloc, own.brackets, own.variadic, t, types)
}

// What a declarator round a function makes of it: where it is the bare name, the function is what it declares.
pub fn owned(bare: bool, own: Own, shape: Shape) -> Shape
    ensures { result ≡ spec.owned bare own shape }
{
    if bare {
        let Shape { ctype, own: inner } = shape;
        drop(inner);
        Shape {
            ctype,
            own: Some(own),
        }
    } else {
        drop(own);
        shape
    }
}

// The members so far and one with that name, where the name is new.
pub fn with_member(
    member: NewMember,
    bits: Option<Option<u32>>,
    fields: Option<Members>,
) -> Result<Option<Members>, OutOfMemory>
    ensures { IfOk result (λ x. x ≡ spec.with_member member bits fields) }
{
    let NewMember { name, ctype, new } = member;
    if new {
        with_field(Some(name), ctype, bits, fields)
    } else {
        Ok(None)
    }
}

// No parameters, as where nothing stands between the brackets.
pub fn empty_brackets(alloc: Global, walk: &mut Walk, variadic: bool) -> Result<Own, OutOfMemory>
    ensures { Gives (spec.own_parameters None variadic walk.old) result walk.new }
{
    open_scope(walk)?;
    let scope = close_scope(walk)?;
    Ok(Own {
        params: List::new(alloc),
        scope,
        variadic,
        brackets: true,
    })
}
