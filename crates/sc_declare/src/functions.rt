// Functions that are declared (C11 6.7.6.3, 6.2.7): which values they take and give, when one may be declared
// again, and when it is local to its file.

ghost use Rattle.std.specs.Prelude.{◌≡◌, IfOk};
ghost use Rattle.std.specs.Option.{option_copied};
ghost use Rattle.sc_rules.specs.Gives.{Gives};
ghost use Rattle.sc_declare.specs.Functions as spec;

use sc_base::{IllTyped, List, NameId, OutOfMemory, Pos, Unsupported};
use sc_names::{declare_or, name_here, note_unless};
use sc_rules::{Entity, Walk, ill_typed_at, opaque_fault, opaque_kind, unsupported_at};
use sc_tree::ctype::{CType, OpaqueKind, Signature};
use sc_types::{compatible, composite, copy_type, is_aggregate, is_void};
use std::alloc::Global;

/// A parameter: its name, where faults in it stand, and its type as a parameter has it (C11 6.7.6.3, 7 and 8);
/// `None` where there is a fault in it.
#[derive(Drop)]
pub struct Parameter {
    pub name: Option<NameId>,
    pub pos: Pos,
    pub ctype: Option<CType>,
}

/// Notes a value of an opaque type, which is not taken.
pub fn no_opaque(walk: &mut Walk, at: Pos, kind: Option<OpaqueKind>)
    ensures { spec.no_opaque at kind walk.old ≡ (tt, walk.new) }
{
    match kind {
        None => {}
        Some(kind) => note_unless(walk, false, unsupported_at(opaque_fault(kind), at)),
    }
}

// Notes what a function does not take or give: a value of an opaque type, a struct or a union.
fn value_at(walk: &mut Walk, at: Pos, t: &CType)
    ensures { spec.value_at at t.now walk.old ≡ (tt, walk.new) }
{
    no_opaque(walk, at, opaque_kind(t));
    note_unless(
        walk,
        !is_aggregate(t),
        unsupported_at(Unsupported::Struct, at),
    );
}

// Notes what no parameter is.
fn parameter_at(walk: &mut Walk, at: Pos, t: &CType)
    ensures { spec.parameter_at at t.now walk.old ≡ (tt, walk.new) }
{
    value_at(walk, at, t);
    note_unless(walk, !is_void(t), ill_typed_at(IllTyped::Incomplete, at));
}

// The same where the type is known.
fn parameter_if(walk: &mut Walk, at: Pos, t: &Option<CType>)
    ensures { spec.parameter_if at t.now walk.old ≡ (tt, walk.new) }
{
    match t {
        None => {}
        Some(t) => parameter_at(walk, at, t),
    }
}

// Notes the faults of the parameters that a declarator wrote, at their places.
fn own_parameters(walk: &mut Walk, params: &[Parameter])
    ensures { spec.own_parameters params.now walk.old ≡ (tt, walk.new) }
{
    for param in params {
        parameter_if(walk, param.pos, &param.ctype);
    }
}

// Notes the faults of the parameters that a typedef wrote, at the name declared.
fn typedef_parameters(walk: &mut Walk, at: Pos, types: &[CType])
    ensures { spec.typedef_parameters at types.now walk.old ≡ (tt, walk.new) }
{
    for t in types {
        parameter_at(walk, at, t);
    }
}

/// The signature of a function type; `None` of any other type.
pub fn signature_of(t: &CType) -> Option<&Signature>
    ensures { option_copied result ≡ spec.signature_of t.now }
{
    match t {
        CType::Func(signature) => Some(signature.get()),
        _ => None,
    }
}

// Notes the faults of the parameters of a function type: where a typedef wrote them, at the name declared.
fn types_at(walk: &mut Walk, at: Pos, types: &Option<List<CType>>)
    ensures { spec.typedef_parameters_if at types.now walk.old ≡ (tt, walk.new) }
{
    match types {
        None => {}
        Some(types) => typedef_parameters(walk, at, types.as_slice()),
    }
}

// Notes the faults of the parameters: those of the declarator where it wrote them, else those of the type.
fn parameters_at(walk: &mut Walk, at: Pos, params: Option<&List<Parameter>>, s: &Signature)
    ensures { spec.parameters_at at (option_copied params.entry) (Some s.now) walk.old ≡ (tt, walk.new) }
{
    match params {
        Some(params) => own_parameters(walk, params.as_slice()),
        None => types_at(walk, at, &s.params),
    }
}

// Notes the faults of the parameters of a declarator whose type has a fault.
fn parameters_of_declarator(walk: &mut Walk, at: Pos, params: Option<&List<Parameter>>)
    ensures { spec.parameters_at at (option_copied params.entry) None walk.old ≡ (tt, walk.new) }
{
    match params {
        Some(params) => own_parameters(walk, params.as_slice()),
        None => {}
    }
}

/// Notes the faults of a function that is declared, whose name stands at that place: its result and its
/// parameters. The parameters are those of its declarator, `None` where a typedef wrote them.
pub fn signature_at(walk: &mut Walk, at: Pos, t: Option<&CType>, params: Option<&List<Parameter>>)
    ensures { spec.signature_at at (option_copied t.entry) (option_copied params.entry) walk.old ≡ (tt, walk.new) }
{
    match signature_if(t) {
        None => parameters_of_declarator(walk, at, params),
        Some(s) => {
            value_at(walk, at, &s.result);
            parameters_at(walk, at, params, s);
        }
    }
}

// The signature of a type, if it is a function type.
fn signature_if<'a>(t: Option<&'a CType>) -> Option<&'a Signature>
    ensures { option_copied result ≡ spec.signature_if (option_copied t.entry) }
{
    match t {
        None => None,
        Some(t) => signature_of(t),
    }
}

// Whether a function type takes no arguments, as a body with empty brackets does not.
fn no_params(t: &CType) -> bool
    ensures { result ≡ spec.no_params t.now }
{
    match signature_of(t) {
        None => true,
        Some(s) => match &s.params {
            None => true,
            Some(types) => types.is_empty(),
        },
    }
}

// Whether two declarations of a function agree; with the flag one of them is a body with empty brackets.
fn functions_agree(body: bool, t: &CType, s: &CType) -> bool
    ensures { result ≡ spec.functions_agree body t.now s.now }
{
    compatible(t, s) && (!body || (no_params(t) && no_params(s)))
}

// What a function means that is declared again, where its declarations agree.
fn function_again(
    alloc: Global,
    agree: bool,
    old: &CType,
    new: &CType,
    brackets: bool,
) -> Result<Option<Entity>, OutOfMemory>
    ensures { IfOk result (λ e. e ≡ spec.function_again agree old.now new.now brackets) }
{
    if agree {
        Ok(Some(Entity::Function(composite(alloc, old, new)?, brackets)))
    } else {
        Ok(None)
    }
}

// What the name of a function means from now on; `None` where it cannot stand beside what the name is already.
fn function_beside(
    alloc: Global,
    old: Option<&Entity>,
    t: &CType,
    brackets: bool,
) -> Result<Option<Entity>, OutOfMemory>
    ensures { IfOk result (λ e. e ≡ spec.function_beside (option_copied old.entry) t.now brackets) }
{
    match old {
        None => Ok(Some(Entity::Function(copy_type(alloc, t)?, brackets))),
        Some(Entity::Function(old, seen)) => {
            let brackets = brackets || *seen;
            let agree = functions_agree(brackets, old, t);
            function_again(alloc, agree, old, t, brackets)
        }
        Some(
            Entity::Typedef(_)
            | Entity::Constant(_)
            | Entity::Global(_, _)
            | Entity::Param(_, _)
            | Entity::Local(_, _),
        ) => Ok(None),
    }
}

/// Declares a function in the innermost scope; with the flag by a body with empty brackets. Where the scope has
/// declared the name already and the two do not agree, there is a fault at that place.
pub fn declare_function(
    alloc: Global,
    walk: &mut Walk,
    name: NameId,
    at: Pos,
    t: &CType,
    brackets: bool,
) -> Result<(), OutOfMemory>
    ensures { Gives (spec.declare_function name at t.now brackets walk.old) result walk.new }
{
    let entity = function_beside(alloc, name_here(walk, name), t, brackets)?;
    declare_or(walk, entity, name, at)
}

/// Declares a function whose type is known.
pub fn declare_function_if(
    alloc: Global,
    walk: &mut Walk,
    name: NameId,
    at: Pos,
    t: Option<&CType>,
    brackets: bool,
) -> Result<(), OutOfMemory>
    ensures { Gives (spec.declare_function_if name at (option_copied t.entry) brackets walk.old) result walk.new }
{
    match t {
        None => Ok(()),
        Some(t) => declare_function(alloc, walk, name, at, t, brackets),
    }
}

/// Notes that a function is local to the file, where a declaration makes it so (C11 6.2.2, 3).
pub fn local_function(
    walk: &mut Walk,
    file: u32,
    name: NameId,
    is_local: bool,
) -> Result<(), OutOfMemory>
    ensures { Gives (spec.local_function file name is_local walk.old) result walk.new }
{
    if is_local {
        walk.local_functions.push((file, name))
    } else {
        Ok(())
    }
}
