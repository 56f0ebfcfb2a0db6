// Copies of types.

ghost use Rattle.std.specs.Prelude.{◌≡◌, IfOk, map};
ghost use Rattle.sc_typed.specs.Types as spec;

use sc_base::{Boxed, List, OutOfMemory};
use sc_tree::ctype::{CType, Signature};
use std::alloc::Global;

/// A copy of a type. (It is also what the type composes to by itself.)
#[cycle(copy)]
pub fn copy_type(alloc: Global, t: &CType) -> Result<CType, OutOfMemory>
    ensures copied { IfOk result (λ copy. copy ≡ t.now) }
    ensures itself { IfOk result (λ copy. (spec.composition t.now).itself ≡ copy) }
{
    Ok(match t {
        CType::Void => CType::Void,
        CType::Bool => CType::Bool,
        CType::Int(kind) => CType::Int(*kind),
        CType::Ptr(target) => CType::Ptr(Boxed::new(alloc, copy_type(alloc, target.get())?)?),
        CType::Array(element, length) => {
            CType::Array(
                Boxed::new(alloc, copy_type(alloc, element.get())?)?,
                *length,
            )
        }
        CType::Struct(number) => CType::Struct(*number),
        CType::Union(number) => CType::Union(*number),
        CType::Func(signature) => {
            CType::Func(Boxed::new(alloc, copy_signature(alloc, signature.get())?)?)
        }
        CType::Opaque(kind) => CType::Opaque(*kind),
    })
}

/// A copy of a signature. (It is also what the signature composes to by itself.)
#[cycle(copy)]
pub fn copy_signature(alloc: Global, s: &Signature) -> Result<Signature, OutOfMemory>
    ensures copied { IfOk result (λ copy. copy ≡ s.now) }
    ensures itself { IfOk result (λ copy. (spec.signature_composition s.now).itself ≡ copy) }
{
    let params = match &s.params {
        None => None,
        Some(types) => Some(copy_types(alloc, types)?),
    };
    Ok(Signature {
        result: copy_type(alloc, &s.result)?,
        params,
        variadic: s.variadic,
    })
}

/// A copy of a list of types. (It is also what the types compose to by themselves.)
#[cycle(copy)]
pub fn copy_types(alloc: Global, types: &List<CType>) -> Result<List<CType>, OutOfMemory>
    ensures copied { IfOk result (λ copies. copies ≡ types.now) }
    ensures itself { IfOk result (λ copies. map (λ c. c.itself) (map spec.composition types.now) ≡ copies) }
{
    let mut copies = List::from_vec(Vec::with_capacity(alloc, types.len())?);
    for t in types.as_slice() {
        copies.push(copy_type(alloc, t)?)?;
    }
    Ok(copies)
}
