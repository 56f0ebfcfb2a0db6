// Compatible types, and the composite type of two (C11 6.2.7, 6.7.6.3): when two declarations of one name
// agree, and what they then say together.

ghost use Rattle.std.specs.Prelude.{◌≡◌, ◌||◌, IfOk, map};
ghost use Rattle.std.specs.List.{list_all};
ghost use Rattle.sc_typed.specs.Types as spec;

use crate::copies::{copy_type, copy_types};
use crate::equality::{same_flag, same_opaque};
use crate::kinds::promoted;
use sc_base::{Boxed, List, OutOfMemory};
use sc_tree::ctype::{CType, IntKind, OpaqueKind, Signature};
use std::alloc::Global;

// Whether two lengths agree: one that is not written agrees with each.
fn lengths_agree(a: Option<u32>, b: Option<u32>) -> bool
    ensures { result ≡ spec.lengths_agree a b }
{
    match (a, b) {
        (Some(m), Some(n)) => m == n,
        (None, None) | (None, Some(_)) | (Some(_), None) => true,
    }
}

// Whether the default argument promotions (C11 6.5.2.2) leave a kind as it is.
fn keeps_kind(kind: IntKind) -> bool
    ensures { result ≡ spec.keeps_kind kind }
{
    promoted(kind) == kind
}

fn keeps_opaque(kind: OpaqueKind) -> bool
    ensures { result ≡ spec.keeps_opaque kind }
{
    match kind {
        OpaqueKind::Float => false,
        OpaqueKind::Double | OpaqueKind::LongDouble | OpaqueKind::VaList => true,
    }
}

// Whether the default argument promotions (C11 6.5.2.2) leave a type as it is.
fn keeps_itself(t: &CType) -> bool
    ensures itself { result ≡ spec.keeps_itself t.now }
    ensures fold { result ≡ (spec.agreement t.now).keeps }
{
    match t {
        CType::Bool => false,
        CType::Int(kind) => keeps_kind(*kind),
        CType::Opaque(kind) => keeps_opaque(*kind),
        CType::Void
        | CType::Ptr(_)
        | CType::Array(_, _)
        | CType::Struct(_)
        | CType::Union(_)
        | CType::Func(_) => true,
    }
}

// Whether they leave each of these types as it is.
fn all_keep(types: &List<CType>) -> bool
    ensures itself { result ≡ list_all spec.keeps_itself types.now }
    ensures fold { result ≡ list_all (λ p. p.keeps) (map spec.agreement types.now) }
{
    for t in types.as_slice() {
        if !keeps_itself(t) {
            return false;
        }
    }
    true
}

/// Whether two types are compatible (C11 6.2.7). Empty brackets agree with a list of parameters that the
/// default argument promotions leave as they are, without `...` (C11 6.7.6.3).
#[cycle(agree)]
pub fn compatible(a: &CType, b: &CType) -> bool
    ensures { result ≡ spec.compatible a.now b.now }
{
    match (a, b) {
        (CType::Void, CType::Void) | (CType::Bool, CType::Bool) => true,
        (CType::Int(k), CType::Int(l)) => k == l,
        (CType::Ptr(t), CType::Ptr(u)) => compatible(t.get(), u.get()),
        (CType::Array(t, m), CType::Array(u, n)) => {
            compatible(t.get(), u.get()) && lengths_agree(*m, *n)
        }
        (CType::Struct(m), CType::Struct(n)) | (CType::Union(m), CType::Union(n)) => m == n,
        (CType::Func(s), CType::Func(t)) => compatible_signature(s.get(), t.get()),
        (CType::Opaque(k), CType::Opaque(l)) => same_opaque(*k, *l),
        _ => false,
    }
}

/// Whether two function types are compatible (C11 6.7.6.3).
#[cycle(agree)]
pub fn compatible_signature(a: &Signature, b: &Signature) -> bool
    ensures { result ≡ spec.compatible_signature a.now b.now }
{
    compatible(&a.result, &b.result)
        && match (&a.params, &b.params) {
            (None, None) => true,
            (Some(ps), None) => !a.variadic && all_keep(ps),
            (None, Some(ts)) => !b.variadic && all_keep(ts),
            (Some(ps), Some(ts)) => same_flag(a.variadic, b.variadic) && agree_each(ps, ts),
        }
}

// Whether each of one list is compatible with that at its place in the other, and there are as many.
#[cycle(agree)]
fn agree_each(a: &List<CType>, b: &List<CType>) -> bool
    ensures { result ≡ spec.each_fits (λ p t. p.agrees t) (map spec.agreement a.now) b.now }
{
    if a.len() != b.len() {
        return false;
    }
    for (i, t) in a.as_slice().iter().enumerate() {
        if !compatible(t, &b.as_slice()[i]) {
            return false;
        }
    }
    true
}

fn either(a: bool, b: bool) -> bool
    ensures { result ≡ (a || b) }
{
    a || b
}

/// The composite of two compatible types (C11 6.2.7, 3): it has the lengths and the lists of parameters
/// that one of them has.
#[cycle(compose)]
pub fn composite(alloc: Global, a: &CType, b: &CType) -> Result<CType, OutOfMemory>
    ensures { IfOk result (λ t. t ≡ spec.composite a.now b.now) }
{
    match (a, b) {
        (CType::Ptr(t), CType::Ptr(u)) => {
            let target = composite(alloc, t.get(), u.get())?;
            Ok(CType::Ptr(Boxed::new(alloc, target)?))
        }
        (CType::Array(t, m), CType::Array(u, n)) => {
            let element = composite(alloc, t.get(), u.get())?;
            Ok(CType::Array(Boxed::new(alloc, element)?, m.or(*n)))
        }
        (CType::Func(s), CType::Func(t)) => {
            let signature = composite_signature(alloc, s.get(), t.get())?;
            Ok(CType::Func(Boxed::new(alloc, signature)?))
        }
        _ => copy_type(alloc, a),
    }
}

/// The composite of two compatible function types.
#[cycle(compose)]
pub fn composite_signature(
    alloc: Global,
    a: &Signature,
    b: &Signature,
) -> Result<Signature, OutOfMemory>
    ensures { IfOk result (λ s. s ≡ (spec.signature_composition a.now).with b.now) }
{
    let result = composite(alloc, &a.result, &b.result)?;
    let variadic = either(a.variadic, b.variadic);
    match (&a.params, &b.params) {
        (None, None) => Ok(Signature {
            result,
            params: None,
            variadic,
        }),
        (Some(types), None) => Ok(Signature {
            result,
            params: Some(copy_types(alloc, types)?),
            variadic,
        }),
        (None, Some(types)) => Ok(Signature {
            result,
            params: Some(copy_types(alloc, types)?),
            variadic,
        }),
        (Some(ps), Some(ts)) => Ok(Signature {
            result,
            params: Some(composite_types(alloc, ps, ts)?),
            variadic,
        }),
    }
}

// The composites of the types of two lists, as far as both go.
#[cycle(compose)]
fn composite_types(
    alloc: Global,
    a: &List<CType>,
    b: &List<CType>,
) -> Result<List<CType>, OutOfMemory>
    ensures { IfOk result (λ ts. ts ≡ spec.with_each (map spec.composition a.now) b.now) }
{
    let mut types = List::new(alloc);
    for i in 0..a.len().min(b.len()) {
        types.push(composite(alloc, &a.as_slice()[i], &b.as_slice()[i])?)?;
    }
    Ok(types)
}
