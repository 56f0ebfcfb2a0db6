// Whether two types are one.

ghost use Rattle.std.specs.Prelude.{◌≡◌, map};
ghost use Rattle.sc_typed.specs.Types as spec;

use sc_base::List;
use sc_tree::ctype::{CType, OpaqueKind, Signature};

/// Whether two lengths of arrays are one; one that is not written is equal to no other.
pub fn same_length(a: Option<u32>, b: Option<u32>) -> bool
    ensures { result ≡ spec.same_length a b }
{
    match (a, b) {
        (None, None) => true,
        (Some(m), Some(n)) => m == n,
        (None, Some(_)) | (Some(_), None) => false,
    }
}

/// Whether two opaque kinds are one.
pub fn same_opaque(a: OpaqueKind, b: OpaqueKind) -> bool
    ensures { result ≡ spec.same_opaque a b }
{
    a == b
}

/// Whether two flags are one.
pub fn same_flag(a: bool, b: bool) -> bool
    ensures { result ≡ spec.same_flag a b }
{
    if a { b } else { !b }
}

/// Whether two types are one.
#[cycle(same)]
pub fn same(a: &CType, b: &CType) -> bool
    ensures { result ≡ spec.same a.now b.now }
{
    match (a, b) {
        (CType::Void, CType::Void) | (CType::Bool, CType::Bool) => true,
        (CType::Int(k), CType::Int(l)) => k == l,
        (CType::Ptr(t), CType::Ptr(u)) => same(t.get(), u.get()),
        (CType::Array(t, m), CType::Array(u, n)) => {
            same(t.get(), u.get()) && same_length(*m, *n)
        }
        (CType::Struct(m), CType::Struct(n)) | (CType::Union(m), CType::Union(n)) => m == n,
        (CType::Func(s), CType::Func(t)) => same_signature(s.get(), t.get()),
        (CType::Opaque(k), CType::Opaque(l)) => same_opaque(*k, *l),
        _ => false,
    }
}

/// Whether two signatures are one.
#[cycle(same)]
pub fn same_signature(a: &Signature, b: &Signature) -> bool
    ensures { result ≡ spec.same_signature a.now b.now }
{
    same(&a.result, &b.result)
        && (match (&a.params, &b.params) {
            (None, None) => true,
            (Some(ts), Some(us)) => same_types(ts, us),
            (None, Some(_)) | (Some(_), None) => false,
        } && same_flag(a.variadic, b.variadic))
}

// Whether two lists have the same types.
#[cycle(same)]
fn same_types(a: &List<CType>, b: &List<CType>) -> bool
    ensures { result ≡ spec.each_fits (λ p t. p t) (map spec.same a.now) b.now }
{
    if a.len() != b.len() {
        return false;
    }
    for (i, t) in a.as_slice().iter().enumerate() {
        if !same(t, &b.as_slice()[i]) {
            return false;
        }
    }
    true
}
