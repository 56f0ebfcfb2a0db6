// Whether two types are one, as runs compare them.

ghost use Rattle.std.specs.Prelude.{◌≡◌, map};
ghost use Rattle.sc_world.specs.Tree as spec;
ghost use Rattle.sc_world.specs.View.{type, types};
ghost use Rattle.run_world.specs.Seen as seen;

use sc_tree::ctype::{CType, Signature};
use sc_types::{same_flag, same_length, same_opaque};

/// Whether two types are one.
#[cycle(same_type)]
pub fn same_type(a: &CType, b: &CType) -> bool
    ensures { result ≡ spec.same_type (type a.now) (type b.now) }
{
    match (a, b) {
        (CType::Void, CType::Void) | (CType::Bool, CType::Bool) => true,
        (CType::Int(k), CType::Int(l)) => k == l,
        (CType::Ptr(t), CType::Ptr(u)) => same_type(t.get(), u.get()),
        (CType::Array(t, m), CType::Array(u, n)) => {
            same_type(t.get(), u.get()) && same_length(*m, *n)
        }
        (CType::Struct(m), CType::Struct(n)) | (CType::Union(m), CType::Union(n)) => m == n,
        (CType::Func(s), CType::Func(t)) => same_signature(s.get(), t.get()),
        (CType::Opaque(k), CType::Opaque(l)) => same_opaque(*k, *l),
        _ => false,
    }
}

#[cycle(same_type)]
fn same_signature(a: &Signature, b: &Signature) -> bool
    ensures { result ≡ spec.same_type (seen.signature a.now) (seen.signature b.now) }
{
    same_type(&a.result, &b.result)
        && (match (&a.params, &b.params) {
            (None, None) => true,
            (Some(ts), Some(us)) => same_types(ts.as_slice(), us.as_slice()),
            (None, Some(_)) | (Some(_), None) => false,
        } && same_flag(a.variadic, b.variadic))
}

#[cycle(same_type)]
fn same_types(a: &[CType], b: &[CType]) -> bool
    ensures { result ≡ spec.same_types (types (map type a.now)) (types (map type b.now)) }
{
    if a.len() != b.len() {
        return false;
    }
    for i in 0..a.len() {
        if !same_type(&a[i], &b[i]) {
            return false;
        }
    }
    true
}
