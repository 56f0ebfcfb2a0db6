// The sorts of types (C11 6.2.5). A sort looks at the outermost layer of a type alone.

ghost use Rattle.std.specs.Prelude.{◌≡◌, ◌≤◌};
ghost use Rattle.std.specs.Option.{option_copied};
ghost use Rattle.sc_typed.specs.Types as spec;

use crate::kinds::{is_signed, kind_bits, promoted, word_bytes};
use sc_tree::ctype::{CType, IntKind, Widths};

/// Whether it is an integer type: `_Bool` or a kind of integer.
pub fn is_integer(t: &CType) -> bool
    ensures { result ≡ spec.is_integer t.now }
{
    matches!(t, CType::Bool | CType::Int(_))
}

/// What a pointer points to; `None` of any other type.
pub fn target(t: &CType) -> Option<&CType>
    ensures { option_copied result ≡ spec.target t.now }
{
    match t {
        CType::Ptr(target) => Some(target.get()),
        _ => None,
    }
}

/// Whether it is a pointer.
pub fn is_pointer(t: &CType) -> bool
    ensures { result ≡ spec.is_pointer t.now }
{
    matches!(t, CType::Ptr(_))
}

/// Whether it is an integer type or a pointer (C11 6.2.5, 21).
pub fn is_scalar(t: &CType) -> bool
    ensures { result ≡ spec.is_scalar t.now }
{
    is_integer(t) || is_pointer(t)
}

/// Whether it is a struct or a union.
pub fn is_aggregate(t: &CType) -> bool
    ensures { result ≡ spec.is_aggregate t.now }
{
    matches!(t, CType::Struct(_) | CType::Union(_))
}

/// Whether it is a function type.
pub fn is_function(t: &CType) -> bool
    ensures { result ≡ spec.is_function t.now }
{
    matches!(t, CType::Func(_))
}

/// Whether it is an array.
pub fn is_array(t: &CType) -> bool
    ensures { result ≡ spec.is_array t.now }
{
    matches!(t, CType::Array(_, _))
}

/// Whether it is `void`.
pub fn is_void(t: &CType) -> bool
    ensures { result ≡ spec.is_void t.now }
{
    matches!(t, CType::Void)
}

/// Whether it is `_Bool`.
pub fn is_bool(t: &CType) -> bool
    ensures { result ≡ spec.is_bool t.now }
{
    matches!(t, CType::Bool)
}

/// Whether it is `void *`.
pub fn is_void_pointer(t: &CType) -> bool
    ensures { result ≡ spec.is_void_pointer t.now }
{
    match t {
        CType::Ptr(target) => is_void(target.get()),
        _ => false,
    }
}

/// The kind to which an integer type is promoted (C11 6.3.1.1); `int` of any other type.
pub fn promoted_kind(t: &CType) -> IntKind
    ensures { result ≡ spec.promoted_kind t.now }
{
    match t {
        CType::Int(kind) => promoted(*kind),
        _ => IntKind::Int,
    }
}

/// The bits of a value of an integer type or a pointer, 1 for `_Bool`; 0 for any other type.
pub fn value_bits(w: Widths, t: &CType) -> u32
    ensures value { result ≡ spec.value_bits w t.now }
    ensures bound { result ≤ 64 }
{
    match t {
        CType::Bool => 1,
        CType::Int(kind) => kind_bits(w, *kind),
        CType::Ptr(_) => 8 * word_bytes(w) as u32,
        _ => 0,
    }
}

/// Whether values of the type have a sign.
pub fn has_sign(t: &CType) -> bool
    ensures { result ≡ spec.has_sign t.now }
{
    match t {
        CType::Int(kind) => is_signed(*kind),
        _ => false,
    }
}
